// A rule judged along a run that is given by its states, stem and then loop.
ghost use Rattle.std.specs.Prelude.{◌≡◌, ◌≤◌, ◌<◌, length, get_or};
ghost use Rattle.around.specs.Along.{labels_in, labels_of, MeansOnRun};
ghost use Rattle.around.specs.Fill.{around_of};

use crate::holds_around;
use syntax::Rule;

// The label of a state, and 0 beyond the table.
pub fn label_of(label: &[u16], state: u8) -> u16
    ensures { result ≡ get_or label.now state 0 }
{
    label.get(usize::from(state)).copied().unwrap_or(0)
}

// The labels along a run, and 0 beyond it.
#[tactic(auto, using(words::specs::Lists::filled_none, words::specs::Lists::filled_turn), unfolding(crate::specs::Along::labels_in))]
pub fn labels_along(label: &[u16], run: &[u8]) -> [u16; 4096]
    requires { length run.now ≤ 4096 }
    ensures { result ≡ labels_in label.now run.now }
{
    let mut labels = [0; 4096];
    for (i, &state) in run.iter().enumerate() {
        labels[i] = label_of(label, state);
    }
    labels
}

// Whether the rule holds at position p of the run.
#[tactic(auto, using(crate::specs::Along::labels_are, crate::proofs::AlongLaws::run_means, std::proofs::lemmas::Grind::common_steps))]
pub fn holds_on_run(rule: Rule, label: &[u16], run: &[u8], stem: usize, p: usize) -> bool
    requires { (rule.len ≤ 32) × (stem < length run.now) × (length run.now ≤ 4096) }
    ensures is { result ≡ around_of rule (labels_of label.now run.now) stem p }
    ensures means { MeansOnRun rule label.now run.now stem p result }
{
    let labels = labels_along(label, run);
    holds_around(rule, &labels[..run.len()], stem, p)
}
