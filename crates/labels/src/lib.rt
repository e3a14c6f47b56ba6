// The states picked by their labels, a word for each question.
#![tactic(auto)]

ghost use Rattle.std.specs.Prelude.{◌≡◌, ◌≤◌, ◌<◌, length};
ghost use Rattle.labels.specs.Labels.{having_of, agreeing_of};

// The states whose label has the proposition p.
pub fn having(label: &[u16], p: usize) -> u64
    requires { (length label.now ≤ 64) × (p < 64) }
    ensures { result ≡ having_of label.now p }
{
    label.iter().enumerate().fold(0, |found, (s, l)| {
        found | words::only(words::has(u64::from(*l), p), words::single(s))
    })
}

// The states whose label has the value `val` in each proposition of `see`.
pub fn agreeing(label: &[u16], see: u16, val: u16) -> u64
    requires { length label.now ≤ 64 }
    ensures { result ≡ agreeing_of label.now see val }
{
    label.iter().enumerate().fold(0, |found, (s, l)| {
        found | words::only((*l ^ val) & see == 0, words::single(s))
    })
}
