// The checks that the calls share: the table and the rule handed in (1, 2, 9), and a set of pairs (9).
#![tactic(auto)]

ghost use Rattle.std.specs.Prelude.{◌≡◌};
ghost use Rattle.checks.specs.Checks.{pairs_fit, input_outcome};

use answers::{Kind, Refusal};
use plant::Plant;
use syntax::Rule;

// 1, 2, and 9 for the rule.
#[tactic(auto, unfolding(crate::specs::Checks::input_outcome))]
pub fn check_input(
    plant: Plant,
    fair: &[u64],
    label: &[u16],
    next: &[u64],
    rule: Rule,
) -> Result<(), Refusal>
    ensures { result ≡ input_outcome plant fair.now label.now next.now rule }
{
    plant::check_table(plant, fair, label, next)?;
    if !rule_value::is_valid(rule, plant.props) {
        return Err(Refusal::at(Kind::Value, 0));
    }
    Ok(())
}

// Whether the pairs are of the table's states and the rule's valuations.
#[tactic(auto, using(words::specs::Unions::union_more), unfolding(words::specs::Below::union_below))]
pub fn pairs_fit(words: &[u64; 64], states: u64, count: usize) -> bool
    ensures { result ≡ pairs_fit words.now states count }
{
    let mut beyond = 0;
    for (v, &word) in words.iter().enumerate() {
        beyond |= words::without(word, words::only(v < count, states));
    }
    beyond == 0
}
