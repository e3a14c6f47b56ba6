// The propositions of a rule, and whether an event saw them all.
ghost use Rattle.std.specs.Prelude.{◌≡◌, ◌≤◌};
ghost use Rattle.within.specs.Props.{prop_set, props_of, sees_all};

use syntax::{Op, Rule};

// The proposition that a node is, as a set.
fn prop_set(op: Op) -> u64
    ensures { result ≡ prop_set op }
{
    match op {
        Op::Prop(p) if p < 64 => words::single(usize::from(p)),
        _ => 0,
    }
}

// The propositions of a rule.
pub fn props_of(rule: Rule) -> u64
    requires { rule.len ≤ 32 }
    ensures { result ≡ props_of rule }
{
    rule.nodes[..rule.len]
        .iter()
        .fold(0, |found, node| found | prop_set(node.op))
}

// Whether an event that saw `see` saw them all.
#[tactic(auto, unfolding(crate::specs::Props::sees_all))]
pub fn sees_all(props: u64, see: u16) -> bool
    ensures { result ≡ sees_all props see }
{
    words::without(props, u64::from(see)) == 0
}
