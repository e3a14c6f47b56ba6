// A rule judged on a finite trace, from the last event to the first, with one word of what the nodes hand on to the event before.
#![tactic(auto)]

pub mod seen;

ghost use Rattle.std.specs.Prelude.{◌≡◌, ◌≤◌};
ghost use Rattle.within.specs.Turn.{guesses_of, stack_after, carries_after};

use node_value::{carry_at, guess, pushed, value_at};
use syntax::Rule;

// What each node hands on where no event lies ahead.
#[tactic(auto, using(std::proofs::lemmas::Grind::common_steps, words::specs::Unions::word_none, words::specs::Unions::word_more))]
pub fn guesses(rule: Rule) -> u64
    requires { rule.len ≤ 32 }
    ensures { result ≡ guesses_of rule.nodes rule.len }
{
    let mut found = 0;
    for (at, node) in rule.nodes[..rule.len].iter().enumerate() {
        found |= words::only(guess(node.op), words::single(at));
    }
    found
}

// The values at an event, the rule's own on top, and what each node hands on to the event before.
#[derive(Clone, Copy, Debug, PartialEq, Eq)]
pub struct Values {
    pub stack: u64,
    pub ahead: u64,
}

// One event more, before those that hand on `ahead`.
#[tactic(auto, using(std::proofs::lemmas::Grind::common_steps, words::specs::Unions::word_none, crate::specs::Turns::stack_turn, crate::specs::Turns::carries_turn), unfolding(crate::specs::Turn::stack_after))]
pub fn turn(rule: Rule, label: u64, ahead: u64) -> Values
    requires { rule.len ≤ 32 }
    ensures { (result.stack ≡ stack_after rule.nodes label ahead rule.len) × (result.ahead ≡ carries_after rule.nodes label ahead rule.len) }
{
    let mut stack = 0;
    let mut carries = 0;
    for (at, node) in rule.nodes[..rule.len].iter().enumerate() {
        let next = words::has(ahead, at);
        carries |= words::only(carry_at(node.op, label, stack, next), words::single(at));
        stack = pushed(stack, node.op, value_at(node.op, label, stack, next));
    }
    Values {
        stack,
        ahead: carries,
    }
}
