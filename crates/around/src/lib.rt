// A rule judged on a lasso, node by node: at each position a stack of values, of which a node takes its operands and to which it adds its
// own. Each node goes backward once round the loop, to know what the loop's first position hands on, and then over all positions.
#![tactic(auto)]

pub mod run;

ghost use Rattle.std.specs.Prelude.{◌≡◌, ◌≤◌, ◌<◌, ◌-◌, length};
ghost use Rattle.around.specs.Around.{place, Means};
ghost use Rattle.around.specs.Fill.{handed_from, filled_from, stacks_after, around_of};

use node_value::{carry_at, guess, pushed, value_at};
use syntax::{Op, Rule};

// What a node hands on at position `from`, where its last position is handed `end`.
#[tactic(auto, using(crate::specs::Turns::handed_last, crate::specs::Turns::handed_back))]
fn handed(op: Op, labels: &[u16], words: &[u64; 4096], end: bool, from: usize) -> bool
    requires { (from ≤ length labels.now) × (length labels.now ≤ 4096) }
    ensures { result ≡ handed_from op labels.now words.now end (length labels.now - from) from }
{
    let mut ahead = end;
    for i in (from..labels.len()).rev() {
        ahead = carry_at(op, u64::from(labels[i]), words[i], ahead);
    }
    ahead
}

// The node's value put on the stack at each position.
#[tactic(auto, using(crate::specs::Turns::handed_last, crate::specs::Turns::filled_last, crate::specs::Turns::carry_back, crate::specs::Turns::filled_back))]
fn fill(op: Op, labels: &[u16], end: bool, words: &mut [u64; 4096])
    requires { length labels.now ≤ 4096 }
    ensures { words.new ≡ filled_from op labels.now words.old end (length labels.now) 0 }
{
    let mut ahead = end;
    for i in (0..labels.len()).rev() {
        let label = u64::from(labels[i]);
        let stack = words[i];
        words[i] = pushed(stack, op, value_at(op, label, stack, ahead));
        ahead = carry_at(op, label, stack, ahead);
    }
}

// Node by node.
#[tactic(auto, unfolding(crate::specs::Fill::stacks_after))]
fn stacks_of(rule: Rule, labels: &[u16], stem: usize) -> [u64; 4096]
    requires { (rule.len ≤ 32) × (stem < length labels.now) × (length labels.now ≤ 4096) }
    ensures { result ≡ stacks_after rule.nodes labels.now stem rule.len }
{
    let mut words = [0; 4096];
    for node in &rule.nodes[..rule.len] {
        let first = handed(node.op, labels, &words, guess(node.op), stem);
        fill(node.op, labels, first, &mut words);
    }
    words
}

// Where position p stands among n positions, of which the first `stem` are the stem.
#[tactic(auto, using(crate::proofs::Places::in_stem, crate::proofs::Places::in_round, crate::proofs::Places::place_below))]
pub fn place_of(stem: usize, n: usize, p: usize) -> usize
    requires { stem < n }
    ensures { (result ≡ place stem n p) × (result < n) }
{
    if p < stem {
        p
    } else {
        stem + (p - stem) % (n - stem)
    }
}

// Whether the rule holds at position p of the endless word that these labels go through, the stem once and then the loop for ever.
#[tactic(auto, using(crate::proofs::Right::around_means, crate::specs::Turns::around_asked))]
pub fn holds_around(rule: Rule, labels: &[u16], stem: usize, p: usize) -> bool
    requires { (rule.len ≤ 32) × (stem < length labels.now) × (length labels.now ≤ 4096) }
    ensures is { result ≡ around_of rule labels.now stem p }
    ensures means { Means rule labels.now stem p result }
{
    let stacks = stacks_of(rule, labels, stem);
    let at = place_of(stem, labels.len(), p);
    words::has(stacks[at], 0)
}
