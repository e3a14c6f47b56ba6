// For each place and valuation the states where what ends there holds: word p * 64 + v.
ghost use Rattle.std.specs.Prelude.{◌≡◌, ◌*◌, ◌≤◌, ◌<◌, length};
ghost use Rattle.truth.specs.Nodes.{named_of, leaf_of, own_of, made_of, word_at, node_filled, nodes_after, holds_of};

pub use crate::tables::Holds;
use std::array;
use syntax::{Op, Rule};

// The states whose label has the proposition p. One without a name no state has.
#[tactic(auto, unfolding(crate::specs::Nodes::named_of))]
fn having(label: &[u16], p: u8) -> u64
    requires { length label.now ≤ 64 }
    ensures { result ≡ named_of label.now p }
{
    let number = usize::from(p);
    if number < Rule::NAMES {
        labels::having(label, number)
    } else {
        0
    }
}

// The states where a node holds by their labels alone, if it is a proposition. (Of the propositions that a rule does not name nothing is worked
// out, so what this takes does not grow with their number.)
fn leaf(op: Op, label: &[u16]) -> u64
    requires { length label.now ≤ 64 }
    ensures { result ≡ leaf_of op label.now }
{
    match op {
        Op::Prop(p) => having(label, p),
        _ => 0,
    }
}

// Part k at the valuation v: all states or none.
pub fn own(v: usize, k: usize) -> u64
    ensures { result ≡ own_of v k }
{
    if k < 6 && words::has(v as u64, k) {
        u64::MAX
    } else {
        0
    }
}

// A node's word from those of its operands, x the first of two and y the last; `leaf` is a proposition's, `own` a part's.
fn made(op: Op, leaf: u64, x: u64, y: u64, own: u64) -> u64
    ensures { result ≡ made_of op leaf x y own }
{
    match op {
        Op::False => 0,
        Op::True => u64::MAX,
        Op::Prop(_) => leaf,
        Op::Not => !y,
        Op::Next | Op::Finally | Op::Globally | Op::Until | Op::Release => own,
        Op::And => x & y,
        Op::Or => x | y,
        Op::Implies => !x | y,
    }
}

// The word of a place at v, and 0 beyond the places.
pub fn word_at(words: &[u64; 2112], place: usize, v: usize) -> u64
    requires { v < 64 }
    ensures { result ≡ word_at words.now place v }
{
    if place < 33 { words[place * 64 + v] } else { 0 }
}

// The words behind node `at`, which come from words before them: `first` is where the first of two operands ends, `number` which part
// the node is. (A loop for each node: what the node says is looked up once, and not for each word.)
fn fill_node(op: Op, leaf: u64, first: usize, number: usize, at: usize, words: &mut [u64; 2112])
    requires { at < 32 }
    ensures { words.new ≡ node_filled op leaf first number at words.old 64 }
{
    for v in 0..64 {
        let x = word_at(words, first, v);
        words[at * 64 + v + 64] = made(op, leaf, x, words[at * 64 + v], own(v, number));
    }
}

// Node by node.
pub fn node_words(
    rule: Rule,
    label: &[u16],
    begins: &[usize; 33],
    numbers: &[usize; 32],
) -> [u64; 2112]
    requires { (rule.len ≤ 32) × (length label.now ≤ 64) }
    ensures { result ≡ nodes_after rule.nodes label.now begins.now numbers.now (rule.len * 64) }
{
    let mut words = [0; 2112];
    for (at, node) in rule.nodes[..rule.len].iter().enumerate() {
        let leaf = leaf(node.op, label);
        fill_node(node.op, leaf, begins[at], numbers[at], at, &mut words);
    }
    words
}

// The states where the rule itself holds, at each valuation.
pub fn rule_words(words: &[u64; 2112], len: usize) -> [u64; 64]
    ensures { result ≡ holds_of words.now len }
{
    array::from_fn(|v| word_at(words, len, v))
}
