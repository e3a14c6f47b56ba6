// Where the operands of a rule's nodes stand, and which node is which temporal part.
// Place p is behind p nodes. A node's last operand ends where the node stands; the operand before it ends where the last one begins.
#![tactic(auto)]

pub mod ops;

ghost use Rattle.std.specs.Prelude.{◌≡◌, ◌≤◌, ◌==◌, get_or, position};
ghost use Rattle.shape.specs.Shape.{begin_of, begins_of, counts_of, inserted_of, order_of, number_in, numbers_of, kinds_of, nexts_in, parts_in, Shaped};

use ops::{is_next, op_at};
use std::array;
use syntax::{Node, Op, Rule, is_part, sides_of};

// The operators of the parts.
#[derive(Clone, Copy, Debug, PartialEq, Eq)]
pub struct Kinds {
    pub nodes: [Node; 6],
}

#[derive(Clone, Copy, Debug, PartialEq, Eq)]
pub struct Shape {
    // where the operand that ends at a place begins
    pub begins: [usize; 33],
    // the node of each part
    pub order: [usize; 6],
    // and its operator
    pub kinds: Kinds,
    // the part of each node, and `parts` for a node that is none
    pub numbers: [usize; 32],
    pub parts: usize,
    // which parts are X
    pub nexts: u64,
}

// Entry k of a table, and 0 beyond its end.
pub fn entry(table: &[usize], k: usize) -> usize
    ensures { result ≡ get_or table.now k 0 }
{
    table.get(k).copied().unwrap_or(0)
}

// Where what node i ends begins: at the node itself, or where its first operand begins.
fn begin(op: Op, i: usize, one: usize, two: usize) -> usize
    ensures { result ≡ begin_of op i one two }
{
    match sides_of(op) {
        0 => i,
        1 => one,
        _ => two,
    }
}

// For each place, where the operand that ends there begins.
fn begins_of(rule: Rule) -> [usize; 33]
    requires { rule.len ≤ 32 }
    ensures { result ≡ begins_of rule.nodes rule.len }
{
    let mut at = [0; 33];
    for i in 0..rule.len {
        let last = at[i];
        at[i + 1] = begin(op_at(rule, i), i, last, entry(&at, last));
    }
    at
}

// For each place, how many parts there are before it.
fn counts_of(rule: Rule) -> [usize; 33]
    requires { rule.len ≤ 32 }
    ensures { result ≡ counts_of rule.nodes rule.len }
{
    let mut at = [0; 33];
    let mut count = 0;
    for i in 0..rule.len {
        count += usize::from(is_part(op_at(rule, i)));
        at[i + 1] = count;
    }
    at
}

// One more node in the order, as part `at`.
fn insert(order: &mut [usize; 6], at: usize, node: usize)
    ensures { order.new ≡ inserted_of order.old at node }
{
    if at < 6 {
        order.copy_within(at..5, at + 1);
        order[at] = node;
    }
}

// The nodes of the parts, in the order of the printed text: a part stands before the parts of its last operand, and behind all others so far.
fn order_of(rule: Rule, begins: &[usize; 33], counts: &[usize; 33]) -> [usize; 6]
    requires { rule.len ≤ 32 }
    ensures { result ≡ order_of rule.nodes begins.now counts.now rule.len }
{
    let mut order = [0; 6];
    for i in 0..rule.len {
        if is_part(op_at(rule, i)) {
            insert(&mut order, entry(counts, begins[i]), i);
        }
    }
    order
}

// Where a node stands first.
fn place_of(nodes: &[usize], node: usize) -> Option<usize>
    ensures { result ≡ position (λ n. n == node) nodes.now }
{
    nodes.iter().position(|&n| n == node)
}

// Which part node i is, and `parts` if it is none.
fn number_of(order: &[usize; 6], parts: usize, i: usize) -> usize
    requires { parts ≤ 6 }
    ensures { result ≡ number_in order.now parts i }
{
    place_of(&order[..parts], i).unwrap_or(parts)
}

fn numbers_of(order: &[usize; 6], parts: usize) -> [usize; 32]
    requires { parts ≤ 6 }
    ensures { result ≡ numbers_of order.now parts }
{
    array::from_fn(|i| number_of(order, parts, i))
}

// The operator of each part. Beyond the parts it is that of node 0, a leaf.
fn kinds_of(rule: Rule, order: &[usize; 6]) -> [Node; 6]
    ensures { result ≡ kinds_of rule.nodes order.now }
{
    array::from_fn(|k| Node {
        op: op_at(rule, order[k]),
    })
}

// Which parts are X.
fn nexts_of(kinds: &[Node; 6], parts: usize) -> u64
    requires { parts ≤ 6 }
    ensures { result ≡ nexts_in kinds.now parts }
{
    let mut found = 0;
    for (k, node) in kinds[..parts].iter().enumerate() {
        if is_next(node.op) {
            found |= words::single(k);
        }
    }
    found
}

// All of it. The rule is one that some text gives.
pub fn shape_of(rule: Rule) -> Shape
    requires { (rule.len ≤ 32) × (parts_in rule ≤ 6) }
    ensures { Shaped rule result }
{
    let begins = begins_of(rule);
    let counts = counts_of(rule);
    let order = order_of(rule, &begins, &counts);
    let parts = counts[rule.len];
    let kinds = kinds_of(rule, &order);
    Shape {
        begins,
        order,
        kinds: Kinds { nodes: kinds },
        numbers: numbers_of(&order, parts),
        parts,
        nexts: nexts_of(&kinds, parts),
    }
}
