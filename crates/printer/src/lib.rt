// Prints a rule, from its last node and the text's last byte backwards: so no text has to be moved.
#![tactic(auto)]

ghost use Rattle.std.specs.Prelude.{◌≡◌, ◌≤◌, length};
ghost use Rattle.syntax.specs.Value.{held};
ghost use Rattle.syntax.specs.declared.Op.TheVariants.{Prop};
ghost use Rattle.printer.specs.Tell.{wide, ten, width, last, first, Ending, Wording, Room, Told, share, shares, Printable, Prints};

use syntax::{Op, Rule};
use writing::put_byte;

// Whether a node's own word has a byte before its number or its last byte.
fn is_wide(op: Op) -> bool
    ensures { result ≡ wide op }
{
    matches!(op, Op::Prop(_) | Op::Implies)
}

// The last byte of a node's word.
fn last_of(op: Op) -> u8
    ensures { result ≡ last op }
{
    match op {
        Op::False => b'0',
        Op::True => b'1',
        Op::Prop(k) => b'0' + (usize::from(k) % Rule::NAMES % 10) as u8,
        Op::Not => b'!',
        Op::Next => b'X',
        Op::Finally => b'F',
        Op::Globally => b'G',
        Op::Until => b'U',
        Op::Release => b'R',
        Op::And => b'&',
        Op::Or => b'|',
        Op::Implies => b'>',
    }
}

// Whether a node's own word ends with a number of two digits.
fn is_ten(op: Op) -> bool
    ensures { result ≡ ten op }
{
    match op {
        Op::Prop(k) => 10 <= usize::from(k) % Rule::NAMES,
        _ => false,
    }
}

// The first byte of a word of more bytes.
fn first_of(op: Op) -> u8
    ensures { result ≡ first op }
{
    if op == Op::Implies { b'-' } else { b'p' }
}

// Writes the last byte of a node's own word, and before it the 1 of a number of two digits, so that it ends at `end`; returns where this begins.
fn put_ending(buffer: &mut [u8], end: usize, op: Op) -> usize
    requires { (width op ≤ end) × (end ≤ length buffer.old) }
    ensures { Ending buffer.old end op result buffer.new }
{
    let near = end - 1;
    put_byte(buffer, near, last_of(op));
    if is_ten(op) {
        let far = end - 2;
        put_byte(buffer, far, b'1');
        far
    } else {
        near
    }
}

// Writes a node's own word so that it ends at `end`, and returns where it begins.
fn put_word(buffer: &mut [u8], end: usize, op: Op) -> usize
    requires { (width op ≤ end) × (end ≤ length buffer.old) }
    ensures { Wording buffer.old end op result buffer.new }
{
    let near = put_ending(buffer, end, op);
    if is_wide(op) {
        let far = near - 1;
        put_byte(buffer, far, first_of(op));
        far
    } else {
        near
    }
}

// A place in the nodes, and one in the text.
#[derive(Clone, Copy)]
pub struct Spot {
    pub node: usize,
    pub at: usize,
}

// Writes the rule whose last node stands before `node` so that its text ends at `end`; returns where its nodes and its text begin.
fn put_tree(rule: Rule, buffer: &mut [u8], node: usize, end: usize) -> Spot
    requires { Room rule.nodes node end (length buffer.old) }
    ensures { Told rule.nodes node end buffer.old result buffer.new }
{
    if node == 0 {
        return Spot { node, at: end };
    }
    let i = node - 1;
    let op = rule.nodes[i].op;
    let sides = syntax::sides_of(op);
    if sides == 0 {
        let at = put_word(buffer, end, op);
        return Spot { node: i, at };
    }
    if sides == 1 {
        let inner = put_tree(rule, buffer, i, end);
        let at = put_word(buffer, inner.at, op);
        return Spot {
            node: inner.node,
            at,
        };
    }
    let close = end - 1;
    put_byte(buffer, close, b')');
    let right = put_tree(rule, buffer, i, close);
    let mid = put_word(buffer, right.at, op);
    let left = put_tree(rule, buffer, right.node, mid);
    let open = left.at - 1;
    put_byte(buffer, open, b'(');
    Spot {
        node: left.node,
        at: open,
    }
}

// How many bytes a name has.
fn name_share(k: u8) -> usize
    ensures { result ≡ width (Prop k) }
{
    if usize::from(k) % Rule::NAMES < 10 {
        2
    } else {
        3
    }
}

// How many bytes a node brings: its word, and its parentheses.
fn share_of(op: Op) -> usize
    ensures { result ≡ share op }
{
    match op {
        Op::Prop(k) => name_share(k),
        Op::Until | Op::Release | Op::And | Op::Or => 3,
        Op::Implies => 4,
        _ => 1,
    }
}

// How many bytes the rule's nodes bring.
pub fn room_of(rule: Rule) -> usize
    ensures { result ≡ shares (held rule) }
{
    let mut total: usize = 0;
    for node in &rule.nodes[..rule.stored()] {
        total += share_of(node.op);
    }
    total
}

// Prints a rule at the buffer's start, and returns the text's length.
pub fn put_rule(rule: Rule, buffer: &mut [u8]) -> usize
    requires { Printable rule (length buffer.old) }
    ensures { Prints rule buffer.old result buffer.new }
{
    let end = room_of(rule);
    put_tree(rule, buffer, rule.len, end);
    end
}
