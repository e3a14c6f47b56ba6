// A node of a rule at one position, by what its operands are there and by what lies ahead of it.
// The values not yet used are a stack: a word whose member 0 is the top.
#![tactic(auto)]

ghost use Rattle.std.specs.Prelude.{◌≡◌};
ghost use Rattle.meaning.specs.Bit.{bit};
ghost use Rattle.node_value.specs.Unfold.{value_of, guess_of, pushed_of, value_at, carry_at};

use shape::ops::is_next;
use syntax::{Op, sides_of};
pub use words::wide;

// Whether the label has the proposition p.
fn has_prop(label: u64, p: u8) -> bool
    ensures { result ≡ bit label p }
{
    p < 64 && words::has(label, usize::from(p))
}

// A node's value: x is the value of the first of two operands, y of the last, and `ahead` what the next position hands on.
fn value(op: Op, label: u64, x: bool, y: bool, ahead: bool) -> bool
    ensures { result ≡ value_of op label x y ahead }
{
    match op {
        Op::False => false,
        Op::True => true,
        Op::Prop(p) => has_prop(label, p),
        Op::Not => !y,
        Op::Next => ahead,
        Op::Finally => y || ahead,
        Op::Globally => y && ahead,
        Op::Until => y || (x && ahead),
        Op::Release => y && (x || ahead),
        Op::And => x && y,
        Op::Or => x || y,
        Op::Implies => !x || y,
    }
}

// What a node hands on where nothing lies ahead: nothing is met there, and nothing is broken.
pub fn guess(op: Op) -> bool
    ensures { result ≡ guess_of op }
{
    matches!(op, Op::Globally | Op::Release)
}

// The stack with a node's operands taken off and its value put on.
#[tactic(auto, unfolding(crate::specs::Unfold::pushed_of))]
pub fn pushed(stack: u64, op: Op, value: bool) -> u64
    ensures { result ≡ pushed_of stack op value }
{
    ((stack >> sides_of(op)) << 1) | words::only(value, 1)
}

// The value of a node whose operands are on the stack.
#[tactic(auto, unfolding(crate::specs::Unfold::value_at))]
pub fn value_at(op: Op, label: u64, stack: u64, ahead: bool) -> bool
    ensures { result ≡ value_at op label stack ahead }
{
    value(op, label, words::has(stack, 1), words::has(stack, 0), ahead)
}

// What it hands on to the position before: X its operand, any other node its own value.
#[tactic(auto, using(std::proofs::lemmas::Grind::common_steps), unfolding(crate::specs::Unfold::carry_at))]
pub fn carry_at(op: Op, label: u64, stack: u64, ahead: bool) -> bool
    ensures { result ≡ carry_at op label stack ahead }
{
    if is_next(op) {
        return words::has(stack, 0);
    }
    value_at(op, label, stack, ahead)
}
