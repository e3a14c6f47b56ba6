// The tables of the parts: entry v * 6 + k is a set of states, for part k at the valuation v.
ghost use Rattle.std.specs.Prelude.{◌≡◌, ◌<◌};
ghost use Rattle.truth.specs.Asked as asked;
ghost use Rattle.truth.specs.Columns.{column_filled};
ghost use Rattle.truth.specs.Rows.{told_of, part_at, rows_from};

use crate::nodes::{own, word_at};
use shape::ops::is_next;
use shape::{Kinds, entry};
use syntax::Op;

// What is asked of a part, for a table of its own.
pub trait Asked {
    ghost asked: { asked.Asked };

    // x is the word of the first of two operands, y of the last, own of the part.
    fn told(op: Op, x: u64, y: u64, own: u64) -> u64
        ensures { result ≡ told_of asked op x y own };
}

// What it unfolds to where its value next is 0.
#[derive(Clone, Copy)]
pub struct Low;

impl Asked for Low {
    ghost asked = { asked.Low };

    fn told(op: Op, x: u64, y: u64, own: u64) -> u64 {
        match op {
            Op::Next => own,
            Op::Finally | Op::Until => y,
            Op::Release => y & x,
            _ => 0,
        }
    }
}

// And where that is 1.
#[derive(Clone, Copy)]
pub struct High;

impl Asked for High {
    ghost asked = { asked.High };

    fn told(op: Op, x: u64, y: u64, own: u64) -> u64 {
        match op {
            Op::Next => own,
            Op::Finally => u64::MAX,
            Op::Globally | Op::Release => y,
            Op::Until => y | x,
            _ => 0,
        }
    }
}

// The operand of an X.
#[derive(Clone, Copy)]
pub struct Operand;

impl Asked for Operand {
    ghost asked = { asked.Operand };

    fn told(op: Op, _x: u64, y: u64, _own: u64) -> u64 {
        if is_next(op) { y } else { u64::MAX }
    }
}

// Whether it is settled: an until that is true where its right side holds, a release that is false where it does not.
#[derive(Clone, Copy)]
pub struct Settled;

impl Asked for Settled {
    ghost asked = { asked.Settled };

    fn told(op: Op, _x: u64, y: u64, own: u64) -> u64 {
        match op {
            Op::Next => u64::MAX,
            Op::Finally | Op::Until => !own | y,
            Op::Globally | Op::Release => own | !y,
            _ => 0,
        }
    }
}

// Part k: its entries at all valuations. `first` and `last` are where its operands end. (A loop for each part: what the part says is
// looked up once, and no entry needs a division.)
fn fill_part<A: Asked>(
    op: Op,
    first: usize,
    last: usize,
    words: &[u64; 2112],
    k: usize,
    table: &mut [u64; 384],
)
    requires { k < 6 }
    ensures { table.new ≡ column_filled k (part_at A.asked op first last words.now k) table.old 64 }
{
    for v in 0..64 {
        let x = word_at(words, first, v);
        let y = word_at(words, last, v);
        table[v * 6 + k] = A::told(op, x, y, own(v, k));
    }
}

// The whole table.
pub fn rows_of<A: Asked>(
    kinds: &Kinds,
    begins: &[usize; 33],
    order: &[usize; 6],
    words: &[u64; 2112],
) -> [u64; 384]
    ensures { result ≡ rows_from A.asked kinds.now.nodes begins.now order.now words.now }
{
    let mut table = [0; 384];
    for (k, node) in kinds.nodes.iter().enumerate() {
        let last = order[k];
        fill_part::<A>(node.op, entry(begins, last), last, words, k, &mut table);
    }
    table
}
