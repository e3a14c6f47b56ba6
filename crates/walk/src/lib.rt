// A walk of live pairs that comes to a loop in which every debt is met, written by its states: the stem, and then the loop, for which the tail
// of the lent buffer is lent on.
#![tactic(auto)]

mod knots;
mod legs;
mod rests;
mod turns;

ghost use Rattle.std.specs.Prelude.{◌≡◌, ℕ, ◌+◌, ◌≤◌, length};
ghost use Rattle.std.proofs.Math.Bool.{So};
ghost use Rattle.graphs.specs.Fair.{Fair};
ghost use Rattle.graphs.specs.Sets.{only};
ghost use Rattle.model.specs.Sets.{nodes_of};
ghost use Rattle.nearest.specs.Graph.{moves_of};
ghost use Rattle.walk.specs.Debts.{debts_to};
ghost use Rattle.walk.specs.Legs.{Walked};

use crate::knots::find_knot;
use crate::legs::{common_pair, write_leg};
use crate::rests::{ways_to_rest, write_rest};
use crate::turns::write_turn;

// How many states the stem and the loop have.
#[derive(Clone, Copy)]
pub struct Lengths {
    pub stem: usize,
    pub turn: usize,
}

impl Lengths {
    // The most states of a stem and of a loop, and the least bytes that a buffer must have.
    pub const STEM: usize = 4095;

    pub const TURN: usize = 45056;

    pub const ROOM: usize = 49152;

    // The most of both: no witness is longer.
    pub fn most() -> Self
        ensures { (result.stem ≡ 4095) × (result.turn ≡ 45056) }
    {
        Lengths {
            stem: Lengths::STEM,
            turn: Lengths::TURN,
        }
    }
}

// Writes a walk from x: the stem to a pair to which all leads back that it leads to, and the loop from there.
fn write_far(
    next: &[u64],
    leave: &[u64; 1024],
    enter: &[u64; 1024],
    count: usize,
    fair: &[u64],
    settled: &[u64; 384],
    parts: usize,
    live: &[u64; 64],
    x: usize,
    buffer: &mut [u8],
) -> Lengths
    requires count_bound { (count ≤ 64) × (parts ≤ 6) × (length fair.now ≤ 4) × (length live.now ≡ 64) × (49152 ≤ length buffer.old) }
    requires fair { Fair (moves_of next.now leave.now enter.now count)
        (debts_to fair.now count settled.now (length fair.now + parts)) (nodes_of live.now) }
    requires inside { So (nodes_of live.now x) }
    ensures { Walked (moves_of next.now leave.now enter.now count)
        (debts_to fair.now count settled.now (length fair.now + parts)) (nodes_of live.now) (only x)
        buffer.old buffer.new result.stem result.turn }
{
    let knot = find_knot(next, leave, enter, count, live, x);
    let stem = write_leg(next, leave, enter, count, knot.back, x, buffer, 0).at;
    let turn = write_turn(
        next,
        leave,
        enter,
        count,
        fair,
        settled,
        parts,
        live,
        knot,
        &mut buffer[stem..],
    );
    Lengths { stem, turn }
}

// Writes the walk of a witness for some live pair of the asked set: the stem, and the loop from the byte after it. It stays where it comes to
// a pair at which it can.
pub fn write_walk<'a>(
    next: &[u64],
    leave: &'a [u64; 1024],
    enter: &'a [u64; 1024],
    count: usize,
    fair: &[u64],
    settled: &'a [u64; 384],
    parts: usize,
    live: &[u64; 64],
    asked: &[u64; 64],
    buffer: &mut [u8],
) -> Lengths
    requires count_bound { (count ≤ 64) × (parts ≤ 6) × (length fair.now ≤ 4) × (length live.now ≡ 64) × (49152 ≤ length buffer.old) }
    requires fair { Fair (moves_of next.now leave.now enter.now count)
        (debts_to fair.now count settled.now (length fair.now + parts)) (nodes_of live.now) }
    requires held { (y : ℕ) × (So (nodes_of asked.now y) × So (nodes_of live.now y)) }
    ensures { Walked (moves_of next.now leave.now enter.now count)
        (debts_to fair.now count settled.now (length fair.now + parts)) (nodes_of live.now) (nodes_of asked.now)
        buffer.old buffer.new result.stem result.turn }
{
    let x = common_pair(asked, live);
    let near = ways_to_rest(next, leave, enter, count, fair, settled, parts, live);
    if words::has(near.words[x / 64], x % 64) {
        return write_rest(next, leave, enter, count, near, x, buffer);
    }
    write_far(
        next, leave, enter, count, fair, settled, parts, live, x, buffer,
    )
}
