// The loop: by way of each debt, and back to where it began.
ghost use Rattle.std.specs.Prelude.{◌≡◌, ◌+◌, ◌≤◌, length};
ghost use Rattle.std.proofs.Math.Bool.{So};
ghost use Rattle.graphs.specs.Fair.{Fair};
ghost use Rattle.model.specs.Sets.{nodes_of};
ghost use Rattle.nearest.specs.Graph.{moves_of};
ghost use Rattle.nearest.specs.Ranking.{rank_of};
ghost use Rattle.walk.specs.Debts.{debts_to};
ghost use Rattle.walk.specs.Knots.{Knotted};
ghost use Rattle.walk.specs.Legs.{Going, Turned};

use crate::knots::Knot;
use crate::legs::{Leg, some_pair, write_leg, write_way};
use sweeps::rounds::goal;

// Writes the walk from q by way of each debt.
fn write_legs(
    next: &[u64],
    leave: &[u64; 1024],
    enter: &[u64; 1024],
    count: usize,
    fair: &[u64],
    settled: &[u64; 384],
    parts: usize,
    live: &[u64; 64],
    q: usize,
    out: &mut [u8],
) -> Leg
    requires count_bound { (count ≤ 64) × (parts ≤ 6) × (length fair.now ≤ 4) × (length live.now ≡ 64) × (40950 ≤ length out.old) }
    requires fair { Fair (moves_of next.now leave.now enter.now count)
        (debts_to fair.now count settled.now (length fair.now + parts)) (nodes_of live.now) }
    requires inside { So (nodes_of live.now q) }
    ensures { Going (moves_of next.now leave.now enter.now count)
        (debts_to fair.now count settled.now (length fair.now + parts)) (nodes_of live.now)
        q result.end out.old out.new result.at (length fair.now + parts) }
{
    let mut a = q;
    let mut at = 0;
    for k in 0..fair.len() + parts {
        let debt = goal(fair, count, settled, k);
        let leg = write_way(next, leave, enter, count, live, &debt.words, a, out, at);
        a = leg.end;
        at = leg.at;
    }
    Leg { end: a, at }
}

// Writes the loop from a knot by way of each debt and back, and gives its length. All that the knot leads to leads back, so it closes.
pub fn write_turn(
    next: &[u64],
    leave: &[u64; 1024],
    enter: &[u64; 1024],
    count: usize,
    fair: &[u64],
    settled: &[u64; 384],
    parts: usize,
    live: &[u64; 64],
    knot: Knot,
    out: &mut [u8],
) -> usize
    requires count_bound { (count ≤ 64) × (parts ≤ 6) × (length fair.now ≤ 4) × (length live.now ≡ 64) × (45056 ≤ length out.old) }
    requires fair { Fair (moves_of next.now leave.now enter.now count)
        (debts_to fair.now count settled.now (length fair.now + parts)) (nodes_of live.now) }
    requires home { Knotted (moves_of next.now leave.now enter.now count) (nodes_of live.now)
        knot.at knot.at (nodes_of knot.back.words) (rank_of knot.back.ranks) }
    ensures { Turned (moves_of next.now leave.now enter.now count)
        (debts_to fair.now count settled.now (length fair.now + parts)) (nodes_of live.now)
        knot.at out.old out.new result }
{
    let legs = write_legs(
        next, leave, enter, count, fair, settled, parts, live, knot.at, out,
    );
    let ways = nearest::onward(next, leave, enter, count, &knot.back.words, legs.end);
    let y = some_pair(&ways.words);
    out[legs.at] = (legs.end % 64) as u8;
    write_leg(next, leave, enter, count, knot.back, y, out, legs.at + 1).at
}
