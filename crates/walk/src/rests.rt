// Pairs at which a run can stay for ever: they lead to themselves, and every debt is met there.
ghost use Rattle.std.specs.Prelude.{◌≡◌, [], ◌∷◌, ◌+◌, ◌%◌, ◌≤◌, ◌<◌, length};
ghost use Rattle.std.proofs.Math.Bool.{So};
ghost use Rattle.words.specs.Over.{over};
ghost use Rattle.model.specs.Sets.{nodes_of};
ghost use Rattle.nearest.specs.Graph.{moves_of};
ghost use Rattle.nearest.specs.Ranking.{rank_of};
ghost use Rattle.walk.specs.Debts.{debts_to};
ghost use Rattle.walk.specs.Legs.{Rested};
ghost use Rattle.walk.specs.Ways.{Slope};
ghost use Rattle.walk.specs.Rests.{stays_of, fair_of, settles_of, Rests, Resting};

use crate::Lengths;
use crate::legs::write_leg;
use leads::halves::both;
use nearest::Near;
use pairs::Pairs;
use std::array;

// The states that the plant lets stay.
fn stays(next: &[u64]) -> u64
    ensures { result ≡ stays_of next.now }
{
    (0..64).fold(
        0,
        |found, s| found | (words::entry(next, s) & words::single(s)),
    )
}

// The states of every fairness set.
#[tactic(auto, using(crate::proofs::Folded::fair_by_fold))]
fn fair_states(fair: &[u64]) -> u64
    ensures { result ≡ fair_of fair.now }
{
    fair.iter().fold(u64::MAX, |met, set| met & set)
}

// The states at which v settles every part.
#[tactic(auto, using(crate::proofs::Folded::settles_by_fold))]
fn settles(settled: &[u64; 384], parts: usize, v: usize) -> u64
    requires { (parts ≤ 6) × (v < 64) }
    ensures { result ≡ settles_of settled.now parts v }
{
    settled[v * 6..v * 6 + parts]
        .iter()
        .fold(u64::MAX, |met, set| met & set)
}

// A word at a time: what stays, moves from v to v, and meets all.
fn rests(
    next: &[u64],
    leave: &[u64; 1024],
    enter: &[u64; 1024],
    count: usize,
    fair: &[u64],
    settled: &[u64; 384],
    parts: usize,
) -> Pairs
    requires { (count ≤ 64) × (parts ≤ 6) }
    ensures { Rests (moves_of next.now leave.now enter.now count)
        (debts_to fair.now count settled.now (length fair.now + parts)) (nodes_of result.words) }
{
    let kept = stays(next) & fair_states(fair);
    Pairs {
        words: array::from_fn(|v| {
            words::only(
                v < count,
                kept & both(leave, v, v) & both(enter, v, v) & settles(settled, parts, v),
            )
        }),
    }
}

// The live pairs that lead to one of these, and the ways there.
pub fn ways_to_rest(
    next: &[u64],
    leave: &[u64; 1024],
    enter: &[u64; 1024],
    count: usize,
    fair: &[u64],
    settled: &[u64; 384],
    parts: usize,
    live: &[u64; 64],
) -> Near
    requires { (count ≤ 64) × (parts ≤ 6) × (length live.now ≡ 64) }
    ensures { Resting (moves_of next.now leave.now enter.now count)
        (debts_to fair.now count settled.now (length fair.now + parts))
        (nodes_of live.now) (nodes_of result.words) (rank_of result.ranks) }
{
    let goal = rests(next, leave, enter, count, fair, settled, parts);
    nearest::nearest(next, leave, enter, count, live, &goal.words)
}

// Writes the loop of a run that stays at y, one state, at the front of the lent tail, and gives its length.
fn write_stay(y: usize, out: &mut [u8]) -> usize
    requires { 0 < length out.old }
    ensures { (result ≡ 1) × (out.new ≡ over (y % 64 ∷ []) out.old) }
{
    out[0] = (y % 64) as u8;
    1
}

// Writes the stem, the way from x down to rank 0, and then the loop, the state where it ends, for which the tail is lent on.
pub fn write_rest(
    next: &[u64],
    leave: &[u64; 1024],
    enter: &[u64; 1024],
    count: usize,
    near: Near,
    x: usize,
    buffer: &mut [u8],
) -> Lengths
    requires count_bound { (count ≤ 64) × (x < 4096) × (rank_of near.ranks x < length buffer.old) }
    requires slope { Slope (moves_of next.now leave.now enter.now count) (nodes_of near.words) (rank_of near.ranks) }
    requires inside { So (nodes_of near.words x) }
    ensures { Rested (moves_of next.now leave.now enter.now count)
        (nodes_of near.words) (rank_of near.ranks) x buffer.old buffer.new result.stem result.turn }
{
    let way = write_leg(next, leave, enter, count, near, x, buffer, 0);
    let turn = write_stay(way.end, &mut buffer[way.at..]);
    Lengths { stem: way.at, turn }
}
