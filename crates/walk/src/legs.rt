// A stretch of the walk: down the ranks, written state by state.
ghost use Rattle.std.specs.Prelude.{◌≡◌, ℕ, ◌+◌, ◌≤◌, ◌<◌, length};
ghost use Rattle.std.proofs.Math.Bool.{So};
ghost use Rattle.graphs.specs.Walk.{Meets};
ghost use Rattle.model.specs.Sets.{nodes_of};
ghost use Rattle.nearest.specs.Graph.{moves_of};
ghost use Rattle.nearest.specs.Ranking.{rank_of};
ghost use Rattle.walk.specs.Ways.{alone_of, Some, Slope, Downhill};
ghost use Rattle.walk.specs.Legs.{Led, Way};

use nearest::Near;
use pairs::Pairs;
use sweeps::reach::meet;

// A pair of the set, which has one.
pub fn some_pair(set: &[u64; 64]) -> usize
    requires { (y : ℕ) × Some set.now y }
    ensures { Some set.now result }
{
    let ranks = [0u16; 4096];
    nearest::lower(set, &ranks, 1)
}

// A pair of both sets, which have one.
pub fn common_pair(some: &[u64; 64], others: &[u64; 64]) -> usize
    requires { (length others.now ≡ 64) × ((y : ℕ) × (So (nodes_of some.now y) × So (nodes_of others.now y))) }
    ensures { Some some.now result × So (nodes_of others.now result) }
{
    let both = meet(some, others);
    some_pair(&both.words)
}

// The set of x alone.
#[tactic(auto, unfolding(crate::specs::Ways::alone_of))]
pub fn alone(x: usize) -> Pairs
    requires { x < 4096 }
    ensures { result.words ≡ alone_of x }
{
    let mut words = [0u64; 64];
    words[x / 64] = words::single(x % 64);
    Pairs { words }
}

// A pair with a lower rank to which x has a move.
fn downhill<'a>(
    next: &[u64],
    leave: &[u64; 1024],
    enter: &[u64; 1024],
    count: usize,
    words: &'a [u64; 64],
    ranks: &'a [u16; 4096],
    x: usize,
) -> usize
    requires count_bound { (count ≤ 64) × (x < 4096) }
    requires slope { Slope (moves_of next.now leave.now enter.now count) (nodes_of words.now) (rank_of ranks.now) }
    requires above { So (nodes_of words.now x) × (0 < rank_of ranks.now x) }
    ensures { Downhill (moves_of next.now leave.now enter.now count)
        (nodes_of words.now) (rank_of ranks.now) x result }
{
    let ways = nearest::onward(next, leave, enter, count, words, x);
    nearest::lower(&ways.words, ranks, ranks[x])
}

// Where a stretch of the walk ends, and the place behind its last byte.
#[derive(Clone, Copy)]
pub struct Leg {
    pub end: usize,
    pub at: usize,
}

// Writes the states on the way from x down to rank 0, the last one left out, from place at on.
pub fn write_leg(
    next: &[u64],
    leave: &[u64; 1024],
    enter: &[u64; 1024],
    count: usize,
    near: Near,
    x: usize,
    out: &mut [u8],
    at: usize,
) -> Leg
    requires count_bound { (count ≤ 64) × (x < 4096) × (at + rank_of near.ranks x ≤ length out.old) }
    requires slope { Slope (moves_of next.now leave.now enter.now count) (nodes_of near.words) (rank_of near.ranks) }
    requires inside { So (nodes_of near.words x) }
    ensures { Led (moves_of next.now leave.now enter.now count)
        (nodes_of near.words) (rank_of near.ranks) x result.end out.old out.new at result.at }
{
    let mut y = x;
    let mut i = at;
    while 0 < near.ranks[y] {
        out[i] = (y % 64) as u8;
        y = downhill(next, leave, enter, count, &near.words, &near.ranks, y);
        i += 1;
    }
    Leg { end: y, at: i }
}

// Writes the way from x to a pair of the goal, from place at on. Where x is one, nothing is looked for.
pub fn write_way(
    next: &[u64],
    leave: &[u64; 1024],
    enter: &[u64; 1024],
    count: usize,
    live: &[u64; 64],
    goal: &[u64; 64],
    x: usize,
    out: &mut [u8],
    at: usize,
) -> Leg
    requires count_bound { (count ≤ 64) × (x < 4096) × (length live.now ≡ 64) × (at + 4095 ≤ length out.old) }
    requires inside { So (nodes_of live.now x) }
    requires reaches { Meets (moves_of next.now leave.now enter.now count) (nodes_of live.now) (nodes_of goal.now) x }
    ensures { Way (moves_of next.now leave.now enter.now count)
        (nodes_of live.now) (nodes_of goal.now) x result.end out.old out.new at result.at }
{
    if words::has(goal[x / 64], x % 64) {
        return Leg { end: x, at };
    }
    let near = nearest::nearest(next, leave, enter, count, live, goal);
    write_leg(next, leave, enter, count, near, x, out, at)
}
