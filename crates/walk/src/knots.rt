// Where a loop can begin: at a pair to which all leads back that it leads to.
ghost use Rattle.std.specs.Prelude.{◌≡◌, ◌≤◌, ◌<◌, length};
ghost use Rattle.std.proofs.Math.Bool.{So};
ghost use Rattle.model.specs.Sets.{nodes_of};
ghost use Rattle.nearest.specs.Graph.{moves_of};
ghost use Rattle.nearest.specs.Ranking.{rank_of};
ghost use Rattle.walk.specs.Before.{Before};
ghost use Rattle.walk.specs.Knots.{Farther, Knotted};

use crate::legs::{alone, some_pair};
use nearest::Near;
use pairs::Pairs;
use sweeps::reach::{meet, without};

// For each state those that lead to it.
#[tactic(auto, using(nearest::proofs::MemberTurns::turn_low))]
fn before(next: &[u64]) -> Pairs
    ensures { Before next.now result.words }
{
    let mut words = [0u64; 64];
    for s in 0..64 {
        for t in words::members_in(words::entry(next, s)) {
            words[t] |= words::single(s);
        }
    }
    Pairs { words }
}

// A pair of `lost` that q leads to, one of those farthest from it where they are lost; q itself where it leads to none. It is looked for
// by the moves turned round.
fn farther(
    before: &[u64],
    leave: &[u64; 1024],
    enter: &[u64; 1024],
    count: usize,
    live: &[u64; 64],
    lost: Pairs,
    q: usize,
) -> usize
    requires { (count ≤ 64) × (length live.now ≡ 64) × (q < 4096) }
    ensures { Farther (moves_of before.now enter.now leave.now count) (nodes_of live.now) (nodes_of lost.words) q result }
{
    if lost.is_empty() {
        return q;
    }
    let here = alone(q);
    let ahead = nearest::nearest(before, enter, leave, count, live, &here.words);
    let away = meet(&lost.words, &ahead.words);
    if away.is_empty() {
        return q;
    }
    let last = meet(&away.words, &ahead.last);
    if last.is_empty() {
        return some_pair(&away.words);
    }
    some_pair(&last.words)
}

// The pair, and the ways back to it.
#[derive(Clone, Copy)]
pub struct Knot {
    pub at: usize,
    pub back: Near,
}

// Goes from x as far as it can, to where a pair leads that does not lead back, until there is none: less is reached from each.
pub fn find_knot(
    next: &[u64],
    leave: &[u64; 1024],
    enter: &[u64; 1024],
    count: usize,
    live: &[u64; 64],
    x: usize,
) -> Knot
    requires count_bound { (count ≤ 64) × (length live.now ≡ 64) }
    requires inside { So (nodes_of live.now x) }
    ensures { Knotted (moves_of next.now leave.now enter.now count) (nodes_of live.now)
        x result.at (nodes_of result.back.words) (rank_of result.back.ranks) }
{
    let earlier = before(next);
    let mut q = x;
    loop {
        let here = alone(q);
        let back = nearest::nearest(next, leave, enter, count, live, &here.words);
        let lost = without(live, &back.words);
        let on = farther(&earlier.words, leave, enter, count, live, lost, q);
        if on == q {
            break Knot { at: q, back };
        }
        q = on;
    }
}
