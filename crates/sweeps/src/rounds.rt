// Rounds: what has no move goes, and then, goal by goal, what does not reach it; until a round changes nothing.
ghost use Rattle.std.specs.Prelude.{◌≡◌, ◌+◌, ◌≤◌, ◌<◌, length};
ghost use Rattle.sweeps.specs.Rounds.{every_of, settled_in, goal_of, round_of, settle_of, lasting_of};

use crate::movers::movers;
use crate::reach::reaching;
use pairs::Pairs;
use std::array;

// The same word at each valuation.
fn every(count: usize, word: u64) -> Pairs
    requires { count ≤ 64 }
    ensures { result.words ≡ every_of count word }
{
    Pairs {
        words: array::from_fn(|v| if v < count { word } else { 0 }),
    }
}

// The pairs that settle part k.
fn settled_pairs(count: usize, settled: &[u64; 384], k: usize) -> Pairs
    requires { (count ≤ 64) × (k < 6) }
    ensures { result.words ≡ settled_in count settled.now k }
{
    Pairs {
        words: array::from_fn(|v| if v < count { settled[v * 6 + k] } else { 0 }),
    }
}

// Goal g: first the fairness sets, then the parts.
#[tactic(auto, unfolding(crate::specs::Rounds::goal_of))]
pub fn goal(fair: &[u64], count: usize, settled: &[u64; 384], g: usize) -> Pairs
    requires { (count ≤ 64) × (g < length fair.now + 6) }
    ensures { result.words ≡ goal_of fair.now count settled.now g }
{
    if g < fair.len() {
        return every(count, fair[g]);
    }
    settled_pairs(count, settled, g - fair.len())
}

// One round.
fn round(
    fair: &[u64],
    next: &[u64],
    leave: &[u64; 1024],
    enter: &[u64; 1024],
    settled: &[u64; 384],
    parts: usize,
    all: Pairs,
) -> Pairs
    requires { (parts ≤ 6) × (length fair.now ≤ 4) }
    ensures { result.words ≡ round_of fair.now next.now leave.now enter.now settled.now parts all.words }
{
    let count = moves::valuations(parts);
    let start = movers(next, leave, enter, count, &all.words, &all.words);
    let goals = fair.len() + parts;
    (0..goals).fold(start, |set, g| {
        let wanted = goal(fair, count, settled, g);
        reaching(next, leave, enter, count, &set.words, &wanted.words)
    })
}

// Round after round, until nothing changes.
fn settle(
    fair: &[u64],
    next: &[u64],
    leave: &[u64; 1024],
    enter: &[u64; 1024],
    settled: &[u64; 384],
    parts: usize,
    all: Pairs,
) -> Pairs
    requires { (parts ≤ 6) × (length fair.now ≤ 4) }
    ensures { result.words ≡ settle_of fair.now next.now leave.now enter.now settled.now parts all.words }
{
    let mut set = all;
    loop {
        let less = round(fair, next, leave, enter, settled, parts, set);
        if less.same(set) {
            break set;
        }
        set = less;
    }
}

// From all pairs of the table, those from which every goal is met again and again.
#[tactic(auto, unfolding(crate::specs::Rounds::lasting_of))]
pub fn lasting<'a>(
    states: usize,
    fair: &[u64],
    next: &[u64],
    leave: &'a [u64; 1024],
    enter: &'a [u64; 1024],
    settled: &'a [u64; 384],
    parts: usize,
) -> Pairs
    requires { ((1 ≤ states) × (states ≤ 64)) × (parts ≤ 6) × (length fair.now ≤ 4) }
    ensures { result.words ≡ lasting_of fair.now next.now leave.now enter.now settled.now parts states }
{
    let all = every(moves::valuations(parts), words::all(states));
    settle(fair, next, leave, enter, settled, parts, all)
}
