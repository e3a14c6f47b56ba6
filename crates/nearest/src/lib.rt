// The pairs that reach a goal within a set, each with a rank that falls along some move, down to 0 at the goal.
#![tactic(auto)]

ghost use Rattle.std.specs.Prelude.{◌≡◌, ℕ, ◌^◌, ◌≤◌, ◌<◌, length, ltb};
ghost use Rattle.std.specs.Int.Bits.{bit_and};
ghost use Rattle.moves.specs.Back.{pre_of};
ghost use Rattle.pairs.specs.Sets.{Words};
ghost use Rattle.graphs.specs.Rank.{Nearest};
ghost use Rattle.model.specs.Sets.{nodes_of};
ghost use Rattle.words.specs.Word.{only_of};
ghost use Rattle.leads.specs.Halves.{from_in, to_in};
ghost use Rattle.sweeps.specs.Sweeps.{without_set, movers_at, movers_of};
ghost use Rattle.nearest.specs.Graph.{moves_of, onward_at, onward_of};
ghost use Rattle.nearest.specs.Ranking.{rank_of, in_word, Marked};
ghost use Rattle.nearest.specs.Joining.{held_of};
ghost use Rattle.nearest.specs.Places.{OnlyAt};
ghost use Rattle.nearest.specs.Scan.{Lower};

use leads::halves::both;
use pairs::Pairs;
use std::array;
use sweeps::reach::{meet, without};

// Ranks stand at v * 64 + s for the pair of state s and valuation v, and count for the pairs of `words` alone. The pairs of `last`
// were found last; no contract speaks of them.
#[derive(Clone, Copy)]
pub struct Near {
    pub words: [u64; 64],
    pub last: [u64; 64],
    pub ranks: [u16; 4096],
}

// The valuations below count at which the set has pairs.
fn held_at(count: usize, set: &[u64; 64]) -> u64
    requires { count ≤ 64 }
    ensures { result ≡ held_of count set.now }
{
    set[..count].iter().enumerate().fold(
        0,
        |held, (v, word)| held | words::only(*word != 0, words::single(v)),
    )
}

// The states of `tried` with a move into the target; none is looked for where that is empty.
#[tactic(auto, using(crate::proofs::MemberTurns::turn_low))]
fn moving(next: &[u64], target: u64, tried: u64) -> u64
    ensures { result ≡ bit_and tried (pre_of next.now target) }
{
    let mut found: u64 = 0;
    for s in words::members_in(words::only(target != 0, tried)) {
        found |= words::only(words::entry(next, s) & target != 0, words::single(s));
    }
    found
}

// The members of `others` at v with a move into the front. Most words are empty, and a front has pairs at a few valuations only.
#[tactic(auto, using(crate::proofs::MemberTurns::turn_low))]
fn joining_at(
    next: &[u64],
    leave: &[u64; 1024],
    enter: &[u64; 1024],
    count: usize,
    front: &[u64; 64],
    held: u64,
    others: u64,
    v: usize,
) -> u64
    requires { (count ≤ 64) × (v < 64) × (held ≡ held_of count front.now) }
    ensures { result ≡ movers_at next.now leave.now enter.now count front.now others v }
{
    if others == 0 {
        return 0;
    }
    let mut found: u64 = 0;
    for w in words::members_in(held) {
        let target = front[w] & both(enter, w, v);
        let tried = words::without(others, found) & both(leave, v, w);
        found |= moving(next, target, tried);
    }
    found
}

// Those that join, and the valuations at which there are some.
#[derive(Clone, Copy)]
struct Joined {
    words: [u64; 64],
    held: u64,
}

// The pairs of `others` with a move into the front. They are looked for at the valuations of `places` alone: there are no others elsewhere.
#[tactic(auto, using(crate::proofs::MemberTurns::turn_low))]
fn joining(
    next: &[u64],
    leave: &[u64; 1024],
    enter: &[u64; 1024],
    count: usize,
    front: &[u64; 64],
    held: u64,
    others: &[u64; 64],
    places: u64,
) -> Joined
    requires { (count ≤ 64) × (held ≡ held_of count front.now) × (places < 2 ^ count) × OnlyAt count places others.now }
    ensures { (result.words ≡ movers_of next.now leave.now enter.now count front.now others.now)
        × (result.held ≡ held_of count result.words) }
{
    let mut words = [0u64; 64];
    let mut some: u64 = 0;
    for v in words::members_in(places) {
        let word = joining_at(next, leave, enter, count, front, held, others[v], v);
        words[v] = word;
        some |= words::only(word != 0, words::single(v));
    }
    Joined { words, held: some }
}

// The pairs of a word at v get the rank.
#[tactic(auto, using(crate::proofs::MemberTurns::turn_low))]
fn rank_word(ranks: &mut [u16; 4096], v: usize, word: u64, rank: u16)
    requires { (v < 64) × (length ranks.old ≡ 4096) }
    ensures { Marked (in_word v word) rank ranks.old ranks.new }
{
    for s in words::members_in(word) {
        ranks[v * 64 + s] = rank;
    }
}

// Those that join get the rank; all others keep theirs.
#[tactic(auto, using(crate::proofs::MemberTurns::turn_low))]
fn rank_all(ranks: &mut [u16; 4096], joining: &[u64; 64], held: u64, rank: u16)
    requires { (length ranks.old ≡ 4096) × OnlyAt 64 held joining.now }
    ensures { Marked (nodes_of joining.now) rank ranks.old ranks.new }
{
    for v in words::members_in(held) {
        rank_word(ranks, v, joining[v], rank);
    }
}

// Those that join are no longer among the others.
#[tactic(auto, using(crate::proofs::MemberTurns::turn_low))]
fn drop_all(others: &mut [u64; 64], joining: &[u64; 64], held: u64)
    requires { Words others.old × OnlyAt 64 held joining.now }
    ensures { others.new ≡ without_set others.old joining.now }
{
    for v in words::members_in(held) {
        others[v] = words::without(others[v], joining[v]);
    }
}

// The pairs of z that reach `goal` within z: sweep by sweep, those with a move into what joined last join it. A sweep goes over the
// valuations at which there is something to do, most often a few.
pub fn nearest(
    next: &[u64],
    leave: &[u64; 1024],
    enter: &[u64; 1024],
    count: usize,
    z: &[u64; 64],
    goal: &[u64; 64],
) -> Near
    requires { (count ≤ 64) × (length z.now ≡ 64) }
    ensures { Nearest 4096 (moves_of next.now leave.now enter.now count)
        (nodes_of z.now) (nodes_of goal.now) (nodes_of result.words) (rank_of result.ranks) }
{
    let mut front = meet(z, goal).words;
    let mut others = without(z, &front).words;
    let mut held = held_at(count, &front);
    let places = held_at(count, &others);
    let mut ranks = [0u16; 4096];
    let mut rank: u16 = 0;
    loop {
        let more = joining(next, leave, enter, count, &front, held, &others, places);
        if more.held == 0 {
            let words = without(z, &others).words;
            let last = front;
            break Near { words, last, ranks };
        }
        rank += 1;
        rank_all(&mut ranks, &more.words, more.held, rank);
        drop_all(&mut others, &more.words, more.held);
        held = more.held;
        front = more.words;
    }
}

// The states at w to which state s has a move at v. Beyond count there are none.
fn onward_at(
    next: &[u64],
    leave: &[u64; 1024],
    enter: &[u64; 1024],
    count: usize,
    s: usize,
    v: usize,
    w: usize,
) -> u64
    requires { (s < 64) × (v < 64) × (w < 64) }
    ensures { result ≡ only_of (ltb w count) (onward_at next.now (from_in leave.now) (to_in enter.now) s v w) }
{
    if w >= count {
        return 0;
    }
    let leaves = words::has(both(leave, v, w), s);
    let enters = both(enter, w, v);
    words::only(leaves, words::entry(next, s) & enters)
}

// The pairs of the set to which x has a move.
pub fn onward(
    next: &[u64],
    leave: &[u64; 1024],
    enter: &[u64; 1024],
    count: usize,
    set: &[u64; 64],
    x: usize,
) -> Pairs
    requires { (count ≤ 64) × (x < 4096) }
    ensures { result.words ≡ onward_of next.now (from_in leave.now) (to_in enter.now) count set.now x }
{
    Pairs {
        words: array::from_fn(|w| set[w] & onward_at(next, leave, enter, count, x % 64, x / 64, w)),
    }
}

// A pair of the set whose rank is below the limit, where there is one.
#[tactic(auto, using(crate::proofs::MemberTurns::turn_low))]
pub fn lower(set: &[u64; 64], ranks: &[u16; 4096], limit: u16) -> usize
    requires { (y : ℕ) × Lower set.now ranks.now limit y }
    ensures { Lower set.now ranks.now limit result }
{
    for (w, &word) in set.iter().enumerate() {
        for s in words::members_in(word) {
            let y = w * 64 + s;
            if ranks[y] < limit {
                return y;
            }
        }
    }
    0
}
