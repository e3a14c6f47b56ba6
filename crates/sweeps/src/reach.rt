// Which pairs reach a goal.
ghost use Rattle.std.specs.Prelude.{◌≡◌, ◌≤◌};
ghost use Rattle.model.specs.LiveSet.{meet_of};
ghost use Rattle.sweeps.specs.Sweeps.{without_set, reaching_of};

use crate::movers::movers;
use pairs::Pairs;
use std::array;

// The pairs that are in both sets.
pub fn meet(a: &[u64; 64], b: &[u64; 64]) -> Pairs
    ensures { result.words ≡ meet_of a.now b.now }
{
    Pairs {
        words: array::from_fn(|v| a[v] & b[v]),
    }
}

// The pairs of a that are not in b.
pub fn without(a: &[u64; 64], b: &[u64; 64]) -> Pairs
    ensures { result.words ≡ without_set a.now b.now }
{
    Pairs {
        words: array::from_fn(|v| words::without(a[v], b[v])),
    }
}

// The pairs of `within` that reach the goal within it: sweeps, until nothing is added.
pub fn reaching(
    next: &[u64],
    leave: &[u64; 1024],
    enter: &[u64; 1024],
    count: usize,
    within: &[u64; 64],
    goal: &[u64; 64],
) -> Pairs
    requires { count ≤ 64 }
    ensures { result.words ≡ reaching_of next.now leave.now enter.now count within.now goal.now }
{
    let mut set = meet(within, goal);
    loop {
        let others = without(within, &set.words);
        let more = movers(next, leave, enter, count, &set.words, &others.words);
        if more.is_empty() {
            break set;
        }
        set = set.join(more);
    }
}
