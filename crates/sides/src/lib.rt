// Where runs can be after one more event: where they were, or where moves lead, by the old split or a new one.
#![tactic(auto)]

pub mod opening;

ghost use Rattle.std.specs.Prelude.{◌≡◌, ◌≤◌};
ghost use Rattle.sides.specs.Sides.{cut_of, kept_of, moved_by, restarted_by};

use leads::images::image;
use opening::split;
use pairs::Pairs;
use std::array;

// Whether an event came, the pairs of the runs that keep the rule and of those that break it, and the number that the next event is expected
// to have.
#[derive(Clone, Copy)]
pub struct Monitor {
    pub seen: bool,
    pub keeps: Pairs,
    pub breaks: Pairs,
    pub expected: u64,
}

impl Monitor {
    pub const NONE: Monitor = Monitor {
        seen: false,
        keeps: Pairs::EMPTY,
        breaks: Pairs::EMPTY,
        expected: 0,
    };
}

// Of the pairs held, the live ones with states of `agree`.
fn cut(held: &[u64; 64], live: &[u64; 64], agree: u64) -> Pairs
    ensures { result.words ≡ cut_of held.now live.now agree }
{
    Pairs {
        words: array::from_fn(|v| live[v] & agree & held[v]),
    }
}

// No move: both sets cut.
#[tactic(auto, unfolding(crate::specs::Sides::kept_of))]
pub fn kept(monitor: Monitor, live: &[u64; 64], agree: u64) -> Monitor
    ensures { result ≡ kept_of monitor live.now agree }
{
    Monitor {
        seen: true,
        keeps: cut(&monitor.keeps.words, live, agree),
        breaks: cut(&monitor.breaks.words, live, agree),
        expected: monitor.expected,
    }
}

// A move: the image of both sets.
#[tactic(auto, unfolding(crate::specs::Sides::moved_by))]
pub fn moved<'a>(
    next: &[u64],
    leave: &'a [u64; 1024],
    enter: &'a [u64; 1024],
    count: usize,
    live: &[u64; 64],
    monitor: Monitor,
    agree: u64,
) -> Monitor
    requires { count ≤ 64 }
    ensures { result ≡ moved_by next.now leave.now enter.now count live.now monitor agree }
{
    Monitor {
        seen: true,
        keeps: image(next, leave, enter, count, &monitor.keeps.words, live, agree),
        breaks: image(
            next,
            leave,
            enter,
            count,
            &monitor.breaks.words,
            live,
            agree,
        ),
        expected: monitor.expected,
    }
}

// A restart: the image of both sets as one, split anew by where the rule holds. What is reached agrees already, so the split cuts no more away.
#[tactic(auto, unfolding(crate::specs::Sides::restarted_by))]
pub fn restarted<'a>(
    next: &[u64],
    leave: &'a [u64; 1024],
    enter: &'a [u64; 1024],
    holds: &'a [u64; 64],
    count: usize,
    live: &[u64; 64],
    monitor: Monitor,
    agree: u64,
) -> Monitor
    requires { count ≤ 64 }
    ensures { result ≡ restarted_by next.now leave.now enter.now holds.now count live.now monitor agree }
{
    let both = monitor.keeps.join(monitor.breaks);
    let reached = image(next, leave, enter, count, &both.words, live, agree);
    Monitor {
        seen: true,
        keeps: split(&reached.words, agree, holds, true),
        breaks: split(&reached.words, agree, holds, false),
        expected: monitor.expected,
    }
}
