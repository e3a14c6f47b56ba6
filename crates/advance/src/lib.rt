// One event more, with all that a rule says lent, and nothing checked: what the monitor does behind its checks, and a loop over many events
// in each turn.
#![tactic(auto)]

ghost use Rattle.std.specs.Prelude.{◌≡◌, ◌≤◌, length};
ghost use Rattle.sides.specs.Held.{model_of, lamp_in};
ghost use Rattle.sides.specs.Sides.{advanced_by, caught_up_by, came_by};

use answers::{Lamp, Verdict};
use event_log::Event;
use sides::{Monitor, kept, moved, restarted};

// At the first event nothing moves, and its restart flag is not looked at.
#[tactic(auto, using(sides::proofs::SidesRight::advanced_new, sides::proofs::SidesRight::advanced_next, sides::proofs::SidesRight::advanced_first))]
pub fn advance<'a>(
    label: &[u16],
    next: &[u64],
    leave: &'a [u64; 1024],
    enter: &'a [u64; 1024],
    holds: &'a [u64; 64],
    count: usize,
    live: &[u64; 64],
    monitor: Monitor,
    event: Event,
) -> Monitor
    requires { (length label.now ≤ 64) × (count ≤ 64) }
    ensures { result ≡ advanced_by label.now next.now leave.now enter.now holds.now count live.now monitor event }
{
    let agree = labels::agreeing(label, event.see, event.val);
    if !monitor.seen {
        kept(monitor, live, agree)
    } else if event.new {
        restarted(next, leave, enter, holds, count, live, monitor, agree)
    } else {
        moved(next, leave, enter, count, live, monitor, agree)
    }
}

// So many events that were not received: nothing is seen of them, and they restart nothing, so both sides move.
#[tactic(auto, unfolding(sides::specs::Sides::caught_up_by))]
pub fn catch_up<'a>(
    label: &[u16],
    next: &[u64],
    leave: &'a [u64; 1024],
    enter: &'a [u64; 1024],
    count: usize,
    live: &[u64; 64],
    monitor: Monitor,
    missing: u64,
) -> Monitor
    requires { (length label.now ≤ 64) × (count ≤ 64) }
    ensures { result ≡ caught_up_by label.now next.now leave.now enter.now count live.now monitor missing }
{
    let agree = labels::agreeing(label, 0, 0);
    let mut now = monitor;
    for k in 0..missing {
        now = moved(next, leave, enter, count, live, now, agree);
    }
    now
}

// An event, behind so many that are missing before it. Mostly none is, and then nothing but the event is looked at.
#[tactic(auto, using(sides::proofs::SidesRight::came_at_once, sides::proofs::SidesRight::came_behind))]
pub fn take<'a>(
    label: &[u16],
    next: &[u64],
    leave: &'a [u64; 1024],
    enter: &'a [u64; 1024],
    holds: &'a [u64; 64],
    count: usize,
    live: &[u64; 64],
    monitor: Monitor,
    gap: u64,
    event: Event,
) -> Monitor
    requires { (length label.now ≤ 64) × (count ≤ 64) }
    ensures { result ≡ came_by label.now next.now leave.now enter.now holds.now count live.now monitor gap event }
{
    if gap == 0 {
        return advance(
            label, next, leave, enter, holds, count, live, monitor, event,
        );
    }
    let now = catch_up(label, next, leave, enter, count, live, monitor, gap);
    advance(label, next, leave, enter, holds, count, live, now, event)
}

// What the lamp shows. Both sets' states are united to one word, and its ones are counted at once.
pub fn lamp(monitor: Monitor) -> Lamp
    ensures { result ≡ lamp_in (model_of monitor) }
{
    let kept = monitor.keeps.states();
    let broken = monitor.breaks.states();
    Lamp {
        verdict: Verdict::of(kept != 0, broken != 0),
        left: words::count(kept | broken),
    }
}
