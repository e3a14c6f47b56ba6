// An event taken by a monitor that is changed where it is lent. By value a monitor is copied at each call, which was a quarter of an event where few pairs
// are held.
ghost use Rattle.std.specs.Prelude.{◌≡◌, true, false, ◌^◌, ◌≤◌, ◌<◌, length};
ghost use Rattle.moves.specs.Image.{image_of};
ghost use Rattle.leads.specs.Halves.{from_in, to_in};
ghost use Rattle.event_numbers.specs.Numbers.{number_of};
ghost use Rattle.sides.specs.Held.{model_of, lamp_in};
ghost use Rattle.sides.specs.Sides.{sides_of, split_of, reached_by, came_by, taken_in};

use advance::take;
use answers::{Lamp, Verdict};
use event_log::Event;
use event_numbers::{missing, number_of};
use leads::images::image;
use pairs::Pairs;
use sides::Monitor;
use sides::opening::split;
use ways::Ways;

// Where a set of pairs leads.
fn led(next: &[u64], ways: &Ways, live: &[u64; 64], agree: u64, set: &[u64; 64]) -> Pairs
    requires { ways.now.count ≤ 64 }
    ensures { result.words ≡ image_of next.now set.now (from_in ways.now.leave) (to_in ways.now.enter) ways.now.count live.now agree }
{
    image(next, &ways.leave, &ways.enter, ways.count, set, live, agree)
}

// Both sets moved as one, and split anew by where the rule holds: a restart.
fn restart(next: &[u64], ways: &Ways, live: &[u64; 64], agree: u64, monitor: &mut Monitor)
    requires { ways.now.count ≤ 64 }
    ensures { monitor.new ≡ sides_of monitor.old.expected monitor.old.seen
        (split_of (reached_by next.now ways.now.leave ways.now.enter ways.now.count live.now monitor.old agree) agree ways.now.holds true)
        (split_of (reached_by next.now ways.now.leave ways.now.enter ways.now.count live.now monitor.old agree) agree ways.now.holds false) }
{
    let both = monitor.keeps.join(monitor.breaks);
    let reached = led(next, ways, live, agree, &both.words);
    monitor.keeps = split(&reached.words, agree, &ways.holds, true);
    monitor.breaks = split(&reached.words, agree, &ways.holds, false);
}

// Any event, by value: what is then held is stored. It stands apart, since a function pays at its start for what it holds by value, and most events need none of it.
fn take_whole(
    label: &[u16],
    next: &[u64],
    ways: &Ways,
    live: &[u64; 64],
    gap: u64,
    event: Event,
    monitor: &mut Monitor,
)
    requires { (length label.now ≤ 64) × (ways.now.count ≤ 64) }
    ensures { monitor.new ≡ came_by label.now next.now ways.now.leave ways.now.enter ways.now.holds ways.now.count live.now monitor.old gap event }
{
    *monitor = take(
        label,
        next,
        &ways.leave,
        &ways.enter,
        &ways.holds,
        ways.count,
        live,
        *monitor,
        gap,
        event,
    );
}

// An event whose number is in turn, behind those that are missing before it; its number is answered. Mostly nothing is missing and it is not the first: then both
// sets move, at a restart as one.
pub fn take_lent(
    label: &[u16],
    next: &[u64],
    ways: &Ways,
    live: &[u64; 64],
    event: Event,
    monitor: &mut Monitor,
) -> u64
    requires { (length label.now ≤ 64) × (ways.now.count ≤ 64) × (number_of event.num monitor.old.expected < 2 ^ 32) }
    ensures number { result ≡ number_of event.num monitor.old.expected }
    ensures taken { monitor.new ≡ taken_in label.now next.now ways.now live.now monitor.old event }
{
    let number = number_of(event.num, monitor.expected);
    let gap = missing(monitor.seen, monitor.expected, number);
    monitor.expected = number + 1;
    if gap == 0 && monitor.seen {
        let agree = labels::agreeing(label, event.see, event.val);
        if event.new {
            restart(next, ways, live, agree, monitor);
            return number;
        }
        monitor.keeps = led(next, ways, live, agree, &monitor.keeps.words);
        monitor.breaks = led(next, ways, live, agree, &monitor.breaks.words);
        return number;
    }
    take_whole(label, next, ways, live, gap, event, monitor);
    number
}

// What the lamp shows of a monitor that is lent, as `advance::lamp` does.
#[tactic(auto, using(pairs::specs::Sets::left_ones), unfolding(model::specs::Monitor::left))]
pub fn lamp_of(monitor: &Monitor) -> Lamp
    ensures { result ≡ lamp_in (model_of monitor.now) }
{
    let kept = monitor.keeps.states();
    let broken = monitor.breaks.states();
    Lamp {
        verdict: Verdict::of(kept != 0, broken != 0),
        left: words::count(kept | broken),
    }
}
