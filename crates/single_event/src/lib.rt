// A monitor opened, or with one event more, for a rule that is handed in: of what the rule says, only what the case needs is worked out.
#![tactic(auto)]

ghost use Rattle.std.specs.Prelude.{◌≡◌, false, ◌<◌, ◌^◌};
ghost use Rattle.truth.specs.Ready.{Ready};
ghost use Rattle.ways.specs.Ways.{ways_of};
ghost use Rattle.event_numbers.specs.Numbers.{number_of};
ghost use Rattle.sides.specs.Sides.{opened_by, moved_in, restarted_in, caught_up_in, came_in, taken_in};

use advance::catch_up;
use event_log::Event;
use event_numbers::{missing, number_of};
use pairs::Pairs;
use sides::{Monitor, opening};
use syntax::Rule;

// The opening has no use for moves, so only where the rule holds is worked out for it.
#[tactic(auto, unfolding(ways::specs::Ways::ways_of))]
pub fn opened(start: u64, label: &[u16], rule: Rule, live: Pairs) -> Monitor
    requires { Ready label.now rule }
    ensures { result ≡ opened_by start (ways_of label.now rule).holds live.words }
{
    let holds = truth::tables::holds_of(label, rule);
    opening::opened(start, &holds.words, &live.words)
}

// A move, behind those that are missing.
#[tactic(auto, using(ways::specs::Ways::few_ways))]
fn moved(
    label: &[u16],
    next: &[u64],
    rule: Rule,
    live: Pairs,
    monitor: Monitor,
    gap: u64,
    agree: u64,
) -> Monitor
    requires { Ready label.now rule }
    ensures { result ≡ moved_in next.now (ways_of label.now rule) live.words
        (caught_up_in label.now next.now (ways_of label.now rule) live.words monitor gap) agree }
{
    let ways = ways::move_ways_of(label, rule);
    let now = catch_up(
        label,
        next,
        &ways.leave,
        &ways.enter,
        ways.count,
        &live.words,
        monitor,
        gap,
    );
    sides::moved(
        next,
        &ways.leave,
        &ways.enter,
        ways.count,
        &live.words,
        now,
        agree,
    )
}

// A restart, behind those that are missing: what it asks of the rule has in it what a move asks.
#[tactic(auto, using(ways::specs::Ways::few_ways))]
fn restarted(
    label: &[u16],
    next: &[u64],
    rule: Rule,
    live: Pairs,
    monitor: Monitor,
    gap: u64,
    agree: u64,
) -> Monitor
    requires { Ready label.now rule }
    ensures { result ≡ restarted_in next.now (ways_of label.now rule) live.words
        (caught_up_in label.now next.now (ways_of label.now rule) live.words monitor gap) agree }
{
    let ways = ways::restart_ways_of(label, rule);
    let now = catch_up(
        label,
        next,
        &ways.moves.leave,
        &ways.moves.enter,
        ways.moves.count,
        &live.words,
        monitor,
        gap,
    );
    sides::restarted(
        next,
        &ways.moves.leave,
        &ways.moves.enter,
        &ways.holds,
        ways.moves.count,
        &live.words,
        now,
        agree,
    )
}

// The cases are those of `advance::advance`. Before the first event nothing is missing.
#[tactic(auto, using(sides::proofs::SidesRight::came_new, sides::proofs::SidesRight::came_next, sides::proofs::SidesRight::came_first))]
fn came(
    label: &[u16],
    next: &[u64],
    rule: Rule,
    live: Pairs,
    monitor: Monitor,
    gap: u64,
    event: Event,
) -> Monitor
    requires { Ready label.now rule × (monitor.seen ≡ false → gap ≡ 0) }
    ensures { result ≡ came_in label.now next.now (ways_of label.now rule) live.words monitor gap event }
{
    let agree = labels::agreeing(label, event.see, event.val);
    if !monitor.seen {
        sides::kept(monitor, &live.words, agree)
    } else if event.new {
        restarted(label, next, rule, live, monitor, gap, agree)
    } else {
        moved(label, next, rule, live, monitor, gap, agree)
    }
}

// An event with its number, behind which the next one is expected.
pub fn stepped(
    label: &[u16],
    next: &[u64],
    rule: Rule,
    live: Pairs,
    monitor: Monitor,
    event: Event,
) -> Monitor
    requires { Ready label.now rule × (number_of event.num monitor.expected < 2 ^ 32) }
    ensures { result ≡ taken_in label.now next.now (ways_of label.now rule) live.words monitor event }
{
    let number = number_of(event.num, monitor.expected);
    let gap = missing(monitor.seen, monitor.expected, number);
    let held = Monitor {
        expected: number + 1,
        ..monitor
    };
    came(label, next, rule, live, held, gap, event)
}
