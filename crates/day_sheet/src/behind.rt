// The sheet behind an event that a step accepted. What the rule says is worked out once, and where no number is missing not at all.
ghost use Rattle.std.specs.Prelude.{◌≡◌, ◌+◌, ◌^◌, ◌≤◌, ◌<◌, length};
ghost use Rattle.truth.specs.Ready.{Ready};
ghost use Rattle.ways.specs.Ways.{ways_of};
ghost use Rattle.day_sheet.specs.Code.{unseen_sheet, sheet_in};

use advance::{advance, lamp};
use answers::Verdict;
use event_log::Event;
use event_numbers::{missing, number_of};
use pairs::Pairs;
use sides::Monitor;
use stretches::{DaySheet, noted};
use syntax::Rule;
use ways::Ways;

// So many events noted that were not received, from a number on. They begin no stretch but a sheet's first.
fn unseen(
    label: &[u16],
    next: &[u64],
    ways: Ways,
    live: Pairs,
    monitor: Monitor,
    sheet: DaySheet,
    from: u64,
    gap: u64,
) -> DaySheet
    requires { (length label.now ≤ 64) × (ways.count ≤ 64) × (from + gap < 2 ^ 64) }
    ensures { result ≡ unseen_sheet label.now next.now ways live monitor sheet from gap }
{
    let mut now = monitor;
    let mut day = sheet;
    for k in 0..gap {
        now = advance(
            label,
            next,
            &ways.leave,
            &ways.enter,
            &ways.holds,
            ways.count,
            &live.words,
            now,
            Event::NOTHING,
        );
        day = noted(day, false, from + k, lamp(now).verdict);
    }
    day
}

// The same, by what the rule says. Mostly nothing is missing.
fn caught_up(
    label: &[u16],
    next: &[u64],
    rule: Rule,
    live: Pairs,
    monitor: Monitor,
    sheet: DaySheet,
    from: u64,
    gap: u64,
) -> DaySheet
    requires { Ready label.now rule × (from + gap < 2 ^ 64) }
    ensures { result ≡ unseen_sheet label.now next.now (ways_of label.now rule) live monitor sheet from gap }
{
    if gap == 0 {
        return sheet;
    }
    let ways = ways::ways_of(label, rule);
    unseen(label, next, ways, live, monitor, sheet, from, gap)
}

// The events whose numbers are missing, and then the event itself, behind which the lamp shows a verdict.
pub fn sheet_after(
    label: &[u16],
    next: &[u64],
    rule: Rule,
    live: Pairs,
    monitor: Monitor,
    sheet: DaySheet,
    event: Event,
    verdict: Verdict,
) -> DaySheet
    requires { Ready label.now rule }
    ensures { result ≡ sheet_in label.now next.now (ways_of label.now rule) live monitor sheet event verdict }
{
    let number = number_of(event.num, monitor.expected);
    let gap = missing(monitor.seen, monitor.expected, number);
    let day = caught_up(label, next, rule, live, monitor, sheet, number - gap, gap);
    noted(day, event.new || !monitor.seen, number, verdict)
}
