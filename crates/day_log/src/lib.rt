// The day of a whole log: each line noted, from a monitor and a sheet on, up to the first event that is refused.
#![tactic(auto)]

ghost use Rattle.std.specs.Prelude.{◌≡◌};
ghost use Rattle.day_log.specs.Day.{day_of};

use answers::Refusal;
use day_sheet::note;
use pairs::Pairs;
use plant::Plant;
use sides::Monitor;
use stretches::DaySheet;
use syntax::Rule;

// Accepted where no event was refused, and else the refusal; how many lines were taken; and the monitor and the sheet behind them.
#[derive(Clone, Copy)]
pub struct DayWent {
    pub outcome: Result<(), Refusal>,
    pub done: usize,
    pub monitor: Monitor,
    pub sheet: DaySheet,
}

// The form of the text is not checked here, and the place of a refusal is 0: who knows of files puts the line's offset there (minutes).
pub fn note_log(
    plant: Plant,
    fair: &[u64],
    label: &[u16],
    next: &[u64],
    rule: Rule,
    live: Pairs,
    monitor: Monitor,
    sheet: DaySheet,
    text: &[u8],
) -> DayWent
    ensures { result ≡ day_of plant fair.now label.now next.now rule live monitor sheet text.now }
{
    let mut now = monitor;
    let mut day = sheet;
    let lines = text.len() / event_log::line_bytes(text, plant.props);
    for n in 0..lines {
        let event = event_log::event_at(text, n, plant.props);
        let noted = note(plant, fair, label, next, rule, live, now, day, event);
        match noted.answer {
            Err(refusal) => {
                return DayWent {
                    outcome: Err(refusal),
                    done: n,
                    monitor: now,
                    sheet: day,
                };
            }
            Ok(_) => {
                now = noted.monitor;
                day = noted.sheet;
            }
        }
    }
    DayWent {
        outcome: Ok(()),
        done: lines,
        monitor: now,
        sheet: day,
    }
}
