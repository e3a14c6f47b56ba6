// An event noted beside the log: the monitor's step, and the day sheet with all that the event brings, the events that were not received among it.
#![tactic(auto)]

mod behind;

ghost use Rattle.std.specs.Prelude.{◌≡◌};
ghost use Rattle.truth.specs.Ready.{Ready};
ghost use Rattle.ways.specs.Ways.{ways_of};
ghost use Rattle.checks.specs.Checks.{input_outcome};
ghost use Rattle.day_sheet.specs.Calls.{Shows, overfull_by, note_by, is_full, noted_of};
ghost use Rattle.day_sheet.specs.Code.{sheet_in};

use answers::{Answer, Kind, Refusal};
use behind::sheet_after;
use event_log::Event;
use monitor::Watched;
use pairs::Pairs;
use plant::Plant;
use sides::Monitor;
pub use stretches::DaySheet;
use syntax::Rule;

// The answer, and beside it the monitor and the sheet. With a refusal they are those handed in.
#[derive(Clone, Copy)]
pub struct Noted {
    pub answer: Answer,
    pub monitor: Monitor,
    pub sheet: DaySheet,
}

// Why a sheet of more stretches than there can be is refused: by what is wrong with the table or the rule, and else by 9.
fn overfull(plant: Plant, fair: &[u64], label: &[u16], next: &[u64], rule: Rule) -> Refusal
    ensures { result ≡ overfull_by (input_outcome plant fair.now label.now next.now rule) }
{
    match checks::check_input(plant, fair, label, next, rule) {
        Err(refusal) => refusal,
        Ok(()) => Refusal::at(Kind::Value, 0),
    }
}

// Whether a sheet has no room for the stretch that an event begins: a restart does, and the first event of a monitor.
#[tactic(auto, unfolding(crate::specs::Calls::is_full))]
fn is_full(sheet: DaySheet, seen: bool, new: bool) -> bool
    ensures { result ≡ is_full sheet seen new }
{
    sheet.count == DaySheet::STRETCHES && (new || !seen)
}

// Behind a step: where it was accepted, there must be room for the stretch that its event begins, and all that the event brings is noted.
fn after_step(
    label: &[u16],
    next: &[u64],
    rule: Rule,
    live: Pairs,
    monitor: Monitor,
    sheet: DaySheet,
    event: Event,
    stepped: Watched,
) -> Noted
    requires { Shows stepped.answer → Ready label.now rule }
    ensures { result ≡ note_by stepped stepped.answer (is_full sheet monitor.seen event.new) monitor sheet
        (sheet_in label.now next.now (ways_of label.now rule) live monitor sheet event) }
{
    match stepped.answer {
        Err(refusal) => Noted {
            answer: Err(refusal),
            monitor,
            sheet,
        },
        Ok(lamp) => {
            if is_full(sheet, monitor.seen, event.new) {
                let refusal = Refusal::at(Kind::Stretches, 0);
                return Noted {
                    answer: Err(refusal),
                    monitor,
                    sheet,
                };
            }
            Noted {
                answer: Ok(lamp),
                monitor: stepped.monitor,
                sheet: sheet_after(label, next, rule, live, monitor, sheet, event, lamp.verdict),
            }
        }
    }
}

// One event more for a monitor and its day sheet: what `monitor::step` answers, but that a sheet of more than 64 stretches is refused by 9, and
// by 23 the event that would begin a stretch more than that.
pub fn note(
    plant: Plant,
    fair: &[u64],
    label: &[u16],
    next: &[u64],
    rule: Rule,
    live: Pairs,
    monitor: Monitor,
    sheet: DaySheet,
    event: Event,
) -> Noted
    ensures { result ≡ noted_of plant fair.now label.now next.now rule live monitor sheet event }
{
    if DaySheet::STRETCHES < sheet.count {
        let refusal = overfull(plant, fair, label, next, rule);
        return Noted {
            answer: Err(refusal),
            monitor,
            sheet,
        };
    }
    let stepped = monitor::step(plant, fair, label, next, rule, live, monitor, event);
    after_step(label, next, rule, live, monitor, sheet, event, stepped)
}
