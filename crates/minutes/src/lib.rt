// A day for the minutes: the texts of a table, a rule and a log, and the day sheet of the log, from the empty one on.
#![tactic(auto)]

ghost use Rattle.std.specs.Prelude.{◌≡◌, Ok};
ghost use Rattle.text.specs.Number.{width_of};
ghost use Rattle.event_log.specs.Read.{log_read};
ghost use Rattle.opened.specs.Lent.{Lent};
ghost use Rattle.minutes.specs.Minutes.{at_line, minutes_in, minutes_of, no_minutes};

use answers::Refusal;
use day_log::note_log;
use opened::{Opened, open_texts};
use stretches::DaySheet;

// Accepted, and the sheet of the whole day; or why not. Beside an event's refusal is the sheet behind the events before it, and beside any other the empty one.
#[derive(Clone, Copy)]
pub struct Minutes {
    pub outcome: Result<(), Refusal>,
    pub sheet: DaySheet,
}

impl Minutes {
    fn refused(refusal: Refusal) -> Self
        ensures { result ≡ no_minutes refusal }
    {
        Minutes {
            outcome: Err(refusal),
            sheet: DaySheet::empty(),
        }
    }
}

// Refusals 3, 2; 4 to 8; 12; then an event's 10, 16 or 23, at the offset of its line.
pub fn note_texts(table: &[u8], rule: &[u8], log: &[u8]) -> Minutes
    ensures { result ≡ minutes_of table.now rule.now log.now }
{
    let opened = open_texts(table, rule);
    match opened.outcome {
        Err(refusal) => Minutes::refused(refusal),
        Ok(()) => with_opened(opened, log),
    }
}

// The form of the log, behind a table and a rule that were accepted.
fn with_opened(opened: Opened, log: &[u8]) -> Minutes
    requires { Lent opened.table }
    ensures { result ≡ minutes_in (log_read (width_of opened.table.plant.props) log.now).outcome opened log.now }
{
    match event_log::read_log(log, opened.table.plant.props).outcome {
        Err(refusal) => Minutes::refused(refusal),
        Ok(()) => note_lines(opened, log),
    }
}

// Each line noted. The call on a log names no place, since it does not know of texts: here it is the offset of the line.
fn note_lines(opened: Opened, log: &[u8]) -> Minutes
    requires { Lent opened.table }
    ensures { result ≡ minutes_in (Ok tt) opened log.now }
{
    let table = opened.table;
    let plant = table.plant;
    let day = DaySheet::empty();
    let went = note_log(
        plant,
        &table.fair[..plant.just],
        &table.label[..plant.states],
        &table.next[..plant.states],
        opened.rule,
        opened.live,
        opened.monitor,
        day,
        log,
    );
    let offset = went.done * event_log::line_bytes(log, plant.props);
    Minutes {
        outcome: at_line(went.outcome, offset),
        sheet: went.sheet,
    }
}

fn at_line(outcome: Result<(), Refusal>, offset: usize) -> Result<(), Refusal>
    ensures { result ≡ at_line offset outcome }
{
    match outcome {
        Ok(()) => Ok(()),
        Err(refusal) => Err(Refusal::at(refusal.kind, offset)),
    }
}
