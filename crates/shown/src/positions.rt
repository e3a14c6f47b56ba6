// Where the events of a log stand among the positions of a run, with those that were not received put in: an event with a number is as far behind the first as
// its number is, and without numbers none is missing.
ghost use Rattle.std.specs.Prelude.{◌≡◌, ◌<◌, length};
ghost use Rattle.text.specs.Number.{width_of};
ghost use Rattle.event_log.specs.Read.{event_at, whole_lines};
ghost use Rattle.shown.specs.Positions.{behind_of, position_of, later_of, mark_of};
ghost use Rattle.shown.specs.Tests.{agree_of};

use crate::agree_at;
use event_log::Num;

// How far a number is behind the first event's.
fn behind(first: Num, number: u32) -> usize
    ensures { result ≡ behind_of first number }
{
    match first {
        Num::Expected => number as usize,
        Num::Given(begun) => { number.saturating_sub(begun) as usize }
    }
}

// The position of a line's event.
fn position(first: Num, num: Num, line: usize) -> usize
    ensures { result ≡ position_of first num line }
{
    match num {
        Num::Expected => line,
        Num::Given(number) => behind(first, number),
    }
}

// The position of a restart, and else the one so far.
fn later(restart: bool, at: usize, mark: usize) -> usize
    ensures { result ≡ later_of restart at mark }
{
    if restart { at } else { mark }
}

// The position at which the rule is judged: the last restart's, and the first where there is none.
pub fn mark_of(log: &[u8], props: usize) -> usize
    ensures { result ≡ mark_of (event_at (width_of props) log.now) (whole_lines (width_of props) log.now) }
{
    let lines = log.len() / event_log::line_bytes(log, props);
    let first = event_log::event_at(log, 0, props).num;
    (0..lines).fold(0, |mark, n| {
        let event = event_log::event_at(log, n, props);
        later(event.new, position(first, event.num, n), mark)
    })
}

// The run agrees with each event at its position, round the loop where there are more positions than states.
pub fn agree(label: &[u16], run: &[u8], stem: usize, log: &[u8], props: usize) -> bool
    requires { stem < length run.now }
    ensures { result ≡ agree_of label.now run.now stem (event_at (width_of props) log.now) (whole_lines (width_of props) log.now) }
{
    let lines = log.len() / event_log::line_bytes(log, props);
    let first = event_log::event_at(log, 0, props).num;
    (0..lines).all(|n| {
        let event = event_log::event_at(log, n, props);
        agree_at(
            label,
            run,
            stem,
            position(first, event.num, n),
            event.see,
            event.val,
        )
    })
}
