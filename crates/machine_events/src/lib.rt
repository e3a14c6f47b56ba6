// Many events in a fixed machine, looked up one after another: for who keeps events and asks for all their lamps at once. An event is a byte.
#![tactic(auto)]

ghost use Rattle.std.specs.Prelude.{◌≡◌, ◌*◌, ◌≤◌, length};
ghost use Rattle.words.specs.Over.{over};
ghost use Rattle.machine_lookup.specs.Lookup.{looked_up};
ghost use Rattle.machine_lookup.specs.Shape.{rows_of};
ghost use Rattle.machine_events.specs.Through.{event_in, stopped, Says, through_to, through_of};
ghost use Rattle.machine_events.specs.Turns.{Wide};

use answers::{Kind, Refusal};
use event_log::{Event, Num};
use machine_lookup::{Stand, first_of, stand_at};

// Accepted where no event was refused, and else the refusal; how many were looked up; and the row behind them.
#[derive(Clone, Copy)]
pub struct Through {
    pub outcome: Result<(), Refusal>,
    pub done: usize,
    pub row: usize,
}

// The event of a byte: what is seen times 16, what is given times 2, and 1 for a restart.
fn event_of(byte: u8) -> Event
    ensures { result ≡ event_in byte }
{
    Event {
        num: Num::Expected,
        see: (byte / 16) as u16,
        val: (byte / 2 % 8) as u16,
        new: byte % 2 == 1,
    }
}

// How many rows so many bytes are; 0 where they are not whole rows, or more than 256.
#[tactic(auto, unfolding(machine_lookup::specs::Shape::rows_of))]
fn rows_of(bytes: usize, width: usize) -> usize
    requires { 1 ≤ width }
    ensures { result ≡ rows_of bytes width }
{
    let rows = bytes / width;
    if bytes % width == 0 && rows <= 256 {
        rows
    } else {
        0
    }
}

// A look-up where the width of the rows and their number are known: what is the same for all events is not worked out for each.
fn look_in(
    machine: &[u8],
    props: usize,
    width: usize,
    rows: usize,
    row: usize,
    event: Event,
) -> Result<Stand, Refusal>
    requires { Wide (length machine.now) props width rows }
    ensures { result ≡ looked_up machine.now props row event }
{
    if rows <= row {
        return Err(Refusal::at(Kind::Value, 0));
    }
    let first = first_of(event);
    if width <= first {
        return Err(Refusal::at(Kind::IllegalEvent, 0));
    }
    let cell = row * width + first + event.new as usize;
    stand_at(machine, width, rows, machine[cell])
}

// The loop. It stops at the first event that is refused.
fn turns(
    machine: &[u8],
    props: usize,
    width: usize,
    rows: usize,
    row: usize,
    events: &[u8],
    shown: &mut [u8],
) -> Through
    requires { Wide (length machine.now) props width rows × (length events.now * 2 ≤ length shown.old) }
    ensures { Says (through_to machine.now props row events.now (length events.now)) shown.old shown.new result }
{
    let mut at = row;
    for (n, &byte) in events.iter().enumerate() {
        match look_in(machine, props, width, rows, at, event_of(byte)) {
            Err(refusal) => {
                return Through {
                    outcome: Err(refusal),
                    done: n,
                    row: at,
                };
            }
            Ok(stand) => {
                at = stand.row;
                shown[n * 2] = stand.verdict;
                shown[n * 2 + 1] = stand.left;
            }
        }
    }
    Through {
        outcome: Ok(()),
        done: events.len(),
        row: at,
    }
}

// Nothing is looked up, and why.
fn refused(kind: Kind, row: usize) -> Through
    ensures { result ≡ (stopped row kind).through }
{
    Through {
        outcome: Err(Refusal::at(kind, 0)),
        done: 0,
        row,
    }
}

// Checks 1, 9 and 11. Then each event is answered as `look_up` answers it, from the row where the last one led, up to the first that is refused, and gets two
// bytes, its verdict's number and `left`. No other byte is written.
pub fn look_through(
    machine: &[u8],
    props: usize,
    row: usize,
    events: &[u8],
    shown: &mut [u8],
) -> Through
    ensures answer { result ≡ (through_of machine.now props row events.now (length shown.old)).through }
    ensures shown { shown.new ≡ over (through_of machine.now props row events.now (length shown.old)).shown shown.old }
{
    if props < 1 || 3 < props {
        return refused(Kind::Counts, row);
    }
    let width = columns::count(props) + 2;
    let rows = rows_of(machine.len(), width);
    if rows <= row {
        return refused(Kind::Value, row);
    }
    if shown.len() / 2 < events.len() {
        return refused(Kind::Room, row);
    }
    turns(machine, props, width, rows, row, events, shown)
}
