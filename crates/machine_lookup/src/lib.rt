// A fixed machine in use: a row and an event give the next row, and what the lamp shows there. Any bytes may be handed in; what is read of them is checked.
#![tactic(auto)]

ghost use Rattle.std.specs.Prelude.{leb, ◌&&◌, ◌≡◌, ◌/◌, ◌<◌, ◌≤◌, length, get_or};
ghost use Rattle.machine_lookup.specs.Lookup.{stand_at, looked_up};
ghost use Rattle.machine_lookup.specs.Shape.{rows_by, shape_of, firsts, first_of};

use answers::{Kind, Refusal};
use event_log::Event;

// A row, and what the lamp shows there: the verdict's number, and in how many states the plant can be.
#[derive(Clone, Copy)]
pub struct Stand {
    pub row: usize,
    pub verdict: u8,
    pub left: u8,
}

// How wide a row is, and how many there are.
#[derive(Clone, Copy)]
struct Shape {
    width: usize,
    rows: usize,
}

// How many rows so many bytes are; 0 where they are not whole rows, or more than 256. No division is made: `share` is 2^32 by the width, rounded up, and bytes
// times that is rows times 2^32 and next to nothing where they are whole, and at least a share more where they are not.
fn rows_in(bytes: usize, width: usize, share: usize) -> usize
    requires { (width ≤ 56) × (share ≤ 536870912) }
    ensures { result ≡ rows_by bytes width share }
{
    if width * 256 < bytes {
        return 0;
    }
    let shares = bytes * share;
    if share <= shares % 4294967296 {
        return 0;
    }
    shares / 4294967296
}

// The shape that so many bytes have for so many propositions. No machine is 0 wide.
fn shape_of(bytes: usize, props: usize) -> Shape
    ensures { result ≡ shape_of bytes props }
{
    match props {
        1 => Shape {
            width: 8,
            rows: rows_in(bytes, 8, 536870912),
        },
        2 => Shape {
            width: 20,
            rows: rows_in(bytes, 20, 214748365),
        },
        3 => Shape {
            width: 56,
            rows: rows_in(bytes, 56, 76695845),
        },
        _ => Shape { width: 0, rows: 0 },
    }
}

// Where in a row the two cells of an event begin, for each of the eight valuations that it can give, a byte each; 56, which is past the row, where it gives what
// it does not see.
fn firsts_of(see: u16) -> u64
    requires { see < 8 }
    ensures { result ≡ get_or firsts see 0 }
{
    match see {
        0 => 0x3838383838383802,
        1 => 0x3838383838380604,
        2 => 0x38383838380a3808,
        3 => 0x3838383812100e0c,
        4 => 0x3838381638383814,
        5 => 0x38381e1c38381a18,
        6 => 0x3826382438223820,
        _ => 0x363432302e2c2a28,
    }
}

// Where in a row the two cells of an event begin; 56 where no three propositions allow it.
pub fn first_of(event: Event) -> usize
    ensures { (result ≡ first_of event.see event.val) × (result < 256) }
{
    if 7 < event.see || 7 < event.val {
        return 56;
    }
    let past = event.val * 8;
    ((firsts_of(event.see) >> past) % 256) as usize
}

// Whether a row can show these: a verdict, and no more states than a table has.
fn can_show(verdict: u8, left: u8) -> bool
    ensures { result ≡ (leb verdict 3 && leb left 64) }
{
    verdict <= 3 && left <= 64
}

// What the row that a cell holds shows, if it is one.
pub fn stand_at(machine: &[u8], width: usize, rows: usize, cell: u8) -> Result<Stand, Refusal>
    requires { (2 ≤ width) × (width ≤ 56) × (rows ≡ length machine.now / width) }
    ensures { result ≡ stand_at machine.now width cell }
{
    let row = cell as usize;
    if rows <= row {
        return Err(Refusal::at(Kind::Value, 0));
    }
    let at = row * width;
    let verdict = machine[at];
    let left = machine[at + 1];
    if can_show(verdict, left) {
        Ok(Stand { row, verdict, left })
    } else {
        Err(Refusal::at(Kind::Value, 0))
    }
}

// Checks 1 and 9, then 10, and 9 again for the row that the cell holds.
pub fn look_up(machine: &[u8], props: usize, row: usize, event: Event) -> Result<Stand, Refusal>
    ensures { result ≡ looked_up machine.now props row event }
{
    let Shape { width, rows } = shape_of(machine.len(), props);
    if width == 0 {
        return Err(Refusal::at(Kind::Counts, 0));
    }
    if rows <= row {
        return Err(Refusal::at(Kind::Value, 0));
    }
    let first = first_of(event);
    if width <= first {
        return Err(Refusal::at(Kind::IllegalEvent, 0));
    }
    let cell = row * width + first + event.new as usize;
    stand_at(machine, width, rows, machine[cell])
}
