// Events, their check, and the text of a log.
#![tactic(auto)]

ghost use Rattle.std.specs.Prelude.{◌≡◌, ◌≤◌};
ghost use Rattle.event_log.specs.Legal.{legal_of};
ghost use Rattle.text.specs.After.{cursor};
ghost use Rattle.text.specs.Took.{Took};
ghost use Rattle.text.specs.LinesRead.{IsLine};
ghost use Rattle.text.specs.Number.{width_of};
ghost use Rattle.event_log.specs.Lead.{leading};
ghost use Rattle.event_log.specs.Line.{line, line_bytes};
ghost use Rattle.event_log.specs.Read.{is_numbered, bytes_in, read_as, event_as, log_read, event_at};

use answers::{Kind, Refusal};
use text::{Cursor, Reading, byte_at, count, expect, expect_all, hex, width_of};

// Which number an event has: the one expected next, or the one that it gives.
#[derive(Clone, Copy, Debug, PartialEq, Eq)]
pub enum Num {
    Expected,
    Given(u32),
}

// Its number, which propositions are seen, those of them seen to hold, and whether it is a restart.
#[derive(Clone, Copy, Debug, PartialEq, Eq)]
pub struct Event {
    pub num: Num,
    pub see: u16,
    pub val: u16,
    pub new: bool,
}

impl Event {
    // The most propositions that an event can see.
    pub const PROPS: usize = 16;

    // The event that sees nothing.
    pub const NOTHING: Event = Event {
        num: Num::Expected,
        see: 0,
        val: 0,
        new: false,
    };
}

// How many lines a log has, or its refusal, and then 0.
#[derive(Clone, Copy, Debug, PartialEq, Eq)]
pub struct LogRead {
    pub outcome: Result<(), Refusal>,
    pub lines: usize,
}

// An event, and how many bytes fit its line.
#[derive(Clone, Copy, Debug, PartialEq, Eq)]
struct Line {
    event: Event,
    good: usize,
}

// Whether the event sees propositions below `props` alone and gives 1 to none but those seen. For more propositions than it can see, which no table has, none is legal.
#[tactic(auto, unfolding(crate::specs::Legal::legal_of))]
pub fn is_legal(event: Event, props: usize) -> bool
    ensures { result ≡ legal_of event props }
{
    if Event::PROPS < props {
        return false;
    }
    u64::from(event.see) < words::single(props) && event.val & event.see == event.val
}

// How many bytes a line of so many digits has, with a number or without one.
fn bytes_of(numbered: bool, width: usize) -> usize
    requires { width ≤ 4 }
    ensures { result ≡ line_bytes numbered width }
{
    let plain = 16 + (width + width);
    if numbered { 13 + plain } else { plain }
}

// Whether a log's lines are to be numbered: its first byte tells it, the `n` of `num=`.
#[tactic(auto, unfolding(crate::specs::Read::is_numbered))]
fn is_numbered(text: &[u8]) -> bool
    ensures { result ≡ is_numbered text.now }
{
    byte_at(text, 0) == b'n'
}

// How many bytes each line of a log has where there are so many propositions: 20 or 24, and 33 or 37 with numbers.
pub fn line_bytes(text: &[u8], props: usize) -> usize
    ensures { result ≡ bytes_in (width_of props) text.now }
{
    bytes_of(is_numbered(text), width_of(props))
}

// The number that leads a numbered line. Nothing leads any other, and its event has the number expected.
fn read_lead(text: &[u8], numbered: bool) -> Reading<Num>
    ensures { Took (leading numbered) text.now (cursor 0 0) result.value result.next × (result.next.at ≤ 13) }
{
    if numbered {
        let a = expect_all(text, Cursor::START, b"num=");
        let given = hex(text, a, 8);
        return Reading {
            value: Num::Given(given.value as u32),
            next: expect(text, given.next, b' '),
        };
    }
    Reading {
        value: Num::Expected,
        next: Cursor::START,
    }
}

// The line of so many digits that a text begins with. It never fails: `good` tells how far the text fits.
fn read_line(text: &[u8], numbered: bool, width: usize) -> Line
    requires { width ≤ 4 }
    ensures { IsLine (line numbered width) text.now result.event result.good }
{
    let lead = read_lead(text, numbered);
    let a = expect_all(text, lead.next, b"see=");
    let see = hex(text, a, width);
    let b = expect_all(text, see.next, b" val=");
    let val = hex(text, b, width);
    let d = expect_all(text, val.next, b" new=");
    let new = count(text, d, b'\n', 0, 1);
    let event = Event {
        num: lead.value,
        see: see.value as u16,
        val: val.value as u16,
        new: new.value == 1,
    };
    Line {
        event,
        good: new.next.good,
    }
}

// Checks the form of lines of so many digits, all of them numbered or none.
fn read_lines(text: &[u8], numbered: bool, width: usize) -> LogRead
    requires { width ≤ 4 }
    ensures { result ≡ read_as numbered width text.now }
{
    let bytes = bytes_of(numbered, width);
    let mut lines = 0;
    for at in (0..text.len()).step_by(bytes) {
        let good = read_line(&text[at..], numbered, width).good;
        if good < bytes {
            return LogRead {
                outcome: Err(Refusal::at(Kind::LogText, at + good)),
                lines: 0,
            };
        }
        lines += 1;
    }
    LogRead {
        outcome: Ok(()),
        lines,
    }
}

// Checks the form of a whole log, of any number of lines, for so many propositions.
pub fn read_log(text: &[u8], props: usize) -> LogRead
    ensures { result ≡ log_read (width_of props) text.now }
{
    read_lines(text, is_numbered(text), width_of(props))
}

// The event of a line of so many digits.
fn event_in(text: &[u8], line: usize, numbered: bool, width: usize) -> Event
    requires { width ≤ 4 }
    ensures { result ≡ event_as numbered width text.now line }
{
    let bytes = bytes_of(numbered, width);
    if line < text.len() / bytes {
        let at = line * bytes;
        read_line(&text[at..], numbered, width).event
    } else {
        Event::NOTHING
    }
}

// The event of a line, counted from 0, for so many propositions; one that sees nothing beyond the last whole line.
pub fn event_at(text: &[u8], line: usize, props: usize) -> Event
    ensures { result ≡ event_at (width_of props) text.now line }
{
    event_in(text, line, is_numbered(text), width_of(props))
}
