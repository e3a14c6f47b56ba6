// The day sheet: a line for each stretch between restarts, and what one event more makes of it.
#![tactic(auto)]

ghost use Rattle.std.specs.Prelude.{◌≡◌, ◌≤◌};
ghost use Rattle.stretches.specs.Sheet.{decided_by, decided_after, one_more, first_line, more_line, empty_sheet, begun_by, gone_on_by, noted_by};

use answers::Verdict;

// The number with which it begins, how many events it has, the verdict behind them all, and the number at which the verdict was first true or false.
#[derive(Clone, Copy, Debug, PartialEq, Eq)]
pub struct Stretch {
    pub first: u64,
    pub events: u64,
    pub verdict: Verdict,
    pub decided: u64,
}

impl Stretch {
    // Numbers have 32 bits. As `decided` this one says that there is none; and no stretch has more events.
    pub const NONE: u64 = 4294967296;
}

// The stretches in their order. Lines beyond the count say nothing.
#[derive(Clone, Copy, Debug, PartialEq, Eq)]
pub struct DaySheet {
    pub count: usize,
    pub lines: [Stretch; 64],
}

impl DaySheet {
    // The most stretches of a sheet.
    pub const STRETCHES: usize = 64;

    // Before any event.
    pub fn empty() -> Self
        ensures { result ≡ empty_sheet }
    {
        let blank = Stretch {
            first: 0,
            events: 0,
            verdict: Verdict::Inconclusive,
            decided: 0,
        };
        DaySheet {
            count: 0,
            lines: [blank; 64],
        }
    }
}

// The number of an event where the verdict is true or false, and else none.
fn decided_by(verdict: Verdict, number: u64) -> u64
    ensures { result ≡ decided_by verdict number }
{
    match verdict {
        Verdict::True | Verdict::False => number,
        Verdict::Inconclusive | Verdict::OutOfModel => Stretch::NONE,
    }
}

// Once it is decided it stays so, whatever the lamp shows behind it.
#[tactic(auto, unfolding(crate::specs::Sheet::decided_after))]
fn decided_after(decided: u64, verdict: Verdict, number: u64) -> u64
    ensures { result ≡ decided_after decided verdict number }
{
    if decided < Stretch::NONE {
        return decided;
    }
    decided_by(verdict, number)
}

#[tactic(auto, unfolding(crate::specs::Sheet::one_more))]
fn one_more(events: u64) -> u64
    ensures { result ≡ one_more events }
{
    if events < Stretch::NONE {
        return events + 1;
    }
    events
}

// The line of a stretch that begins with an event.
fn first_line(number: u64, verdict: Verdict) -> Stretch
    ensures { result ≡ first_line number verdict }
{
    Stretch {
        first: number,
        events: 1,
        verdict,
        decided: decided_by(verdict, number),
    }
}

// The line of a stretch with one event more.
fn more_line(line: Stretch, number: u64, verdict: Verdict) -> Stretch
    ensures { result ≡ more_line line number verdict }
{
    Stretch {
        first: line.first,
        events: one_more(line.events),
        verdict,
        decided: decided_after(line.decided, verdict, number),
    }
}

// A stretch more. A full sheet stays as it is: who notes looks first whether there is room.
#[tactic(auto, unfolding(crate::specs::Sheet::begun_by))]
fn begun(sheet: DaySheet, number: u64, verdict: Verdict) -> DaySheet
    ensures { result ≡ begun_by sheet number verdict }
{
    if DaySheet::STRETCHES <= sheet.count {
        return sheet;
    }
    let mut lines = sheet.lines;
    lines[sheet.count] = first_line(number, verdict);
    DaySheet {
        count: sheet.count + 1,
        lines,
    }
}

// The last stretch goes on.
#[tactic(auto, using(crate::specs::Sheet::gone_within, crate::specs::Sheet::gone_beyond))]
fn gone_on(sheet: DaySheet, number: u64, verdict: Verdict) -> DaySheet
    requires { 1 ≤ sheet.count }
    ensures { result ≡ gone_on_by sheet number verdict }
{
    let last = sheet.count - 1;
    if DaySheet::STRETCHES <= last {
        return sheet;
    }
    let mut lines = sheet.lines;
    lines[last] = more_line(lines[last], number, verdict);
    DaySheet { lines, ..sheet }
}

// An event noted: it opens a stretch, as the first of a sheet always does, or the last one goes on.
#[tactic(auto, unfolding(crate::specs::Sheet::noted_by))]
pub fn noted(sheet: DaySheet, opens: bool, number: u64, verdict: Verdict) -> DaySheet
    ensures { result ≡ noted_by sheet opens number verdict }
{
    if sheet.count == 0 || opens {
        return begun(sheet, number, verdict);
    }
    gone_on(sheet, number, verdict)
}
