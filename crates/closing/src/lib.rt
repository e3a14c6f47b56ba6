// A day's end: the last verdict of a whole log, and by edition 2, where that is inconclusive, what finite-trace logic presumes of the rule.
#![tactic(auto)]

ghost use Rattle.std.specs.Prelude.{◌≡◌, ◌≤◌};
ghost use Rattle.text.specs.Number.{width_of};
ghost use Rattle.event_log.specs.Read.{event_at, whole_lines};
ghost use Rattle.closing.specs.Closing.{closing_number, of_verdict, presumed_of, second_of, closed_at, closed_of};

use advance::lamp;
use answers::{Kind, Refusal, Verdict};
use controller::{LogAnswer, Stop, to_end};
use last_stretch::look_back;
use sides::Monitor;
use syntax::Rule;

// What a day ends with: one of the four verdicts, or what is presumed where it is inconclusive.
#[derive(Clone, Copy, Debug, PartialEq, Eq)]
pub enum ClosingVerdict {
    Inconclusive,
    True,
    False,
    OutOfModel,
    PresumablyTrue,
    PresumablyFalse,
}

impl ClosingVerdict {
    pub const PRESUMABLY_TRUE: u8 = 4;

    pub const PRESUMABLY_FALSE: u8 = 5;

    // The verdict as it is.
    pub fn of(verdict: Verdict) -> Self
        ensures { result ≡ of_verdict verdict }
    {
        match verdict {
            Verdict::Inconclusive => ClosingVerdict::Inconclusive,
            Verdict::True => ClosingVerdict::True,
            Verdict::False => ClosingVerdict::False,
            Verdict::OutOfModel => ClosingVerdict::OutOfModel,
        }
    }

    // The four numbers of the verdicts, and two more.
    pub fn number(self) -> u8
        ensures { result ≡ closing_number self }
    {
        match self {
            ClosingVerdict::Inconclusive => Verdict::INCONCLUSIVE,
            ClosingVerdict::True => Verdict::TRUE,
            ClosingVerdict::False => Verdict::FALSE,
            ClosingVerdict::OutOfModel => Verdict::OUT_OF_MODEL,
            ClosingVerdict::PresumablyTrue => ClosingVerdict::PRESUMABLY_TRUE,
            ClosingVerdict::PresumablyFalse => ClosingVerdict::PRESUMABLY_FALSE,
        }
    }
}

// The closing verdict; or an event was refused; or a text or the edition was.
#[derive(Clone, Copy)]
pub enum Closed {
    At(ClosingVerdict),
    Stopped(Stop),
    Refused(Refusal),
}

// Which verdict a day ends with, by the edition that a settings sheet names. Refusals 3, 2; 4 to 8; 12; then an event's 10 or 16, at the offset of its line;
// then 21.
pub fn close_log(table: &[u8], rule: &[u8], log: &[u8], edition: u64) -> Closed
    ensures { result ≡ closed_of table.now rule.now log.now edition }
{
    let end = to_end(table, rule, log);
    match end.answer {
        LogAnswer::Refused(refusal) => Closed::Refused(refusal),
        LogAnswer::Stopped(stop) => Closed::Stopped(stop),
        LogAnswer::Watched(_) => at_end(end.rule, log, end.table.plant.props, end.last, edition),
    }
}

// Behind the last event: the edition decides what is asked.
fn at_end(rule: Rule, log: &[u8], props: usize, last: Monitor, edition: u64) -> Closed
    requires { rule.len ≤ 32 }
    ensures { result ≡ closed_at rule (event_at (width_of props) log.now) (whole_lines (width_of props) log.now) last edition }
{
    let verdict = lamp(last).verdict;
    if edition == 1 {
        return Closed::At(ClosingVerdict::of(verdict));
    }
    if edition == 2 {
        return Closed::At(second(rule, log, props, verdict));
    }
    Closed::Refused(Refusal::at(Kind::ClosingEdition, 0))
}

// A decided verdict stands. Where it is inconclusive, something may be presumed.
fn second(rule: Rule, log: &[u8], props: usize, verdict: Verdict) -> ClosingVerdict
    requires { rule.len ≤ 32 }
    ensures { result ≡ second_of verdict (presumed_of rule (event_at (width_of props) log.now) (whole_lines (width_of props) log.now)) }
{
    match verdict {
        Verdict::Inconclusive => presumed(rule, log, props),
        decided => ClosingVerdict::of(decided),
    }
}

#[tactic(auto, unfolding(crate::specs::Closing::presumed_of))]
fn presumed(rule: Rule, log: &[u8], props: usize) -> ClosingVerdict
    requires { rule.len ≤ 32 }
    ensures { result ≡ presumed_of rule (event_at (width_of props) log.now) (whole_lines (width_of props) log.now) }
{
    let found = look_back(rule, log, props);
    if !found.ready {
        ClosingVerdict::Inconclusive
    } else if found.holds {
        ClosingVerdict::PresumablyTrue
    } else {
        ClosingVerdict::PresumablyFalse
    }
}
