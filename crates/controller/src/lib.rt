// A whole log in one call, from the texts of a table, a rule and a log: its verdicts into a buffer, as a controller's program asks for them once it has the log; or where it ends,
// which is what a closing verdict and a neighbour's report are judged by.
#![tactic(auto)]

ghost use Rattle.std.specs.Prelude.{◌≡◌, length, Ok};
ghost use Rattle.words.specs.Over.{over};
ghost use Rattle.text.specs.Number.{width_of};
ghost use Rattle.event_log.specs.Read.{log_read};
ghost use Rattle.course.specs.Laid.{laid};
ghost use Rattle.course.specs.Course.{verdict_bytes};
ghost use Rattle.opened.specs.Lent.{Lent};
ghost use Rattle.opened.specs.Fits.{Fits};
ghost use Rattle.controller.specs.Whole.{Says, course_from, log_checked, end_at, heard_in, heard_of, end_refused, end_in, end_of};

use answers::{Kind, Refusal};
use opened::{Opened, open_texts};
use plant::Table;
use sides::Monitor;
use syntax::Rule;

// How many events there were.
#[derive(Clone, Copy)]
pub struct Events {
    pub count: usize,
}

// Why an event is refused, at the offset of its line, and how many were taken before it.
#[derive(Clone, Copy)]
pub struct Stop {
    pub refusal: Refusal,
    pub event: usize,
}

// All events were taken; or one was refused, and those before it have their verdicts; or nothing was taken.
#[derive(Clone, Copy)]
pub enum LogAnswer {
    Watched(Events),
    Stopped(Stop),
    Refused(Refusal),
}

// Where a log ends: what is answered, the table and the rule, and the monitor behind the events that were taken.
#[derive(Clone, Copy)]
pub struct LogEnd {
    pub answer: LogAnswer,
    pub table: Table,
    pub rule: Rule,
    pub last: Monitor,
}

// A byte for each event: its verdict's number. Refusals 3, 2; 4 to 8; 12; 11 write nothing, and no byte beyond the last verdict is ever written.
// The rule's text is taken as it stands: no LF is dropped. No text has a greatest length but the rule.
#[tactic(auto, unfolding(crate::specs::Whole::heard_of))]
pub fn watch_log(table: &[u8], rule: &[u8], log: &[u8], verdicts: &mut [u8]) -> LogAnswer
    ensures answer { result ≡ (heard_of table.now rule.now log.now (length verdicts.old)).answer }
    ensures verdicts { verdicts.new ≡ over
        (heard_of table.now rule.now log.now (length verdicts.old)).bytes verdicts.old }
{
    let opened = open_texts(table, rule);
    match opened.outcome {
        Err(refusal) => LogAnswer::Refused(refusal),
        Ok(()) => with_opened(opened, log, verdicts),
    }
}

// The form of the log, 12, and then a byte for each of its lines, 11.
#[tactic(auto, unfolding(crate::specs::Whole::log_checked))]
fn check_log(log: &[u8], props: usize, room: usize) -> Result<(), Refusal>
    ensures { result ≡ log_checked props log.now room }
{
    let read = event_log::read_log(log, props);
    read.outcome?;
    if room < read.lines {
        return Err(Refusal::at(Kind::Room, 0));
    }
    Ok(())
}

// With a table and a rule that were accepted.
fn with_opened(opened: Opened, log: &[u8], verdicts: &mut [u8]) -> LogAnswer
    requires { Lent opened.table × Fits opened }
    ensures { Says (heard_in (log_checked opened.table.plant.props log.now (length verdicts.old)) opened log.now)
        verdicts.old verdicts.new result }
{
    match check_log(log, opened.table.plant.props, verdicts.len()) {
        Err(refusal) => LogAnswer::Refused(refusal),
        Ok(()) => follow_log(opened, log, verdicts).answer,
    }
}

// What `watch_log` answers with a buffer as long as the log, and what stands behind it. Refusals 3, 2; 4 to 8; 12; then an event's 10 or 16, at the offset of its line.
#[tactic(auto, unfolding(crate::specs::Whole::end_of))]
pub fn to_end(table: &[u8], rule: &[u8], log: &[u8]) -> LogEnd
    ensures { result ≡ end_of table.now rule.now log.now }
{
    let opened = open_texts(table, rule);
    match opened.outcome {
        Err(refusal) => refused(opened, refusal),
        Ok(()) => end_of(opened, log),
    }
}

// The form of the log, and then its lines, with no byte for a verdict.
fn end_of(opened: Opened, log: &[u8]) -> LogEnd
    requires { Lent opened.table × Fits opened }
    ensures { result ≡ end_in (log_read (width_of opened.table.plant.props) log.now).outcome opened log.now }
{
    let read = event_log::read_log(log, opened.table.plant.props);
    match read.outcome {
        Err(refusal) => refused(opened, refusal),
        Ok(()) => follow_log(opened, log, &mut [0u8; 0]),
    }
}

// Before its first line.
fn refused(opened: Opened, refusal: Refusal) -> LogEnd
    ensures { result ≡ end_refused opened refusal }
{
    LogEnd {
        answer: LogAnswer::Refused(refusal),
        table: opened.table,
        rule: opened.rule,
        last: opened.monitor,
    }
}

// The log's lines. Of what is shown of an event the verdict alone is kept, where there is a byte for it.
fn follow_log(opened: Opened, log: &[u8], verdicts: &mut [u8]) -> LogEnd
    requires { Lent opened.table × Fits opened }
    ensures end { result ≡ end_in (Ok tt) opened log.now }
    ensures verdicts { verdicts.new ≡ laid (verdict_bytes (course_from opened log.now).lamps) verdicts.old }
{
    let table = opened.table;
    let plant = table.plant;
    let went = course::follow(
        plant,
        &table.fair[..plant.just],
        &table.label[..plant.states],
        &table.next[..plant.states],
        opened.rule,
        opened.live,
        opened.monitor,
        log,
        verdicts,
        &mut [0u8; 0],
        &mut [0u64; 0],
    );
    let offset = went.done * event_log::line_bytes(log, plant.props);
    LogEnd {
        answer: answer_at(went.outcome, went.done, offset),
        table,
        rule: opened.rule,
        last: went.monitor,
    }
}

// How a log ended behind so many events; the line of the next one is at `offset`.
fn answer_at(outcome: Result<(), Refusal>, done: usize, offset: usize) -> LogAnswer
    ensures { result ≡ end_at offset outcome done }
{
    match outcome {
        Ok(()) => LogAnswer::Watched(Events { count: done }),
        Err(refusal) => LogAnswer::Stopped(Stop {
            refusal: Refusal::at(refusal.kind, offset),
            event: done,
        }),
    }
}
