// A whole log, line by line from a monitor on, with what the rule says worked out once and nothing checked but the events: the answers are those
// of stepping one by one.
#![tactic(auto)]

mod lent;

ghost use Rattle.std.specs.Prelude.{◌≡◌, ◌≤◌, ◌%◌, length, set, Ok};
ghost use Rattle.answers.specs.Paper.{number_of};
ghost use Rattle.course.specs.Course.{Followed, course_in, course_of, Fitting};

use answers::{Lamp, Refusal};
use event_numbers::check_event;
use lent::{lamp_of, take_lent};
use pairs::Pairs;
use plant::Plant;
use sides::Monitor;
use syntax::Rule;
use ways::Ways;

// Accepted where no event was refused, and else the refusal; how many events were taken; and the monitor behind them.
#[derive(Clone, Copy)]
pub struct Went {
    pub outcome: Result<(), Refusal>,
    pub done: usize,
    pub monitor: Monitor,
}

// A byte is stored where there is room for it.
pub fn store(bytes: &mut [u8], at: usize, byte: u8)
    ensures { bytes.new ≡ set bytes.old at byte }
{
    if at < bytes.len() {
        bytes[at] = byte;
    }
}

// And so is a number.
fn store_number(numbers: &mut [u64], at: usize, number: u64)
    ensures { numbers.new ≡ set numbers.old at number }
{
    if at < numbers.len() {
        numbers[at] = number;
    }
}

// What is shown of an event: the verdict's number, `left`, and the number that the event took.
fn note(
    verdicts: &mut [u8],
    lefts: &mut [u8],
    numbers: &mut [u64],
    at: usize,
    shown: Lamp,
    number: u64,
)
    ensures verdicts { verdicts.new ≡ set verdicts.old at (number_of shown.verdict) }
    ensures lefts { lefts.new ≡ set lefts.old at (shown.left % 256) }
    ensures numbers { numbers.new ≡ set numbers.old at number }
{
    store(verdicts, at, shown.verdict.number());
    store(lefts, at, (shown.left % 256) as u8);
    store_number(numbers, at, number);
}

// The loop. The monitor is lent to each event, which changes it where it stands. It stops at the first event that is refused. Of each event taken, what is shown is
// stored, where there is room.
fn turns(
    plant: Plant,
    label: &[u16],
    next: &[u64],
    ways: Ways,
    live: Pairs,
    monitor: Monitor,
    text: &[u8],
    verdicts: &mut [u8],
    lefts: &mut [u8],
    numbers: &mut [u64],
) -> Went
    requires { (length label.now ≤ 64) × (ways.count ≤ 64) }
    ensures { Followed (course_in plant label.now next.now ways live monitor text.now)
        verdicts.old lefts.old numbers.old verdicts.new lefts.new numbers.new result }
{
    let mut now = monitor;
    let lines = text.len() / event_log::line_bytes(text, plant.props);
    for n in 0..lines {
        let event = event_log::event_at(text, n, plant.props);
        if let Err(refusal) = check_event(event, plant.props, now.seen, now.expected) {
            return Went {
                outcome: Err(refusal),
                done: n,
                monitor: now,
            };
        }
        let number = take_lent(label, next, &ways, &live.words, event, &mut now);
        note(verdicts, lefts, numbers, n, lamp_of(&now), number);
    }
    Went {
        outcome: Ok(()),
        done: lines,
        monitor: now,
    }
}

// Of an accepted table and rule, from a live set and a monitor of theirs.
pub fn follow(
    plant: Plant,
    fair: &[u64],
    label: &[u16],
    next: &[u64],
    rule: Rule,
    live: Pairs,
    monitor: Monitor,
    text: &[u8],
    verdicts: &mut [u8],
    lefts: &mut [u8],
    numbers: &mut [u64],
) -> Went
    requires { Fitting plant fair.now label.now next.now rule live monitor }
    ensures { Followed (course_of plant fair.now label.now next.now rule live monitor text.now)
        verdicts.old lefts.old numbers.old verdicts.new lefts.new numbers.new result }
{
    let ways = ways::ways_of(label, rule);
    turns(
        plant, label, next, ways, live, monitor, text, verdicts, lefts, numbers,
    )
}
