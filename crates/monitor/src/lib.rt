// The monitor: opened, looked at, stepped, by value. Here are the checks and the calls; how it moves is in advance.
#![tactic(auto)]

ghost use Rattle.std.specs.Prelude.{◌≡◌, ◌&&◌, ◌^◌, leb};
ghost use Rattle.checks.specs.Checks.{pairs_fit};
ghost use Rattle.monitor.specs.Calls.{open_call, look_call, step_call};
ghost use Rattle.monitor.specs.Checked.{held_of, caught_of};

use answers::{Answer, Kind, Refusal};
use event_log::Event;
use event_numbers::check_event;
use pairs::Pairs;
use plant::Plant;
pub use sides::Monitor;
use syntax::Rule;

// The answer, and beside it the monitor. With a refusal it is the monitor handed in; `open` has none, and gives the empty one.
#[derive(Clone, Copy)]
pub struct Watched {
    pub answer: Answer,
    pub monitor: Monitor,
}

// Checks 1, 2 and 9: the table, the rule, two sets of pairs, and the number expected.
#[tactic(auto, unfolding(crate::specs::Checked::held_of))]
fn check_held(
    plant: Plant,
    fair: &[u64],
    label: &[u16],
    next: &[u64],
    rule: Rule,
    one: &[u64; 64],
    two: &[u64; 64],
    expected: u64,
) -> Result<(), Refusal>
    ensures { result ≡ held_of plant fair.now label.now next.now rule one.now two.now expected }
{
    checks::check_input(plant, fair, label, next, rule)?;
    let states = words::all(plant.states);
    let count = moves::valuations(syntax::parts_of(rule));
    if !both_fit(one, two, expected, states, count) {
        return Err(Refusal::at(Kind::Value, 0));
    }
    Ok(())
}

// Whether two sets of pairs are of these states and valuations, and the number expected is one, or says that they are used up.
fn both_fit(one: &[u64; 64], two: &[u64; 64], expected: u64, states: u64, count: usize) -> bool
    ensures { result ≡ (pairs_fit one.now states count && (pairs_fit two.now states count && leb expected (2 ^ 32))) }
{
    checks::pairs_fit(one, states, count)
        && checks::pairs_fit(two, states, count)
        && expected <= event_numbers::USED_UP
}

// The live pairs at starting states, by whether the rule holds there.
pub fn open(
    plant: Plant,
    fair: &[u64],
    label: &[u16],
    next: &[u64],
    rule: Rule,
    live: Pairs,
) -> Watched
    ensures { result ≡ open_call plant fair.now label.now next.now rule live }
{
    match check_held(plant, fair, label, next, rule, &live.words, &live.words, 0) {
        Err(refusal) => Watched {
            answer: Err(refusal),
            monitor: Monitor::NONE,
        },
        Ok(()) => {
            let monitor = single_event::opened(plant.start, label, rule, live);
            Watched {
                answer: Ok(advance::lamp(monitor)),
                monitor,
            }
        }
    }
}

// What the lamp shows for a monitor handed in.
pub fn look(
    plant: Plant,
    fair: &[u64],
    label: &[u16],
    next: &[u64],
    rule: Rule,
    monitor: Monitor,
) -> Answer
    ensures { result ≡ look_call plant fair.now label.now next.now rule monitor }
{
    check_held(
        plant,
        fair,
        label,
        next,
        rule,
        &monitor.keeps.words,
        &monitor.breaks.words,
        monitor.expected,
    )?;
    let lamp = advance::lamp(monitor);
    Ok(lamp)
}

// Checks 1, 2, 9, 10 and 16.
#[tactic(auto, unfolding(crate::specs::Checked::caught_of))]
fn check_step(
    plant: Plant,
    fair: &[u64],
    label: &[u16],
    next: &[u64],
    rule: Rule,
    live: Pairs,
    monitor: Monitor,
    event: Event,
) -> Result<(), Refusal>
    ensures { result ≡ caught_of plant fair.now label.now next.now rule live monitor event }
{
    let both = monitor.keeps.join(monitor.breaks);
    check_held(
        plant,
        fair,
        label,
        next,
        rule,
        &live.words,
        &both.words,
        monitor.expected,
    )?;
    check_event(event, plant.props, monitor.seen, monitor.expected)
}

// One event more, behind those whose numbers are missing before it. The table and the rule are worked out anew, so a step needs nothing but what it is handed.
pub fn step(
    plant: Plant,
    fair: &[u64],
    label: &[u16],
    next: &[u64],
    rule: Rule,
    live: Pairs,
    monitor: Monitor,
    event: Event,
) -> Watched
    ensures { result ≡ step_call plant fair.now label.now next.now rule live monitor event }
{
    match check_step(plant, fair, label, next, rule, live, monitor, event) {
        Err(refusal) => Watched {
            answer: Err(refusal),
            monitor,
        },
        Ok(()) => {
            let stepped = single_event::stepped(label, next, rule, live, monitor, event);
            Watched {
                answer: Ok(advance::lamp(stepped)),
                monitor: stepped,
            }
        }
    }
}
