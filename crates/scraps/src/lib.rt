// Logs arriving by radio: the two calls. `take` hears a scrap of any length, cut anywhere; `finish` says how the log ends where it stands.
#![tactic(auto)]

ghost use Rattle.std.specs.Prelude.{◌≡◌, ◌+◌, ◌≤◌, length};
ghost use Rattle.course.specs.Laid.{laid};
ghost use Rattle.scraps.specs.Calls.{held_outcome, lines_in, part_fits, room_outcome, kept_outcome, take_outcome, heard_answer, take_call, finish_call};

use answers::{Kind, Refusal};
use controller::{Events, LogAnswer, Stop};
use pairs::Pairs;
use plant::Plant;
use radio::{Radio, begins_line, listen};
use sides::Monitor;
use syntax::Rule;

// The answer: how many verdicts this scrap gave; or the refusal of an event or a byte, and how many verdicts came before it in this scrap; or a refusal that
// took nothing. Beside it the radio behind the scrap, with a refusal that took nothing the one handed in.
#[derive(Clone, Copy)]
pub struct Taken {
    pub answer: LogAnswer,
    pub radio: Radio,
}

// Checks 1, 2 and 9: the table, the rule, the live set and the monitor. Both sides of the monitor fit exactly if they do so with the live set joined to one.
fn check_held(
    plant: Plant,
    fair: &[u64],
    label: &[u16],
    next: &[u64],
    rule: Rule,
    live: Pairs,
    monitor: Monitor,
) -> Result<(), Refusal>
    ensures { result ≡ held_outcome plant fair.now label.now next.now rule live monitor }
{
    let all = Monitor {
        keeps: monitor.keeps.join(live),
        ..monitor
    };
    monitor::look(plant, fair, label, next, rule, all)?;
    Ok(())
}

// Whether what is kept begins a line of the log and is not whole, and is no more than a log may have.
#[tactic(auto, unfolding(crate::specs::Calls::part_fits))]
fn part_fits(radio: Radio, props: usize) -> bool
    ensures { result ≡ part_fits props radio }
{
    radio.len < Radio::PART
        && radio.start <= Radio::LONGEST - radio.len
        && begins_line(radio, props)
}

// 1, 2, 9 with what is kept, and then the refusal that stands.
fn check_kept(
    plant: Plant,
    fair: &[u64],
    label: &[u16],
    next: &[u64],
    rule: Rule,
    live: Pairs,
    radio: Radio,
) -> Result<(), Refusal>
    ensures { result ≡ kept_outcome plant fair.now label.now next.now rule live radio }
{
    check_held(plant, fair, label, next, rule, live, radio.monitor)?;
    if part_fits(radio, plant.props) {
        radio.standing
    } else {
        Err(Refusal::at(Kind::Value, 0))
    }
}

// How many line ends a scrap has.
#[tactic(auto, using(crate::proofs::Lines::lines_by_count))]
fn lines_in(scrap: &[u8]) -> usize
    ensures { result ≡ lines_in scrap.now }
{
    scrap.iter().filter(|byte| **byte == b'\n').count()
}

// A byte for each line end, 11; and then no more bytes than a log may have, 24.
fn check_room(scrap: &[u8], room: usize, taken: usize) -> Result<(), Refusal>
    requires { taken ≤ 4294967295 }
    ensures { result ≡ room_outcome scrap.now room taken }
{
    if room < lines_in(scrap) {
        return Err(Refusal::at(Kind::Room, 0));
    }
    if Radio::LONGEST - taken < scrap.len() {
        return Err(Refusal::at(Kind::LogLength, 0));
    }
    Ok(())
}

// All checks of a scrap, in their order.
fn check_take(
    plant: Plant,
    fair: &[u64],
    label: &[u16],
    next: &[u64],
    rule: Rule,
    live: Pairs,
    radio: Radio,
    scrap: &[u8],
    room: usize,
) -> Result<(), Refusal>
    ensures { result ≡ take_outcome plant fair.now label.now next.now rule live radio scrap.now room }
{
    check_kept(plant, fair, label, next, rule, live, radio)?;
    check_room(scrap, room, radio.start + radio.len)
}

// How a scrap ended that gave so many verdicts.
fn answer_of(standing: Result<(), Refusal>, done: usize) -> LogAnswer
    ensures { result ≡ heard_answer standing done }
{
    match standing {
        Ok(()) => LogAnswer::Watched(Events { count: done }),
        Err(refusal) => LogAnswer::Stopped(Stop {
            refusal,
            event: done,
        }),
    }
}

// A scrap, from what is kept on. Refusals 1, 2, 9; the one that stands; 11; 24 take nothing and write nothing.
pub fn take(
    plant: Plant,
    fair: &[u64],
    label: &[u16],
    next: &[u64],
    rule: Rule,
    live: Pairs,
    radio: Radio,
    scrap: &[u8],
    verdicts: &mut [u8],
) -> Taken
    ensures taken { result ≡ (take_call plant fair.now label.now next.now rule live radio scrap.now (length verdicts.old)).taken }
    ensures verdicts { verdicts.new ≡ laid
        (take_call plant fair.now label.now next.now rule live radio scrap.now (length verdicts.old)).verdicts
        verdicts.old }
{
    let outcome = check_take(
        plant,
        fair,
        label,
        next,
        rule,
        live,
        radio,
        scrap,
        verdicts.len(),
    );
    match outcome {
        Err(refusal) => Taken {
            answer: LogAnswer::Refused(refusal),
            radio,
        },
        Ok(()) => {
            let went = listen(plant, fair, label, next, rule, live, radio, scrap, verdicts);
            Taken {
                answer: answer_of(went.radio.standing, went.done),
                radio: went.radio,
            }
        }
    }
}

// Whether the log may end here: 1, 2, 9; the refusal that stands; 12 at its length where a line is not whole. It changes nothing.
pub fn finish(
    plant: Plant,
    fair: &[u64],
    label: &[u16],
    next: &[u64],
    rule: Rule,
    live: Pairs,
    radio: Radio,
) -> Result<(), Refusal>
    ensures { result ≡ finish_call plant fair.now label.now next.now rule live radio }
{
    check_kept(plant, fair, label, next, rule, live, radio)?;
    if radio.len == 0 {
        Ok(())
    } else {
        Err(Refusal::at(Kind::LogText, radio.start + radio.len))
    }
}
