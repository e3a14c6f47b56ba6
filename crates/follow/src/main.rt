// A log as it comes: plant.txt and rule.txt of a folder, and the log from standard input, a lamp line for each event as soon as its line is whole. It is
// thin as `program` is: the calls decide.
#![tactic(auto)]

ghost use Rattle.std.specs.Prelude.{◌≡◌, ◌≤◌, ◌<◌, length, true};
ghost use Rattle.std.specs.Option.{IfSome};
ghost use Rattle.opened.specs.Lent.{Lent};
ghost use Rattle.scraps.specs.Calls.{longest};
ghost use Rattle.follow.specs.AtOnce.{events_in, goes_on, bytes_heard, Onward};

use answers::{Kind, Refusal};
use controller::LogAnswer;
use pairs::Pairs;
use plant::{Plant, Table};
use program::given::{read_plant, read_rule};
use program::said::{refuse, show};
use radio::{Form, Radio};
use sides::Monitor;
use std::io::Read;
use std::rt::Files;
use syntax::Rule;

// The folder that the argument names, or this one.
fn main(rt: HostRuntime) {
    let mut folder = files::path_buffer();
    let len = files::asked_folder(&rt, &mut folder);
    with_folder(&rt, &mut rt.stdin(), &folder[..len]);
}

// plant.txt by 14, 3, 2.
fn with_folder<R: Files + Print, I: Read>(rt: &R, input: &mut I, folder: &[u8]) {
    let read = read_plant(rt, folder);
    match read.outcome {
        Err(refusal) => refuse(rt, refusal),
        Ok(()) => with_table(rt, input, folder, read.table),
    }
}

// Of the table, as many parts are lent as it counts.
fn with_table<R: Files + Print, I: Read>(rt: &R, input: &mut I, folder: &[u8], table: Table)
    requires { Lent table }
{
    let plant = table.plant;
    with_parts(
        rt,
        input,
        folder,
        plant,
        &table.fair[..plant.just],
        &table.label[..plant.states],
        &table.next[..plant.states],
    );
}

// rule.txt by 14 and 4 to 8.
fn with_parts<R: Files + Print, I: Read>(
    rt: &R,
    input: &mut I,
    folder: &[u8],
    plant: Plant,
    fair: &[u64],
    label: &[u16],
    next: &[u64],
) {
    let read = read_rule(rt, folder, plant, fair, label, next);
    match read.outcome {
        Err(refusal) => refuse(rt, refusal),
        Ok(()) => with_rule(rt, input, plant, fair, label, next, read.rule),
    }
}

// The start line, and then the log.
fn with_rule<P: Print, I: Read>(
    to: &P,
    input: &mut I,
    plant: Plant,
    fair: &[u64],
    label: &[u16],
    next: &[u64],
    rule: Rule,
) {
    let live = live::prepare(plant, fair, label, next, rule).live;
    let opened = monitor::open(plant, fair, label, next, rule, live);
    match opened.answer {
        Err(refusal) => refuse(to, refusal),
        Ok(lamp) => {
            show(to, report::start_line(lamp));
            follow(
                to,
                input,
                plant,
                fair,
                label,
                next,
                rule,
                live,
                silent(opened.monitor),
            );
        }
    }
}

// The radio that has heard nothing.
fn silent(monitor: Monitor) -> Radio
    ensures { bytes_heard result ≡ 0 }
{
    Radio {
        part: [0; 40],
        len: 0,
        start: 0,
        form: Form::Unknown,
        standing: Ok(()),
        monitor,
    }
}

// Scrap after scrap. It comes to an end, since the log gets longer by each and may not have more bytes than a log may.
fn follow<P: Print, I: Read>(
    to: &P,
    input: &mut I,
    plant: Plant,
    fair: &[u64],
    label: &[u16],
    next: &[u64],
    rule: Rule,
    live: Pairs,
    radio: Radio,
)
    requires { bytes_heard radio ≤ longest }
{
    let mut now = radio;
    while let Some(behind) = listen(to, input, plant, fair, label, next, rule, live, now) {
        now = behind;
    }
}

// What the input has now, at most 20 bytes: no line is shorter, so at most one ends, and the lamp behind it is shown before more is read.
// The radio behind it, if there is more to listen to. A log that can no longer be read is 14.
fn listen<P: Print, I: Read>(
    to: &P,
    input: &mut I,
    plant: Plant,
    fair: &[u64],
    label: &[u16],
    next: &[u64],
    rule: Rule,
    live: Pairs,
    radio: Radio,
) -> Option<Radio>
    ensures { IfSome result (λ behind. Onward radio true behind) }
{
    let mut scrap = [0u8; 20];
    match input.read(&mut scrap) {
        Ok(0) => {
            end(
                to,
                scraps::finish(plant, fair, label, next, rule, live, radio),
            );
            None
        }
        Ok(len) => hear(
            to,
            plant,
            fair,
            label,
            next,
            rule,
            live,
            radio,
            &scrap[..len],
        ),
        Err(_) => {
            refuse(to, Refusal::at(Kind::File, 0));
            None
        }
    }
}

// The lamp behind a scrap, if it ends an event's line.
fn hear<P: Print>(
    to: &P,
    plant: Plant,
    fair: &[u64],
    label: &[u16],
    next: &[u64],
    rule: Rule,
    live: Pairs,
    radio: Radio,
    scrap: &[u8],
) -> Option<Radio>
    requires { (0 < length scrap.now) × (length scrap.now ≤ 20) }
    ensures { IfSome result (λ behind. Onward radio true behind) }
{
    let mut verdicts = [0u8; 20];
    let taken = scraps::take(
        plant,
        fair,
        label,
        next,
        rule,
        live,
        radio,
        scrap,
        &mut verdicts,
    );
    if has_event(taken.answer) {
        tell(to, taken.radio.monitor);
    }
    if goes_on(to, taken.answer) {
        Some(taken.radio)
    } else {
        None
    }
}

// Whether an event was answered, also before a refusal. There was no second one, whose lamp would be left out.
fn has_event(answer: LogAnswer) -> bool
    requires { events_in answer ≤ 1 }
{
    match answer {
        LogAnswer::Watched(events) => 0 < events.count,
        LogAnswer::Stopped(stop) => 0 < stop.event,
        LogAnswer::Refused(_) => false,
    }
}

// A refusal is written, and ends the log.
fn goes_on<P: Print>(to: &P, answer: LogAnswer) -> bool
    ensures { result ≡ goes_on answer }
{
    match answer {
        LogAnswer::Watched(_) => true,
        LogAnswer::Stopped(stop) => {
            refuse(to, stop.refusal);
            false
        }
        LogAnswer::Refused(refusal) => {
            refuse(to, refusal);
            false
        }
    }
}

// The lamp behind an event, whose number is the one before that expected.
fn tell<P: Print>(to: &P, monitor: Monitor) {
    let number = monitor.expected.saturating_sub(1) as usize;
    show(to, report::lamp_line(number, advance::lamp(monitor)));
}

// The end: a refusal is written.
fn end<P: Print>(to: &P, outcome: Result<(), Refusal>) {
    if let Err(refusal) = outcome {
        refuse(to, refusal);
    }
}
