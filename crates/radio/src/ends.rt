// A line that is whole: its event is taken, or refused at the line's offset in the whole log.
ghost use Rattle.std.specs.Prelude.{◌≡◌, ◌+◌, ◌^◌, ◌≤◌, ◌<◌, length};
ghost use Rattle.text.specs.Number.{width_of};
ghost use Rattle.event_numbers.specs.Numbers.{number_of};
ghost use Rattle.sides.specs.Sides.{taken_in};
ghost use Rattle.radio.specs.Kept.{turn_by, ways_by, ended_turn, turned_of};

use crate::Radio;
use crate::line::form_of;
use advance::{lamp, take};
use answers::Refusal;
use event_log::Event;
use event_numbers::{check_event, missing, number_of};
use plant::Plant;
use sides::Monitor;

// The radio behind a line, and the verdict.
#[derive(Clone, Copy)]
pub struct Turned {
    pub radio: Radio,
    pub lit: Option<u8>,
}

// An event whose number is in turn, behind those that are missing before it.
fn moved<'a>(
    label: &[u16],
    next: &[u64],
    leave: &'a [u64; 1024],
    enter: &'a [u64; 1024],
    holds: &'a [u64; 64],
    count: usize,
    live: &[u64; 64],
    monitor: Monitor,
    event: Event,
) -> Monitor
    requires { (length label.now ≤ 64) × (count ≤ 64) × (number_of event.num monitor.expected < 2 ^ 32) }
    ensures { result ≡ taken_in label.now next.now (ways_by leave.now enter.now holds.now count) live.now monitor event }
{
    let mut now = monitor;
    let number = number_of(event.num, now.expected);
    let gap = missing(now.seen, now.expected, number);
    now.expected = number + 1;
    take(
        label, next, leave, enter, holds, count, live, now, gap, event,
    )
}

// The event of the line that is kept whole.
fn ended<'a>(
    plant: Plant,
    label: &[u16],
    next: &[u64],
    leave: &'a [u64; 1024],
    enter: &'a [u64; 1024],
    holds: &'a [u64; 64],
    count: usize,
    live: &[u64; 64],
    radio: Radio,
    line: &[u8],
) -> Turned
    requires { (length label.now ≤ 64) × (count ≤ 64) × (radio.start + length line.now < 2 ^ 64) }
    ensures { result ≡ ended_turn (width_of plant.props)
        (turn_by plant label.now next.now leave.now enter.now holds.now count live.now) radio line.now }
{
    let event = event_log::event_at(line, 0, plant.props);
    let monitor = radio.monitor;
    match check_event(event, plant.props, monitor.seen, monitor.expected) {
        Err(refusal) => Turned {
            radio: radio.stopped(Refusal::at(refusal.kind, radio.start)),
            lit: None,
        },
        Ok(()) => {
            let now = moved(
                label, next, leave, enter, holds, count, live, monitor, event,
            );
            let shown = lamp(now);
            let behind = Radio {
                part: [0; 40],
                len: 0,
                start: radio.start + line.len(),
                form: form_of(line),
                standing: Ok(()),
                monitor: now,
            };
            Turned {
                radio: behind,
                lit: Some(shown.verdict.number()),
            }
        }
    }
}

// A line that is not whole is left as it is.
pub fn end_line<'a>(
    plant: Plant,
    label: &[u16],
    next: &[u64],
    leave: &'a [u64; 1024],
    enter: &'a [u64; 1024],
    holds: &'a [u64; 64],
    count: usize,
    live: &[u64; 64],
    radio: Radio,
    whole: bool,
) -> Turned
    requires { (length label.now ≤ 64) × (count ≤ 64) × (radio.len ≤ 40) × (radio.start + radio.len < 2 ^ 64) × (length radio.part ≡ 40) }
    ensures { result ≡ turned_of (width_of plant.props)
        (turn_by plant label.now next.now leave.now enter.now holds.now count live.now) whole radio }
{
    if whole {
        return ended(
            plant,
            label,
            next,
            leave,
            enter,
            holds,
            count,
            live,
            radio,
            &radio.part[..radio.len],
        );
    }
    Turned { radio, lit: None }
}
