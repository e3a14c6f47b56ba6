// Where a log ends: the calls, one after the other, and the log by the one loop over its lines.
ghost use Rattle.std.specs.Prelude.{◌≡◌, Ok};
ghost use Rattle.live.specs.Prepare.{prepared_of};

use answers::Refusal;
use pairs::Pairs;
use plant::Plant;
use sides::Monitor;
use syntax::Rule;

// A refusal, or the monitor behind the last event.
#[derive(Clone, Copy)]
pub struct End {
    pub outcome: Result<(), Refusal>,
    pub monitor: Monitor,
}

// Prepares, opens and walks through the whole log; of a log that is refused there is no monitor to go on from.
pub fn play(
    plant: Plant,
    fair: &[u64],
    label: &[u16],
    next: &[u64],
    rule: Rule,
    text: &[u8],
) -> End {
    let prepared = live::prepare(plant, fair, label, next, rule);
    match prepared.outcome {
        Err(refusal) => End {
            outcome: Err(refusal),
            monitor: Monitor::NONE,
        },
        Ok(()) => from_start(plant, fair, label, next, rule, prepared.live, text),
    }
}

// With the live pairs of an accepted table and rule. No lamp is asked for, so the buffers have next to no room.
fn from_start(
    plant: Plant,
    fair: &[u64],
    label: &[u16],
    next: &[u64],
    rule: Rule,
    live: Pairs,
    text: &[u8],
) -> End
    requires { ((prepared_of plant fair.now label.now next.now rule).outcome ≡ Ok tt) × (live ≡ (prepared_of plant fair.now label.now next.now rule).live) }
{
    let opened = monitor::open(plant, fair, label, next, rule, live);
    let mut verdicts = [0u8; 1];
    let mut lefts = [0u8; 1];
    let mut numbers = [0u64; 1];
    let went = course::follow(
        plant,
        fair,
        label,
        next,
        rule,
        live,
        opened.monitor,
        text,
        &mut verdicts,
        &mut lefts,
        &mut numbers,
    );
    let offset = went.done * event_log::line_bytes(text, plant.props);
    End {
        outcome: transcript::at_line(went.outcome, offset),
        monitor: went.monitor,
    }
}
