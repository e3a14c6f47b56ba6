// The monitor lent, to be stepped where it stands.
#![tactic(auto)]

ghost use Rattle.std.specs.Prelude.{◌≡◌};
ghost use Rattle.monitor.specs.Calls.{step_call};

use answers::Answer;
use event_log::Event;
use monitor::Monitor;
use pairs::Pairs;
use plant::Plant;
use syntax::Rule;

// The step by value does the work: its monitor is stored where the lent one was. So the answers are the same, and after a refusal the monitor is as it was.
pub fn step_in_place(
    plant: Plant,
    fair: &[u64],
    label: &[u16],
    next: &[u64],
    rule: Rule,
    live: Pairs,
    monitor: &mut Monitor,
    event: Event,
) -> Answer
    ensures { (result ≡ (step_call plant fair.now label.now next.now rule live monitor.old event).answer)
        × (monitor.new ≡ (step_call plant fair.now label.now next.now rule live monitor.old event).monitor) }
{
    let watched = monitor::step(plant, fair, label, next, rule, live, *monitor, event);
    *monitor = watched.monitor;
    watched.answer
}
