// A witness: how a run of the asked kind can go on, from a pair that the monitor holds.
#![tactic(auto)]

mod run;

ghost use Rattle.std.specs.Prelude.{◌≡◌};
ghost use Rattle.model.specs.Monitor as model;
ghost use Rattle.sides.specs.Held.{model_of};
ghost use Rattle.witness.specs.Calls.{asked_of, Answered};

use answers::{Kind, Refusal};
use monitor::Monitor;
use pairs::Pairs;
use plant::Plant;
use syntax::Rule;
use walk::Lengths;

// The pairs of the runs of the asked kind.
fn side(monitor: Monitor, keeps: bool) -> Pairs
    ensures { result.words ≡ model.side (model_of monitor) keeps }
{
    if keeps { monitor.keeps } else { monitor.breaks }
}

// Checks 1, 2, 9 and 11.
fn check_asked(
    plant: Plant,
    fair: &[u64],
    label: &[u16],
    next: &[u64],
    rule: Rule,
    monitor: Monitor,
    room: usize,
) -> Result<(), Refusal>
    ensures { result ≡ asked_of plant fair.now label.now next.now rule monitor room }
{
    monitor::look(plant, fair, label, next, rule, monitor)?;
    if room < Lengths::ROOM {
        return Err(Refusal::at(Kind::Room, 0));
    }
    Ok(())
}

// The states of the stem are written from the first byte on, those of the loop behind them.
pub fn witness(
    plant: Plant,
    fair: &[u64],
    label: &[u16],
    next: &[u64],
    rule: Rule,
    monitor: Monitor,
    keeps: bool,
    buffer: &mut [u8],
) -> Result<Lengths, Refusal>
    ensures { Answered plant fair.now label.now next.now rule monitor keeps buffer.old buffer.new result }
{
    check_asked(plant, fair, label, next, rule, monitor, buffer.len())?;
    let asked = side(monitor, keeps);
    run::write_run(plant, fair, label, next, rule, &asked.words, buffer)
}
