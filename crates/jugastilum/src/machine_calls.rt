// A rule as a fixed machine.
ghost use Rattle.std.specs.Prelude.{◌≡◌, length};
ghost use Rattle.words.specs.Over.{over};
ghost use Rattle.event_log.specs.declared.Num.TheVariants.{Expected};
ghost use Rattle.machine_events.specs.Through.{through_of};
ghost use Rattle.machine_lookup.specs.Lookup.{looked_up};
ghost use Rattle.opened.specs.Opened.{opened_of};
ghost use Rattle.told.specs.Told.{looked_as, through_as};
ghost use Rattle.jugastilum.specs.Calls.{event_of, MachineFor};

use crate::event_of;
use event_log::Num;
use machine_events::look_through;
use machine_lookup::look_up;
use machine_texts::made_from;
use told::Answer;

// Reads a table and a rule, and writes the fixed machine that answers as their monitor does.
pub fn jug_machine(table: &[u8], rule: &[u8], work: &mut [u64], machine: &mut [u8]) -> Answer
    ensures { MachineFor (opened_of table.now rule.now) work.old work.new machine.old machine.new result }
{
    made_from(table, rule, work, machine).into()
}

// One event in the bytes of a machine: from a row to the next.
pub fn jug_machine_step(
    machine: &[u8],
    props: u64,
    row: u64,
    see: u16,
    val: u16,
    restart: u8,
) -> Answer
    ensures { result ≡ looked_as (looked_up machine.now props row (event_of Expected see val restart)) }
{
    let event = event_of(Num::Expected, see, val, restart);
    look_up(machine, props as usize, row as usize, event).into()
}

// Many events in the bytes of a machine, a byte each, and two bytes for what each shows.
pub fn jug_machine_steps(
    machine: &[u8],
    props: u64,
    row: u64,
    events: &[u8],
    shown: &mut [u8],
) -> Answer
    ensures answer { result ≡ through_as (through_of machine.now props row events.now (length shown.old)).through }
    ensures shown { shown.new ≡ over (through_of machine.now props row events.now (length shown.old)).shown shown.old }
{
    look_through(machine, props as usize, row as usize, events, shown).into()
}
