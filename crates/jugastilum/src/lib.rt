// The box for C programs: the functions that include/jugastilum.h declares, which the crate jugastilum_c hands to C. Each makes the call that it stands for, and tells its answer in four numbers.
#![tactic(auto)]

mod closings;
mod day_sheets;
mod machine_calls;
mod radios;
mod reports;
mod sheets;
mod tables;

ghost use Rattle.std.specs.Prelude.{◌≡◌, not, eqb, length};
ghost use Rattle.words.specs.Over.{over};
ghost use Rattle.event_log.specs.declared.Num.TheVariants.{Expected, Given};
ghost use Rattle.opened.specs.Opened.{opened_of};
ghost use Rattle.controller.specs.Whole.{heard_of};
ghost use Rattle.slate.specs.Box.{held_in};
ghost use Rattle.told.specs.Told.{shown_as, heard_as};
ghost use Rattle.box_calls.specs.Calls.{opened_shown, box_opened, looked_in, stepped_in, box_after};
ghost use Rattle.jugastilum.specs.Calls.{event_of, GoesOn};

pub use closings::jug_close_log;
pub use day_sheets::{jug_day_sheet, jug_note};
use event_log::{Event, Num};
pub use machine_calls::{jug_machine, jug_machine_step, jug_machine_steps};
pub use radios::{jug_end, jug_take};
pub use reports::jug_judge;
pub use sheets::{jug_keep_sheet, jug_kept_sheet, jug_setting};
pub use tables::jug_write_table;
use told::Answer;

// An event as the header hands it in: a restart unless the byte is 0.
fn event_of(num: Num, see: u16, val: u16, restart: u8) -> Event
    ensures { result ≡ event_of num see val restart }
{
    Event {
        num,
        see,
        val,
        new: restart != 0,
    }
}

// A whole log: a verdict byte for each event.
pub fn jug_watch_log(table: &[u8], rule: &[u8], log: &[u8], verdicts: &mut [u8]) -> Answer
    ensures answer { result ≡ heard_as (heard_of table.now rule.now log.now (length verdicts.old)).answer }
    ensures verdicts { verdicts.new ≡ over
        (heard_of table.now rule.now log.now (length verdicts.old)).bytes verdicts.old }
{
    controller::watch_log(table, rule, log, verdicts).into()
}

// Reads a table and a rule, and opens a monitor in the box, whatever was in it.
pub fn jug_open(table: &[u8], rule: &[u8], words: &mut [u64; 384]) -> Answer
    ensures answer { result ≡ shown_as (opened_shown (opened_of table.now rule.now)) }
    ensures words { words.new ≡ box_opened words.old (opened_of table.now rule.now) }
{
    box_calls::open(table, rule, words).into()
}

// What the lamp shows for the monitor in the box.
pub fn jug_look(words: &[u64; 384]) -> Answer
    ensures { result ≡ shown_as (looked_in (held_in words.now)) }
{
    box_calls::look(words).into()
}

// One event, which has the number that is expected.
pub fn jug_step(words: &mut [u64; 384], see: u16, val: u16, restart: u8) -> Answer
    ensures answer { result ≡ shown_as (stepped_in (held_in words.old) (event_of Expected see val restart)).answer }
    ensures words { words.new ≡ box_after words.old (stepped_in (held_in words.old) (event_of Expected see val restart)) }
{
    box_calls::step(words, event_of(Num::Expected, see, val, restart)).into()
}

// One event with its number.
pub fn jug_step_numbered(
    words: &mut [u64; 384],
    num: u32,
    see: u16,
    val: u16,
    restart: u8,
) -> Answer
    ensures answer { result ≡ shown_as (stepped_in (held_in words.old) (event_of (Given num) see val restart)).answer }
    ensures words { words.new ≡ box_after words.old (stepped_in (held_in words.old) (event_of (Given num) see val restart)) }
{
    box_calls::step(words, event_of(Num::Given(num), see, val, restart)).into()
}

// How a run goes on that keeps the rule, or that breaks it where `keeps` is 0.
pub fn jug_goes_on(words: &[u64; 384], keeps: u8, states: &mut [u8]) -> Answer
    ensures { GoesOn (held_in words.now) (not (eqb keeps 0)) states.old states.new result }
{
    box_calls::goes_on(words, keeps != 0, states).into()
}
