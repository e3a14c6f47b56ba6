// The box for C programs, as they link it: the functions that include/jugastilum.h declares. Each is the function of that name in the library `jugastilum`, and promises
// what that one does.
#![tactic(auto)]

mod closings;
mod day_sheets;
mod machine_calls;
mod radios;
mod reports;
mod sheets;
mod tables;

ghost use Rattle.std.specs.Prelude.{◌≡◌, not, eqb, length};
ghost use Rattle.words.specs.Over.{over};
ghost use Rattle.event_log.specs.declared.Num.TheVariants.{Expected, Given};
ghost use Rattle.opened.specs.Opened.{opened_of};
ghost use Rattle.controller.specs.Whole.{heard_of};
ghost use Rattle.slate.specs.Box.{held_in};
ghost use Rattle.told.specs.Told.{shown_as, heard_as};
ghost use Rattle.box_calls.specs.Calls.{opened_shown, box_opened, looked_in, stepped_in, box_after};
ghost use Rattle.jugastilum.specs.Calls.{event_of, GoesOn};

use told::Answer;

// A whole log: a verdict byte for each event.
#[unsafe(no_mangle)]
pub extern "C" fn jug_watch_log(
    table: &[u8],
    rule: &[u8],
    log: &[u8],
    verdicts: &mut [u8],
) -> Answer
    ensures answer { result ≡ heard_as (heard_of table.now rule.now log.now (length verdicts.old)).answer }
    ensures verdicts { verdicts.new ≡ over
        (heard_of table.now rule.now log.now (length verdicts.old)).bytes verdicts.old }
{
    jugastilum::jug_watch_log(table, rule, log, verdicts)
}

// Reads a table and a rule, and opens a monitor in the box, whatever was in it.
#[unsafe(no_mangle)]
pub extern "C" fn jug_open(table: &[u8], rule: &[u8], words: &mut [u64; 384]) -> Answer
    ensures answer { result ≡ shown_as (opened_shown (opened_of table.now rule.now)) }
    ensures words { words.new ≡ box_opened words.old (opened_of table.now rule.now) }
{
    jugastilum::jug_open(table, rule, words)
}

// What the lamp shows for the monitor in the box.
#[unsafe(no_mangle)]
pub extern "C" fn jug_look(words: &[u64; 384]) -> Answer
    ensures { result ≡ shown_as (looked_in (held_in words.now)) }
{
    jugastilum::jug_look(words)
}

// One event, which has the number that is expected.
#[unsafe(no_mangle)]
pub extern "C" fn jug_step(words: &mut [u64; 384], see: u16, val: u16, restart: u8) -> Answer
    ensures answer { result ≡ shown_as (stepped_in (held_in words.old) (event_of Expected see val restart)).answer }
    ensures words { words.new ≡ box_after words.old (stepped_in (held_in words.old) (event_of Expected see val restart)) }
{
    jugastilum::jug_step(words, see, val, restart)
}

// One event with its number.
#[unsafe(no_mangle)]
pub extern "C" fn jug_step_numbered(
    words: &mut [u64; 384],
    num: u32,
    see: u16,
    val: u16,
    restart: u8,
) -> Answer
    ensures answer { result ≡ shown_as (stepped_in (held_in words.old) (event_of (Given num) see val restart)).answer }
    ensures words { words.new ≡ box_after words.old (stepped_in (held_in words.old) (event_of (Given num) see val restart)) }
{
    jugastilum::jug_step_numbered(words, num, see, val, restart)
}

// How a run goes on that keeps the rule, or that breaks it where `keeps` is 0.
#[unsafe(no_mangle)]
pub extern "C" fn jug_goes_on(words: &[u64; 384], keeps: u8, states: &mut [u8]) -> Answer
    ensures { GoesOn (held_in words.now) (not (eqb keeps 0)) states.old states.new result }
{
    jugastilum::jug_goes_on(words, keeps, states)
}
