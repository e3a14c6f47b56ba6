// The calls on what a box holds: its words are read, the call is made, and what was accepted is stored. A refusal stores nothing.
#![tactic(auto)]

mod parts;

ghost use Rattle.std.specs.Prelude.{◌≡◌};
ghost use Rattle.pairs.specs.declared.Pairs.{Pairs};
ghost use Rattle.syntax.specs.declared.Rule.{Rule};
ghost use Rattle.walk.specs.declared.Lengths.{Lengths};
ghost use Rattle.opened.specs.Opened.{opened_of};
ghost use Rattle.slate.specs.Box.{held_in};
ghost use Rattle.box_calls.specs.Calls.{opened_shown, box_opened, looked_in, stepped_in, box_after, WentOn};

use answers::{Answer, Refusal};
use event_log::Event;
use monitor::Watched;
use opened::open_texts;
pub use parts::{fairs_of, states_of};
use slate::{Held, held_in};
use walk::Lengths;

// Reads a table and a rule, and opens a monitor in the box, whatever was in it.
pub fn open(table: &[u8], rule: &[u8], words: &mut [u64; 384]) -> Answer
    ensures answer { result ≡ opened_shown (opened_of table.now rule.now) }
    ensures words { words.new ≡ box_opened words.old (opened_of table.now rule.now) }
{
    let opened = open_texts(table, rule);
    opened.outcome?;
    *words = slate::stored(Held {
        table: opened.table,
        rule: opened.rule,
        live: opened.live,
        monitor: opened.monitor,
    });
    Ok(advance::lamp(opened.monitor))
}

// What the lamp shows for the monitor in the box.
#[tactic(auto, unfolding(crate::specs::Calls::looked_in))]
pub fn look(words: &[u64; 384]) -> Answer
    ensures { result ≡ looked_in (held_in words.now) }
{
    let held = held_in(*words);
    let states = states_of(held.table);
    monitor::look(
        held.table.plant,
        &held.table.fair[..fairs_of(held.table)],
        &held.table.label[..states],
        &held.table.next[..states],
        held.rule,
        held.monitor,
    )
}

// A step from what a box holds.
#[tactic(auto, unfolding(crate::specs::Calls::stepped_in))]
fn step_from(held: Held, event: Event) -> Watched
    ensures { result ≡ stepped_in held event }
{
    let states = states_of(held.table);
    monitor::step(
        held.table.plant,
        &held.table.fair[..fairs_of(held.table)],
        &held.table.label[..states],
        &held.table.next[..states],
        held.rule,
        held.live,
        held.monitor,
        event,
    )
}

// One event: the box gets the new monitor, and stays where the step is refused.
pub fn step(words: &mut [u64; 384], event: Event) -> Answer
    ensures answer { result ≡ (stepped_in (held_in words.old) event).answer }
    ensures words { words.new ≡ box_after words.old (stepped_in (held_in words.old) event) }
{
    let made = step_from(held_in(*words), event);
    if let Ok(_) = made.answer {
        *words = slate::with_monitor(*words, made.monitor);
    }
    made.answer
}

// How a run goes on that keeps the rule, or that breaks it.
pub fn goes_on(words: &[u64; 384], keeps: bool, states: &mut [u8]) -> Result<Lengths, Refusal>
    ensures { WentOn (held_in words.now) keeps states.old states.new result }
{
    let held = held_in(*words);
    let count = states_of(held.table);
    witness::witness(
        held.table.plant,
        &held.table.fair[..fairs_of(held.table)],
        &held.table.label[..count],
        &held.table.next[..count],
        held.rule,
        held.monitor,
        keeps,
        states,
    )
}
