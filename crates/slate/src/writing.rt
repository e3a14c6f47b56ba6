// The words for what is held.
ghost use Rattle.std.specs.Prelude.{◌≡◌, ◌<◌};
ghost use Rattle.slate.specs.Box.{code_of, plant_word, table_word, rule_word, monitor_word, held_word, stored_of, with_monitor};

use crate::Held;
use plant::{Plant, Table};
use sides::Monitor;
use std::array;
use syntax::{Op, Rule};

// The code of an operator.
fn code_of(op: Op) -> u64
    ensures { result ≡ code_of op }
{
    match op {
        Op::False => 0,
        Op::True => 1,
        Op::Not => 2,
        Op::Next => 3,
        Op::Finally => 4,
        Op::Globally => 5,
        Op::Until => 6,
        Op::Release => 7,
        Op::And => 8,
        Op::Or => 9,
        Op::Implies => 10,
        Op::Prop(k) => 11 + u64::from(k),
    }
}

#[tactic(auto, unfolding(crate::specs::Box::plant_word))]
fn plant_word(plant: Plant, at: usize) -> u64
    ensures { result ≡ plant_word plant at }
{
    match at {
        0 => plant.props as u64,
        1 => plant.states as u64,
        2 => plant.start,
        _ => plant.just as u64,
    }
}

// What is held is lent: handed over by value it would be copied for each word.
#[tactic(auto, unfolding(crate::specs::Box::table_word))]
fn table_word(table: &Table, at: usize) -> u64
    requires { at < 136 }
    ensures { result ≡ table_word table.now at }
{
    match at {
        0..Held::FAIR => plant_word(table.plant, at),
        Held::FAIR..Held::LABEL => table.fair[at - Held::FAIR],
        Held::LABEL..Held::NEXT => u64::from(table.label[at - Held::LABEL]),
        _ => table.next[at - Held::NEXT],
    }
}

// From the rule's length on.
#[tactic(auto, unfolding(crate::specs::Box::rule_word))]
fn rule_word(rule: &Rule, at: usize) -> u64
    requires { at < 33 }
    ensures { result ≡ rule_word rule.now at }
{
    match at {
        0 => rule.len as u64,
        _ => code_of(rule.nodes[at - 1].op),
    }
}

// From whether an event came on.
#[tactic(auto, unfolding(crate::specs::Box::monitor_word))]
fn monitor_word(monitor: &Monitor, at: usize) -> u64
    requires { at < 130 }
    ensures { result ≡ monitor_word monitor.now at }
{
    match at {
        0 => u64::from(monitor.seen),
        1 => monitor.expected,
        2..66 => monitor.keeps.words[at - 2],
        _ => monitor.breaks.words[at - 66],
    }
}

#[tactic(auto, unfolding(crate::specs::Box::held_word))]
fn held_word(held: &Held, at: usize) -> u64
    ensures { result ≡ held_word held.now at }
{
    match at {
        0..Held::LEN => table_word(&held.table, at),
        Held::LEN..Held::LIVE => rule_word(&held.rule, at - Held::LEN),
        Held::LIVE..Held::SEEN => held.live.words[at - Held::LIVE],
        Held::SEEN..Held::BEHIND => monitor_word(&held.monitor, at - Held::SEEN),
        _ => 0,
    }
}

// A box that holds this.
pub fn stored(held: Held) -> [u64; 384]
    ensures { result ≡ stored_of held }
{
    array::from_fn(|at| held_word(&held, at))
}

// The same box with another monitor, which is laid into a copy of the box: to choose each word of the box anew would take longer.
pub fn with_monitor(words: [u64; 384], monitor: Monitor) -> [u64; 384]
    ensures { result ≡ with_monitor words monitor }
{
    let laid: [u64; 130] = array::from_fn(|at| monitor_word(&monitor, at));
    let mut changed = words;
    changed[Held::SEEN..Held::BEHIND].copy_from_slice(&laid);
    changed
}
