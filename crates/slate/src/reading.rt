// What the words say.
ghost use Rattle.std.specs.Prelude.{◌≡◌, ◌≤◌};
ghost use Rattle.slate.specs.Box.{can_be, fits_in, op_of, labels_in, words_in, nodes_in, props_in, table_in, rule_in, monitor_in, held_in};

use crate::Held;
use pairs::Pairs;
use plant::{Plant, Table};
use sides::Monitor;
use std::array;
use syntax::{Node, Op, Rule};

// Whether a word can stand at a place: a label has 16 bits, a node one of 267 codes, and whether an event came is 0 or 1. All other fields have 64 bits.
#[tactic(auto, unfolding(crate::specs::Box::can_be))]
fn can_be(at: usize, word: u64) -> bool
    ensures { result ≡ can_be at word }
{
    match at {
        Held::LABEL..Held::NEXT => word < 65536,
        Held::NODES..Held::LIVE => word < 267,
        Held::SEEN => word < 2,
        _ => true,
    }
}

// Whether no word is more than its field can hold.
fn fits(words: &[u64; 384]) -> bool
    ensures { result ≡ fits_in words.now }
{
    words.iter().enumerate().all(|(at, &word)| can_be(at, word))
}

// The operator of a code: eleven, and behind them the propositions.
#[tactic(auto, unfolding(crate::specs::Box::op_of))]
fn op_of(code: u64) -> Op
    ensures { result ≡ op_of code }
{
    match code {
        0 => Op::False,
        1 => Op::True,
        2 => Op::Not,
        3 => Op::Next,
        4 => Op::Finally,
        5 => Op::Globally,
        6 => Op::Until,
        7 => Op::Release,
        8 => Op::And,
        9 => Op::Or,
        10 => Op::Implies,
        _ => Op::Prop(((code - 11) % 256) as u8),
    }
}

fn labels_in(words: &[u64; 384]) -> [u16; 64]
    ensures { result ≡ labels_in words.now }
{
    array::from_fn(|i| (words[Held::LABEL + i] % 65536) as u16)
}

// The 64 words from one on.
fn words_in(words: &[u64; 384], from: usize) -> [u64; 64]
    requires { from ≤ 320 }
    ensures { result ≡ words_in words.now from }
{
    array::from_fn(|i| words[from + i])
}

fn nodes_in(words: &[u64; 384]) -> [Node; 32]
    ensures { result ≡ nodes_in words.now }
{
    array::from_fn(|i| Node {
        op: op_of(words[Held::NODES + i]),
    })
}

// How many propositions the table counts: none where a word is more than its field can hold.
#[tactic(auto, unfolding(crate::specs::Box::props_in))]
fn props_in(words: &[u64; 384]) -> u64
    ensures { result ≡ props_in words.now }
{
    if fits(words) { words[0] } else { 0 }
}

#[tactic(auto, unfolding(crate::specs::Box::table_in, words::specs::Below::list_below))]
fn table_in(words: &[u64; 384]) -> Table
    ensures { result ≡ table_in words.now }
{
    Table {
        plant: Plant {
            props: props_in(words) as usize,
            states: words[1] as usize,
            start: words[2],
            just: words[3] as usize,
        },
        fair: [words[4], words[5], words[6], words[7]],
        label: labels_in(words),
        next: words_in(words, Held::NEXT),
    }
}

#[tactic(auto, unfolding(crate::specs::Box::rule_in))]
fn rule_in(words: &[u64; 384]) -> Rule
    ensures { result ≡ rule_in words.now }
{
    Rule {
        len: words[Held::LEN] as usize,
        nodes: nodes_in(words),
    }
}

#[tactic(auto, unfolding(crate::specs::Box::monitor_in))]
fn monitor_in(words: &[u64; 384]) -> Monitor
    ensures { result ≡ monitor_in words.now }
{
    Monitor {
        seen: words[Held::SEEN] != 0,
        keeps: Pairs {
            words: words_in(words, Held::KEEPS),
        },
        breaks: Pairs {
            words: words_in(words, Held::BREAKS),
        },
        expected: words[Held::EXPECTED],
    }
}

// All that a box holds.
#[tactic(auto, unfolding(crate::specs::Box::held_in))]
pub fn held_in(words: [u64; 384]) -> Held
    ensures { result ≡ held_in words }
{
    Held {
        table: table_in(&words),
        rule: rule_in(&words),
        live: Pairs {
            words: words_in(&words, Held::LIVE),
        },
        monitor: monitor_in(&words),
    }
}
