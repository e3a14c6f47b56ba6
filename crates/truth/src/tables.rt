// All that moves go by, of labels and a rule.
ghost use Rattle.std.specs.Prelude.{◌≡◌};
ghost use Rattle.truth.specs.Ready.{Ready};
ghost use Rattle.truth.specs.Tables.{words_by, rows_by, move_tables_from, move_tables_in, restart_tables_in, tables_from, tables_of};

use crate::nodes::{node_words, rule_words};
use crate::rows::{Asked, High, Low, Operand, Settled, rows_of};
use shape::{Shape, shape_of};
use syntax::Rule;

// What a move goes by.
#[derive(Clone, Copy, Debug, PartialEq, Eq)]
pub struct MoveTables {
    pub parts: usize,
    // which parts are X
    pub nexts: u64,
    // what a part unfolds to where its value next is 0, or 1
    pub low: [u64; 384],
    pub high: [u64; 384],
    // the operand of an X
    pub operand: [u64; 384],
}

// What a restart goes by: that, and where the rule itself holds.
#[derive(Clone, Copy, Debug, PartialEq, Eq)]
pub struct RestartTables {
    pub moves: MoveTables,
    pub holds: [u64; 64],
}

// All tables: a restart's, and where parts are settled, by which goals go.
#[derive(Clone, Copy, Debug, PartialEq, Eq)]
pub struct Tables {
    pub parts: usize,
    pub nexts: u64,
    pub low: [u64; 384],
    pub high: [u64; 384],
    pub operand: [u64; 384],
    // where a part is settled
    pub settled: [u64; 384],
    // where the rule itself holds
    pub holds: [u64; 64],
}

// Of these, where the rule itself holds.
#[derive(Clone, Copy, Debug, PartialEq, Eq)]
pub struct Holds {
    pub words: [u64; 64],
}

// The words of all places of a rule, by its shape.
fn words_of(label: &[u16], rule: Rule, shape: &Shape) -> [u64; 2112]
    requires { Ready label.now rule }
    ensures { result ≡ words_by label.now rule shape.now }
{
    node_words(rule, label, &shape.begins, &shape.numbers)
}

// One table of the parts.
fn row<A: Asked>(shape: &Shape, words: &[u64; 2112]) -> [u64; 384]
    ensures { result ≡ rows_by A.asked shape.now words.now }
{
    rows_of::<A>(&shape.kinds, &shape.begins, &shape.order, words)
}

// From a rule's shape and the words of its places.
#[tactic(auto, unfolding(crate::specs::Tables::move_tables_from))]
fn move_tables_from(shape: &Shape, words: &[u64; 2112]) -> MoveTables
    ensures { result ≡ move_tables_from shape.now words.now }
{
    MoveTables {
        parts: shape.parts,
        nexts: shape.nexts,
        low: row::<Low>(shape, words),
        high: row::<High>(shape, words),
        operand: row::<Operand>(shape, words),
    }
}

#[tactic(auto, unfolding(crate::specs::Tables::move_tables_from, crate::specs::Tables::tables_from))]
fn tables_from(shape: &Shape, words: &[u64; 2112], len: usize) -> Tables
    ensures { result ≡ tables_from shape.now words.now len }
{
    let MoveTables {
        parts,
        nexts,
        low,
        high,
        operand,
    } = move_tables_from(shape, words);
    let settled = row::<Settled>(shape, words);
    let holds = rule_words(words, len);
    Tables {
        parts,
        nexts,
        low,
        high,
        operand,
        settled,
        holds,
    }
}

// What a step works out of the labels and the rule that it is given.
#[tactic(auto, using(crate::specs::Whole::move_tables_whole))]
pub fn move_tables_of(label: &[u16], rule: Rule) -> MoveTables
    requires { Ready label.now rule }
    ensures { result ≡ move_tables_in (tables_of label.now rule) }
{
    let shape = shape_of(rule);
    let words = words_of(label, rule, &shape);
    move_tables_from(&shape, &words)
}

// What a restart works out of them.
pub fn restart_tables_of(label: &[u16], rule: Rule) -> RestartTables
    requires { Ready label.now rule }
    ensures { result ≡ restart_tables_in (tables_of label.now rule) }
{
    let shape = shape_of(rule);
    let words = words_of(label, rule, &shape);
    RestartTables {
        moves: move_tables_from(&shape, &words),
        holds: rule_words(&words, rule.len),
    }
}

// What an opening works out of them: where the rule itself holds.
#[tactic(auto, using(crate::specs::Whole::holds_whole))]
pub fn holds_of(label: &[u16], rule: Rule) -> Holds
    requires { Ready label.now rule }
    ensures { result.words ≡ (tables_of label.now rule).holds }
{
    let shape = shape_of(rule);
    let words = words_of(label, rule, &shape);
    Holds {
        words: rule_words(&words, rule.len),
    }
}

// What the other calls work out of them.
#[tactic(auto, using(crate::specs::Whole::tables_whole))]
pub fn tables_of(label: &[u16], rule: Rule) -> Tables
    requires { Ready label.now rule }
    ensures { result ≡ tables_of label.now rule }
{
    let shape = shape_of(rule);
    let words = words_of(label, rule, &shape);
    tables_from(&shape, &words, rule.len)
}
