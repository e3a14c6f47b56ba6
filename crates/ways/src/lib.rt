// What a rule and the labels of a table say, worked out once: all that preparing, the monitor and a witness go by.
#![tactic(auto)]

ghost use Rattle.std.specs.Prelude.{◌≡◌, ◌≤◌};
ghost use Rattle.truth.specs.Ready.{Ready};
ghost use Rattle.ways.specs.Ways.{ways_of, move_ways_from, move_ways_in, restart_ways_in};

use leads::halves::{entering, leaving};
use syntax::Rule;
use truth::tables::{
    MoveTables, RestartTables, Tables, move_tables_of, restart_tables_of, tables_of,
};

#[derive(Clone, Copy, Debug, PartialEq, Eq)]
pub struct Ways {
    // how many temporal parts the rule has, and how many valuations they have
    pub parts: usize,
    pub count: usize,
    // what a move asks of the state that it leaves, and of the one that it enters
    pub leave: [u64; 1024],
    pub enter: [u64; 1024],
    // where a part is settled
    pub settled: [u64; 384],
    // where the rule itself holds
    pub holds: [u64; 64],
}

// Those of them that a move goes by.
#[derive(Clone, Copy, Debug, PartialEq, Eq)]
pub struct MoveWays {
    pub count: usize,
    pub leave: [u64; 1024],
    pub enter: [u64; 1024],
}

// And those that a restart goes by.
#[derive(Clone, Copy, Debug, PartialEq, Eq)]
pub struct RestartWays {
    pub moves: MoveWays,
    pub holds: [u64; 64],
}

// The one maker, for prepare, witness and whatever takes many steps. A single step asks for less: `move_ways_of` or `restart_ways_of`, and an
// opening for `truth::tables::holds_of`.
#[tactic(auto, using(truth_laws::proofs::TablesRight::few_parts, crate::specs::Ways::ways_whole))]
pub fn ways_of(label: &[u16], rule: Rule) -> Ways
    requires { Ready label.now rule }
    ensures { result ≡ ways_of label.now rule }
{
    let Tables {
        parts,
        nexts,
        low,
        high,
        operand,
        settled,
        holds,
    } = tables_of(label, rule);
    let leave = leaving(parts, &low, &high).words;
    let enter = entering(parts, nexts, &operand).words;
    Ways {
        parts,
        count: moves::valuations(parts),
        leave,
        enter,
        settled,
        holds,
    }
}

// From the tables of a rule's parts.
#[tactic(auto, unfolding(crate::specs::Ways::move_ways_from))]
fn move_ways_from(tables: &MoveTables) -> MoveWays
    requires { tables.now.parts ≤ 6 }
    ensures { result ≡ move_ways_from tables.now }
{
    let leave = leaving(tables.parts, &tables.low, &tables.high).words;
    let enter = entering(tables.parts, tables.nexts, &tables.operand).words;
    MoveWays {
        count: moves::valuations(tables.parts),
        leave,
        enter,
    }
}

// What a single move works out: with what it has no use for, a step would take a tenth more.
#[tactic(auto, using(truth_laws::proofs::TablesRight::few_parts, crate::specs::Ways::move_ways_whole))]
pub fn move_ways_of(label: &[u16], rule: Rule) -> MoveWays
    requires { Ready label.now rule }
    ensures { result ≡ move_ways_in (ways_of label.now rule) }
{
    move_ways_from(&move_tables_of(label, rule))
}

// What a single restart works out.
#[tactic(auto, using(truth_laws::proofs::TablesRight::few_parts, crate::specs::Ways::restart_ways_whole))]
pub fn restart_ways_of(label: &[u16], rule: Rule) -> RestartWays
    requires { Ready label.now rule }
    ensures { result ≡ restart_ways_in (ways_of label.now rule) }
{
    let RestartTables { moves, holds } = restart_tables_of(label, rule);
    RestartWays {
        moves: move_ways_from(&moves),
        holds,
    }
}
