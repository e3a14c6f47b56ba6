// Plant tables: handed in as the counts by value with the parts lent, read from a text as one value; and the check of both.
#![tactic(auto)]

mod table_text;

ghost use Rattle.std.specs.Prelude.{◌≡◌, ◌^◌, ◌≤◌, ltb};
ghost use Rattle.plant.specs.Table.{united, counts_of, bits_of, table_outcome, InRange};

use answers::{Kind, Refusal};
pub use table_text::read_table;

// State k has the weight 2^k in a set of states.
#[derive(Clone, Copy, Debug, PartialEq, Eq)]
pub struct Plant {
    pub props: usize,
    pub states: usize,
    pub start: u64,
    pub just: usize,
}

// The most propositions, states and fairness sets.
impl Plant {
    pub const PROPS: usize = 16;

    pub const STATES: usize = 64;

    pub const JUST: usize = 4;
}

// A table that was read, zero beyond the counts: a caller lends `&fair[..just]`, `&label[..states]` and `&next[..states]`.
#[derive(Clone, Copy, Debug, PartialEq, Eq)]
pub struct Table {
    pub plant: Plant,
    pub fair: [u64; 4],
    pub label: [u16; 64],
    pub next: [u64; 64],
}

impl Table {
    // The table that stands beside a refusal.
    pub const EMPTY: Table = Table {
        plant: Plant {
            props: 0,
            states: 0,
            start: 0,
            just: 0,
        },
        fair: [0; 4],
        label: [0; 64],
        next: [0; 64],
    };
}

#[derive(Clone, Copy, Debug, PartialEq, Eq)]
pub struct TableRead {
    pub outcome: Result<(), Refusal>,
    pub table: Table,
}

// Whether the members of a set are below n.
fn is_below(set: u64, n: usize) -> bool
    requires { (1 ≤ n) × (n ≤ 64) }
    ensures { result ≡ ltb set (2 ^ n) }
{
    set <= words::all(n)
}

// The union of all sets of states.
#[tactic(auto, using(crate::proofs::United::united_by_fold))]
fn united_sets(sets: &[u64]) -> u64
    ensures { result ≡ united sets.now }
{
    sets.iter().fold(0, |all, set| all | set)
}

// The union of all labels.
#[tactic(auto, using(crate::proofs::United::united_by_fold))]
fn united_labels(labels: &[u16]) -> u64
    ensures { result ≡ united labels.now }
{
    labels.iter().fold(0, |all, &label| all | u64::from(label))
}

// Whether the counts are in range, and the lent parts have their lengths.
fn counts_fit(plant: Plant, fair: usize, label: usize, next: usize) -> bool
    ensures { result ≡ counts_of plant fair label next }
{
    let props = 1 <= plant.props && plant.props <= Plant::PROPS;
    let states = 1 <= plant.states && plant.states <= Plant::STATES;
    let just = plant.just <= Plant::JUST && fair == plant.just;
    let parts = label == plant.states && next == plant.states;
    props && states && just && parts
}

// Whether each bit names a state or a proposition that there is: one test of all sets united.
fn bits_fit(plant: Plant, fair: &[u64], label: &[u16], next: &[u64]) -> bool
    requires { InRange plant }
    ensures { result ≡ bits_of plant fair.now label.now next.now }
{
    let states = plant.start | united_sets(fair) | united_sets(next);
    let props = united_labels(label);
    is_below(states, plant.states) && is_below(props, plant.props)
}

// The check of a table handed in: 1 before 2.
pub fn check_table(plant: Plant, fair: &[u64], label: &[u16], next: &[u64]) -> Result<(), Refusal>
    ensures { result ≡ table_outcome plant fair.now label.now next.now }
{
    if !counts_fit(plant, fair.len(), label.len(), next.len()) {
        return Err(Refusal::at(Kind::Counts, 0));
    }
    if !bits_fit(plant, fair, label, next) {
        return Err(Refusal::at(Kind::Bits, 0));
    }
    Ok(())
}
