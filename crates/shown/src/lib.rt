// Whether a run that a report shows is one of the kind claimed, by the meaning of runs and rules alone: no monitor is asked. Where it is not, the first of the five
// rules that it fails.
#![tactic(auto)]

pub mod positions;

ghost use Rattle.std.specs.Prelude.{◌≡◌, ◌≤◌, ◌<◌, ◌+◌, length, get_or};
ghost use Rattle.meaning.specs.Bit.{bit};
ghost use Rattle.text.specs.Number.{width_of};
ghost use Rattle.event_log.specs.Read.{event_at, whole_lines};
ghost use Rattle.shown.specs.Tests.{starts_of, move_at, moves_of, meets_of, fair_of, agrees_at, kept_of, checked_of};
ghost use Rattle.shown.specs.Right.{Means};

use around::place_of;
use around::run::holds_on_run;
use plant::Plant;
use positions::agree;
use syntax::Rule;

// The rules that a run may fail, in the order in which they are looked at.
#[derive(Clone, Copy)]
pub enum Failing {
    Start,
    Moves,
    Fairness,
    Agreement,
    Value,
}

// The state at a place of the run, and 0 beyond.
fn state_at(run: &[u8], at: usize) -> usize
    ensures { result ≡ get_or run.now at 0 }
{
    usize::from(run.get(at).copied().unwrap_or(0))
}

// Entry k of a table, and 0 beyond its end.
fn entry(table: &[u16], k: usize) -> u16
    ensures { result ≡ get_or table.now k 0 }
{
    table.get(k).copied().unwrap_or(0)
}

// Whether the state is in the set.
fn member(set: u64, state: usize) -> bool
    ensures { result ≡ bit set state }
{
    state < 64 && words::has(set, state)
}

// There is a first state, it is the table's, and a starting state.
#[tactic(auto, unfolding(crate::specs::Tests::starts_of))]
pub fn starts(start: u64, states: usize, run: &[u8]) -> bool
    ensures { result ≡ starts_of start states run.now }
{
    let first = state_at(run, 0);
    !run.is_empty() && first < states && member(start, first)
}

// The state at position i is the table's, and the next may follow it.
fn move_at(next: &[u64], states: usize, run: &[u8], stem: usize, i: usize) -> bool
    requires { (stem < length run.now) × (i < length run.now) }
    ensures { result ≡ move_at next.now states run.now stem i }
{
    let from = state_at(run, i);
    let to = state_at(run, place_of(stem, run.len(), i + 1));
    from < states && member(words::entry(next, from), to)
}

// There is a loop, and the table has each move of the run.
pub fn moves(next: &[u64], states: usize, run: &[u8], stem: usize) -> bool
    ensures { result ≡ moves_of next.now states run.now stem }
{
    stem < run.len() && (0..run.len()).all(|i| move_at(next, states, run, stem, i))
}

// The loop meets the set.
fn meets(set: u64, run: &[u8], stem: usize) -> bool
    ensures { result ≡ meets_of set run.now stem }
{
    run.iter()
        .skip(stem)
        .any(|state| member(set, usize::from(*state)))
}

// The loop meets each fairness set.
pub fn is_fair(fair: &[u64], run: &[u8], stem: usize) -> bool
    ensures { result ≡ fair_of fair.now run.now stem }
{
    fair.iter().all(|set| meets(*set, run, stem))
}

// The state at position i agrees with an event that saw `see`, and of it `val` to hold.
pub fn agree_at(label: &[u16], run: &[u8], stem: usize, i: usize, see: u16, val: u16) -> bool
    requires { stem < length run.now }
    ensures { result ≡ agrees_at label.now run.now stem i see val }
{
    let state = state_at(run, place_of(stem, run.len(), i));
    (entry(label, state) ^ val) & see == 0
}

// The value is the one asked.
fn kept(asked: bool, value: bool) -> bool
    ensures { result ≡ kept_of asked value }
{
    value == asked
}

// The first rule that the run fails, or none: the start, the moves, fairness, agreement with the events, and whether the rule holds at the
// position `mark` (`keeps`) or not.
pub fn check_run(
    plant: Plant,
    fair: &[u64],
    label: &[u16],
    next: &[u64],
    rule: Rule,
    log: &[u8],
    mark: usize,
    keeps: bool,
    run: &[u8],
    stem: usize,
) -> Result<(), Failing>
    requires { (rule.len ≤ 32) × (length run.now ≤ 4096) }
    ensures is { result ≡ checked_of plant fair.now label.now next.now rule
        (event_at (width_of plant.props) log.now) (whole_lines (width_of plant.props) log.now) mark keeps run.now stem }
    ensures means { Means plant fair.now label.now next.now rule
        (event_at (width_of plant.props) log.now) (whole_lines (width_of plant.props) log.now) mark keeps run.now stem result }
{
    if !starts(plant.start, plant.states, run) {
        return Err(Failing::Start);
    }
    if !moves(next, plant.states, run, stem) {
        return Err(Failing::Moves);
    }
    if !is_fair(fair, run, stem) {
        return Err(Failing::Fairness);
    }
    if !agree(label, run, stem, log, plant.props) {
        return Err(Failing::Agreement);
    }
    if !kept(keeps, holds_on_run(rule, label, run, stem, mark)) {
        return Err(Failing::Value);
    }
    Ok(())
}
