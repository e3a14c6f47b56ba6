// The live pairs of a table and a rule: from all pairs, those from which some goal is not reached are dropped again and again.
#![tactic(auto)]

ghost use Rattle.std.specs.Prelude.{◌≡◌, ◌≤◌, length};
ghost use Rattle.truth.specs.Ready.{Ready};
ghost use Rattle.live.specs.Prepare.{live_of, prepared_of};

use answers::Refusal;
use pairs::Pairs;
use plant::Plant;
use sweeps::rounds::lasting;
use syntax::Rule;
use ways::ways_of;

// A refusal comes with the empty set.
#[derive(Clone, Copy)]
pub struct Prepared {
    pub outcome: Result<(), Refusal>,
    pub live: Pairs,
}

// The live pairs of an accepted table and rule.
fn live_pairs(states: usize, fair: &[u64], label: &[u16], next: &[u64], rule: Rule) -> Pairs
    requires { Ready label.now rule × ((1 ≤ states) × (states ≤ 64)) × (length fair.now ≤ 4) }
    ensures { result.words ≡ live_of states fair.now label.now next.now rule }
{
    let ways = ways_of(label, rule);
    lasting(
        states,
        fair,
        next,
        &ways.leave,
        &ways.enter,
        &ways.settled,
        ways.parts,
    )
}

// Checks 1, 2 and 9, and behind them the live pairs: worked out once, and handed to every step.
pub fn prepare(plant: Plant, fair: &[u64], label: &[u16], next: &[u64], rule: Rule) -> Prepared
    ensures { result ≡ prepared_of plant fair.now label.now next.now rule }
{
    let outcome = checks::check_input(plant, fair, label, next, rule);
    match outcome {
        Err(refusal) => Prepared {
            outcome: Err(refusal),
            live: Pairs::empty(),
        },
        Ok(()) => Prepared {
            outcome: Ok(()),
            live: live_pairs(plant.states, fair, label, next, rule),
        },
    }
}
