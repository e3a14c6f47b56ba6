// The run of a witness by what the rule says, which is worked out once: for the live pairs, and for the walk through them.
ghost use Rattle.std.specs.Prelude.{◌≡◌, ◌≤◌, length, Ok};
ghost use Rattle.plant.specs.Table.{plant_of};
ghost use Rattle.checks.specs.Checks.{input_outcome};
ghost use Rattle.syntax.specs.Value.{formula_of};
ghost use Rattle.witness.specs.Calls.{Sought};

use crate::Lengths;
use answers::{Kind, Refusal};
use plant::Plant;
use sweeps::reach::meet;
use sweeps::rounds::lasting;
use syntax::Rule;
use ways::ways_of;

// Of an accepted table and rule. Check 13 is whether the asked set has a live pair.
pub fn write_run(
    plant: Plant,
    fair: &[u64],
    label: &[u16],
    next: &[u64],
    rule: Rule,
    asked: &[u64; 64],
    buffer: &mut [u8],
) -> Result<Lengths, Refusal>
    requires { (input_outcome plant fair.now label.now next.now rule ≡ Ok tt) × (49152 ≤ length buffer.old) }
    ensures { Sought (plant_of plant fair.now label.now next.now) (formula_of rule) asked.now
        buffer.old buffer.new result }
{
    let ways = ways_of(label, rule);
    let live = lasting(
        plant.states,
        fair,
        next,
        &ways.leave,
        &ways.enter,
        &ways.settled,
        ways.parts,
    );
    let both = meet(asked, &live.words);
    if both.is_empty() {
        return Err(Refusal::at(Kind::NoPair, 0));
    }
    let lengths = walk::write_walk(
        next,
        &ways.leave,
        &ways.enter,
        ways.count,
        fair,
        &ways.settled,
        ways.parts,
        &live.words,
        asked,
        buffer,
    );
    Ok(lengths)
}
