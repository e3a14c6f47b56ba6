// plant.txt and rule.txt of a folder as a fixed machine: rows that a person can read, in a comment, and below them the same rows as a C array. It is thin as
// `program` is: the calls decide.
#![tactic(auto)]

mod rows;

ghost use Rattle.opened.specs.Lent.{Lent};

use fixed_machine::{Size, make_machine};
use plant::{Plant, Table};
use program::given::{read_plant, read_rule};
use program::said::refuse;
use std::rt::Files;
use syntax::Rule;

// The bytes of the largest machine: 256 rows of 56.
const BYTES: usize = 14336;

// The folder that the argument names, or this one.
fn main(rt: HostRuntime) {
    let mut folder = files::path_buffer();
    let len = files::asked_folder(&rt, &mut folder);
    run_in(&rt, &folder[..len]);
}

// The two files of the folder, as `program` reads them; a refusal is the whole output.
fn run_in<R: Files + Print>(rt: &R, folder: &[u8]) {
    let read = read_plant(rt, folder);
    match read.outcome {
        Err(refusal) => refuse(rt, refusal),
        Ok(()) => with_table(rt, folder, read.table),
    }
}

// Of a table as many parts are lent as it counts.
fn with_table<R: Files + Print>(rt: &R, folder: &[u8], table: Table)
    requires { Lent table }
{
    let plant = table.plant;
    with_parts(
        rt,
        folder,
        plant,
        &table.fair[..plant.just],
        &table.label[..plant.states],
        &table.next[..plant.states],
    );
}

fn with_parts<R: Files + Print>(
    rt: &R,
    folder: &[u8],
    plant: Plant,
    fair: &[u64],
    label: &[u16],
    next: &[u64],
) {
    let read = read_rule(rt, folder, plant, fair, label, next);
    match read.outcome {
        Err(refusal) => refuse(rt, refusal),
        Ok(()) => with_rule(rt, plant, fair, label, next, read.rule),
    }
}

// There is room for the largest machine, so only 1 and 15 are left to refuse.
fn with_rule<P: Print>(
    to: &P,
    plant: Plant,
    fair: &[u64],
    label: &[u16],
    next: &[u64],
    rule: Rule,
) {
    let mut work = [0u64; Size::WORDS];
    let mut machine = [0u8; BYTES];
    let made = make_machine(plant, fair, label, next, rule, &mut work, &mut machine);
    match made {
        Err(refusal) => refuse(to, refusal),
        Ok(size) => rows::show_machine(to, &machine, size),
    }
}
