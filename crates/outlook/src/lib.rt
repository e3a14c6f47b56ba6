// How a run of the plant goes on behind the end of a log: one line for the runs that keep the rule, one for those that break it.
// It is thin as `program` is: the calls decide, and `report` says what a line is.
#![tactic(auto)]

mod given;
mod play;

ghost use Rattle.std.specs.Prelude.{◌≤◌, length};

use files::File;
use monitor::Monitor;
use plant::Plant;
use program::said::{put, refuse, show};
use report::Line;
use std::rt::{Env, Files};
use syntax::Rule;
use walk::Lengths;

// The folder that the argument names, or this one.
pub fn run<R: Env + Files + Print>(rt: &R) {
    let mut folder = files::path_buffer();
    let len = files::asked_folder(rt, &mut folder);
    run_in(rt, &folder[..len]);
}

// The three files of the folder, as `program` reads them; a refusal is the whole output.
fn run_in<R: Files + Print>(rt: &R, folder: &[u8]) {
    let mut text = [0u8; File::LOG];
    let given = given::read_given(rt, folder, &mut text);
    let table = given.table;
    let plant = table.plant;
    match given.outcome {
        Err(refusal) => refuse(rt, refusal),
        Ok(()) => show_end(
            rt,
            b"",
            plant,
            &table.fair[..plant.just],
            &table.label[..plant.states],
            &table.next[..plant.states],
            given.rule,
            &text[..given.len],
        ),
    }
}

// The two lines behind the log's last event, each with `name` before it; or the refusal of an event.
pub fn show_end<P: Print>(
    to: &P,
    name: &[u8],
    plant: Plant,
    fair: &[u64],
    label: &[u16],
    next: &[u64],
    rule: Rule,
    text: &[u8],
) {
    let end = play::play(plant, fair, label, next, rule, text);
    match end.outcome {
        Err(refusal) => refuse(to, refusal),
        Ok(()) => {
            show_run(to, name, plant, fair, label, next, rule, end.monitor, true);
            show_run(to, name, plant, fair, label, next, rule, end.monitor, false);
        }
    }
}

fn show_run<P: Print>(
    to: &P,
    name: &[u8],
    plant: Plant,
    fair: &[u64],
    label: &[u16],
    next: &[u64],
    rule: Rule,
    monitor: Monitor,
    keeps: bool,
) {
    let mut states = [0u8; Lengths::ROOM];
    let answer = witness::witness(plant, fair, label, next, rule, monitor, keeps, &mut states);
    put(to, name);
    match answer {
        Err(refusal) => show(to, report::no_run_line(keeps, refusal)),
        Ok(lengths) => write_run(to, keeps, &states, lengths),
    }
}

fn write_run<P: Print>(to: &P, keeps: bool, states: &[u8], lengths: Lengths)
    requires { (lengths.stem ≤ 4095) × (lengths.turn ≤ 45056) × (49152 ≤ length states.now) }
{
    let all = lengths.stem + lengths.turn;
    let mut line = [0u8; Line::RUN];
    let len = report::run_line(&mut line, keeps, &states[..all], lengths.stem);
    put(to, &line[..len]);
}
