// The program: it reads the three files of a folder, has its output filled in, and writes it. What it writes is `transcript`'s to say; of what is read and
// written no contract can speak. The other programs read and write with it.
#![tactic(auto)]

pub mod given;
pub mod said;

use files::File;
use said::put;
use std::rt::{Env, Files};

// The folder that the argument names, or this one.
pub fn run<R: Env + Files + Print>(rt: &R) {
    let mut folder = files::path_buffer();
    let len = files::asked_folder(rt, &mut folder);
    run_in(rt, &folder[..len]);
}

// All three files are read first. In which order they are judged, and what is written, is `write_output`'s alone.
pub fn run_in<R: Files + Print>(rt: &R, folder: &[u8]) {
    let mut plant = [0u8; File::PLANT];
    let mut rule = [0u8; File::RULE];
    let mut log = [0u8; File::LOG];
    let table = files::read_in(rt, folder, b"plant.txt", &mut plant);
    let asked = files::read_in(rt, folder, b"rule.txt", &mut rule);
    let events = files::read_in(rt, folder, b"log.txt", &mut log);
    let mut out = [0u8; transcript::ROOM];
    let len = transcript::write_output(
        table.ok,
        &plant[..table.len],
        asked.ok,
        &rule[..asked.len],
        events.ok,
        &log[..events.len],
        &mut out,
    );
    put(rt, &out[..len]);
}
