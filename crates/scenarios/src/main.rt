// The program on each scenario in turn: each refusal, restarts, and the largest texts. A scenario is a folder of the data and a line of scenarios.txt there: the
// folder, a colon and what it shows. That line stands above what the program writes.
#![tactic(auto)]

use cases::find;
use program::said::put;
use std::rt::Files;

fn scenario<R: Files + Print>(rt: &R, folder: &[u8], line: &[u8]) {
    put(rt, b"-- ");
    put(rt, line);
    put(rt, b"\n");
    program::run_in(rt, folder);
}

fn each<R: Files + Print>(rt: &R, list: &[u8]) {
    for ended in list.split_inclusive(|byte| *byte == b'\n') {
        let line = ended.strip_suffix(b"\n").unwrap_or(ended);
        let colon = find(line, 0, line.len(), b':');
        scenario(rt, &line[..colon], line);
    }
}

fn main(rt: HostRuntime) {
    let mut list = [0u8; 65536];
    let file = files::read_file(&rt, b"scenarios.txt", &mut list);
    each(&rt, &list[..file.len]);
}
