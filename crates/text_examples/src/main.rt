// Tables and logs, good and damaged, read and checked; tables handed in, and events. The cases come from standard input (see kinds.rt).
#![tactic(auto)]

mod kinds;
mod show;

fn main(rt: HostRuntime) {
    let mut input = [0u8; 65536];
    let given = files::fill(&mut rt.stdin(), &mut input);
    kinds::each(&rt, &input[..given.len]);
}
