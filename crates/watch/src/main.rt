// The program as a user has it: the files of the folder that is its argument, or of this one. Its data are the example of 01, Log and program.
#![tactic(auto)]

fn main(rt: HostRuntime) {
    program::run(&rt);
}
