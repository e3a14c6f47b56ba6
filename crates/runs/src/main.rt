// How a run goes on, as a user has it: the files of the folder that is its argument, or of this one. Its data are a plant of 64 states at the end of a log.
#![tactic(auto)]

fn main(rt: HostRuntime) {
    outlook::run(&rt);
}
