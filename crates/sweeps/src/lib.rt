// Sweeps over sets of pairs: which pairs have a move into a set, which reach a goal, and which reach every goal again and again.
#![tactic(auto)]

pub mod movers;
pub mod reach;
pub mod rounds;
