// The truth of a rule's nodes, a word of states for each valuation, and the tables of its temporal parts that moves go by.
#![tactic(auto)]

pub mod nodes;
pub mod rows;
pub mod tables;
