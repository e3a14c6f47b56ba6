// The box of a C program: a table, a rule, what was prepared of them and a monitor, in 384 words that the caller keeps. Any words are a box, since reading
// them is total. Where a word is more than its field can hold, the box counts no proposition, and so every call answers 1: nothing is cut off silently.
#![tactic(auto)]

mod reading;
mod writing;

use pairs::Pairs;
use plant::Table;
pub use reading::held_in;
use sides::Monitor;
use syntax::Rule;
pub use writing::{stored, with_monitor};

// What is kept between calls.
#[derive(Clone, Copy)]
pub struct Held {
    pub table: Table,
    pub rule: Rule,
    pub live: Pairs,
    pub monitor: Monitor,
}

// Where the words of each part begin: props, states, start, just, then four fairness sets, the labels and the next sets; the rule's length and its nodes;
// the live set; whether an event came, the number expected, the two sets. Behind them ten words are kept for a log that comes in scraps, and the rest is 0.
impl Held {
    pub const WORDS: usize = 384;

    pub const FAIR: usize = 4;

    pub const LABEL: usize = 8;

    pub const NEXT: usize = 72;

    pub const LEN: usize = 136;

    pub const NODES: usize = 137;

    pub const LIVE: usize = 169;

    pub const SEEN: usize = 233;

    pub const EXPECTED: usize = 234;

    pub const KEEPS: usize = 235;

    pub const BREAKS: usize = 299;

    pub const BEHIND: usize = 363;
}
