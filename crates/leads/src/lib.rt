// Which pairs lead to which, a word of states at a time. The words for two valuations come in halves: what parts 0 to 2 ask depends on the
// last three digits of the other valuation alone, what the rest ask on the first three. So 1,024 words say what 4,096 would.
#![tactic(auto)]

pub mod halves;
pub mod images;
