// A scan of a text card: the place of 17, 02, Wish 2: "the first byte that no continuation could make right".
#![tactic(auto)]

pub mod condition;
pub mod lines;
pub mod scan;
