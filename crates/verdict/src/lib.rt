// The verdict on a card: bounded, or open with the first offender. Whatever its bytes, the answer is document 01's.
#![tactic(auto)]

pub mod grade;
mod sums;
pub mod weigh;
