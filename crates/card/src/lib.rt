// The card: checked. Whatever its bytes, the answer is document 01's.
#![tactic(auto)]

pub mod check;
pub mod contents;
pub mod nodes;
mod rules;
