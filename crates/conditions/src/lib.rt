// The reader of a condition: docs/TEXT.md, "condition = or-list". Each node is written when it is completed.
#![tactic(auto)]

pub mod nodes;
pub mod number;
pub mod read;
