// A text card read: docs/TEXT.md.
#![tactic(auto)]

pub mod assemble;
pub mod read;
mod write;
