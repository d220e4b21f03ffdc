// The printer: a condition of a card written back as text, with brackets only where it must have them.
#![tactic(auto)]

mod measure;
pub mod print;
mod write;
