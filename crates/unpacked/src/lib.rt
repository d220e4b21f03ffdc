// What the plain engine works on (02, Wish 12): a set as one truth value an atom, a configuration with its sets so, and a card's
// nodes and rules in flat tables of 256 entries.
#![tactic(auto)]

pub mod configuration;
pub mod tables;
pub mod truths;
