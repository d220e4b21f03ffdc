// The lines of a text, read into a card in the making: docs/TEXT.md, "card = { note } atoms …".
#![tactic(auto)]

pub mod lines;
pub mod lists;
pub mod made;
pub mod parts;
pub mod put;
