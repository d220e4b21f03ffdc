// The place: where a configuration comes from and is kept. It is loaded from a card, saved into a lent buffer, and restored from a
// place's bytes.
#![tactic(auto)]

mod judge;
pub mod load;
pub mod restore;
pub mod save;
