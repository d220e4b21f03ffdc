// The door of a call: the card checked, then the configuration judged; what a choice that is asked for answers; what is answered
// where the plan is lent, and the room of a lent buffer.
#![tactic(auto)]

pub mod admit;
pub mod asked;
pub mod configuration;
pub mod in_place;
pub mod room;
