// Listing: the call list where the plan is lent.
#![tactic(auto)]

pub mod gather;
pub mod list;
