// Moves: a transition made in place; the guide's own, one and many; the calls take, run and next where the plan is lent.
#![tactic(auto)]

pub mod advance;
pub mod next;
pub mod run;
pub mod step;
pub mod take;
