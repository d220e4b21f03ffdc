// Our own deliberation (02, Wish 6): the call where the plan and the remaining program are lent, and the moves that it makes.
#![tactic(auto)]

pub mod call;
mod descent;
mod first;
mod made;
mod run;
