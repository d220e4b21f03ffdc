// A chosen move and a run for bounded cards, sets and plan lent: 02, Wish 10: "11 and the ending "full" cannot arise there".
#![tactic(auto)]

pub mod admit;
pub mod in_place;
pub mod run;
pub mod take;
mod words;
