// The plain engine (02, Wish 12: "an engine to read in an afternoon"): load, list, take and run once more, with no cleverness. A
// call unpacks the card and the configuration, judges every node, asks for every choice of a kind, and copies what it changes.
#![tactic(auto)]

pub mod ask;
pub mod choose;
pub mod judge;
pub mod list;
pub mod load;
pub mod make;
pub mod run;
pub mod take;
