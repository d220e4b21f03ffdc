// Choices: conditions judged in one pass, whether a choice is enabled, and the guide's own choice.
#![tactic(auto)]

pub mod ask;
pub mod truth;
