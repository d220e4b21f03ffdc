#![tactic(auto)]

// The paper: Definitions 1 to 11 of source document 004. It holds no code.
