#![tactic(auto)]

// The demands of the letter. It holds no code.
