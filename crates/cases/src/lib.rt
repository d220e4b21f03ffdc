#![tactic(auto)]

// The cases of documents 01 and 02 on the stripe card, computed. It holds no code.
