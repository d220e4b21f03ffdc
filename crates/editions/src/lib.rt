#![tactic(auto)]

// Edition 1 as document 01 has it, and edition 2 beside it: what is read as before, and what changes. It holds no code.
