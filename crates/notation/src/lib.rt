// The notation of a text card, in definitions; no code.
#![tactic(auto)]
