// The proved cases: definitions and their proof, and no code.
#![tactic(auto)]
