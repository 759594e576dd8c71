// Told once, in order: definitions and proofs only.
#![tactic(auto)]
