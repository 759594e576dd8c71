// The whole list: definitions and proofs only.
#![tactic(auto)]
