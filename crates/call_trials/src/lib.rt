// Examples of calls: definitions and proofs only.
#![tactic(auto)]
