// Theory alone: lists, for the definitions and proofs of the crates above.
#![tactic(auto)]
