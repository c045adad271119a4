// The kit for proofs by hand is in proofs/; there is no code.
#![tactic(auto)]
