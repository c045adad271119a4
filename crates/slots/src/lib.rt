// Slots and plans: definitions in specs/, their theory in proofs/. No code.
#![tactic(auto)]
