// The recorder's read queue as definitions: the declared types and the bounds here, everything that contracts cite in specs/,
// and the theorems about it in proofs/. No code.
#![tactic(auto)]

pub mod bounds;
pub mod types;
