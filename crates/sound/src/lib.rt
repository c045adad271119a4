// Soundness of the tables, each record and each client looked at once, and each waiting record once more where hours are closed.
#![tactic(auto)]

pub mod check;
mod records;
mod room;
mod tally;
