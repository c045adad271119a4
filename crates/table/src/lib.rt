// The two lent tables: the waiting records, and the client records with what a period's start makes of them.
#![tactic(auto)]

pub mod clients;
pub mod period;
pub mod waiting;
