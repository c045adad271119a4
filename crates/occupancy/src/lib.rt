// Document 01, "Chart and victim": start slots and segments; the room in slots, overfull deadlines, and the victim.
#![tactic(auto)]

pub mod open_search;
pub mod overfull;
pub(crate) mod scan;
pub mod segments;
pub mod starts;
