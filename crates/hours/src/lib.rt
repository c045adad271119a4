// Document 02, 2.2, inspection hours: which slots are open, and how many of them lie before a slot, without going from slot to slot.
#![tactic(auto)]

mod by_hours;
pub mod calendar;
pub mod marks;
