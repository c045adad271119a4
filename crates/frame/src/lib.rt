// Session lines: frames in and answers out, "Session lines" of document 01.
#![tactic(auto)]

pub mod answers;
mod digits;
pub mod frames;
pub mod lines;
pub mod values;
