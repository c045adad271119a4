// What each call has to do: why it is refused, what becomes of the client table, and what it hands back. A file a call.
// Head and tables are three arguments, since a caller of the library lends them so.
#![tactic(auto)]

pub mod chart;
pub mod open;
pub mod reply;
pub mod report;
pub mod submit;
pub mod tick;
