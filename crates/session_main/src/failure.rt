// Why the program stops before it has answered all of its input, and how it says so.
ghost use Rattle.std.specs.Prelude.{Some};
ghost use Rattle.session_main.specs.Failures.{text_of};

use std::fmt;

#[derive(Clone, Copy, Debug, PartialEq, Eq)]
pub enum Failure {
    Unreadable,
    Unwritten,
}

impl fmt::Display for Failure {
    ghost output = { λ failure. Some (text_of failure) };

    fn fmt<W: fmt::Write>(&self, f: &mut fmt::Formatter<W>) -> fmt::Result {
        match self {
            Failure::Unreadable => write!(f, "the input could not be read"),
            Failure::Unwritten => write!(f, "the answers could not be written"),
        }
    }
}
