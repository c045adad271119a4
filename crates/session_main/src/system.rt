// The program's calls of the system: standard input is read, standard output and standard error are written. What a read puts in the
// buffer, and what of the answers a write takes, no contract says (specs/Program.antt). Fields are private, so that what a call
// answered is made here alone.
ghost use Rattle.std.specs.Prelude.{◌≡◌, ◌<◌, ◌≤◌, length};
ghost use Rattle.std.specs.Result.{result_err};
ghost use Rattle.session_main.specs.Program.{buffer_length, delivered_by, ReadBehind, Asked};

use crate::failure::Failure;
use crate::progress::{BUFFER, OUTPUT};
use std::io::{Read, Stderr, Stdin, Stdout, Write};

// What a read answered: how many characters it put in the buffer, 0 at the end of the input, or that it failed.
#[derive(Clone, Copy)]
pub struct Got {
    answer: Result<usize, Failure>,
}

impl Got {
    // A read that failed delivered nothing.
    pub(crate) fn delivered(self) -> usize
        ensures { result ≡ delivered_by self }
    {
        self.answer.unwrap_or(0)
    }

    pub(crate) fn failure(self) -> Option<Failure>
        ensures { result ≡ result_err self.answer }
    {
        self.answer.err()
    }
}

// How many characters a write was asked for, and what it answered: that they are all written, or that it failed.
#[derive(Clone, Copy)]
pub struct Receipt {
    asked: usize,
    answer: Result<(), Failure>,
}

impl Receipt {
    pub(crate) fn failure(self) -> Option<Failure>
        ensures { result ≡ result_err self.answer }
    {
        self.answer.err()
    }
}

// Reads behind the first `have` characters of the buffer. A buffer without room there would look like the end of the input.
pub(crate) fn read_behind(mut input: Stdin, buffer: &mut [u8; BUFFER], have: usize) -> Got
    requires { have < buffer_length }
    ensures { ReadBehind have buffer.old buffer.new result }
{
    let answer = input.read(&mut buffer[have..]);
    Got {
        answer: answer.map_err(|_| Failure::Unreadable),
    }
}

// Writes the first n characters of the output.
pub(crate) fn write_front(mut output: Stdout, out: &[u8; OUTPUT], n: usize) -> Receipt
    requires { n ≤ length out.now }
    ensures { Asked n result }
{
    let answer = output.write_all(&out[..n]);
    Receipt {
        asked: n,
        answer: answer.map_err(|_| Failure::Unwritten),
    }
}

// Says a failure to whoever runs the program. Where that fails too, there is nobody left to say so to.
pub(crate) fn say(errors: Stderr, failure: Failure) {
    let _said = eprintln!(errors; "session_main: {failure}, the session is over");
}
