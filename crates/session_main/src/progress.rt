// A turn of the program: more of the input is read behind what is still to be fed, and when that is fed, its answers are written.
ghost use Rattle.std.specs.Prelude.{◌≡◌, ◌+◌, ◌<◌, ◌≤◌, is_some, length};
ghost use Rattle.session_main.specs.Program.{buffer_length, at_first, is_over, after_read, after_feed, after_write, delivered_by, CanRead, ReadsOn, Puts, GoesOn};

use crate::failure::Failure;
use crate::system;
use crate::system::{Got, Receipt};
use frame::answers::MOST_BYTES;
use session::turns;
use session::types::{Fed, Session};
use std::io::{Stderr, Stdin, Stdout};

// The characters that the buffer has room for.
pub(crate) const BUFFER: usize = 65536;

// The output has room for four of the longest replies: a buffer of submits, each of 23 characters and answered by at most 39, is then
// answered in one turn, and only a begun line has to be moved.
pub(crate) const OUTPUT: usize = 4 * MOST_BYTES;

// Where the program stands. Whether lines are left and whether the input has ended are two flags and no enum, which would be no plainer: a
// read says the one and a feed the other, and each leaves the other as it was.
#[derive(Clone, Copy)]
pub struct Progress {
    pub session: Session,
    // So many characters at the front of the buffer are still to be fed.
    pub have: usize,
    // Lines may be left: they are answered before more is read.
    pub full: bool,
    // A read delivered nothing: the input is at its end, or cannot be read.
    pub ended: bool,
    pub failure: Option<Failure>,
}

impl Progress {
    pub(crate) fn start() -> Progress
        ensures { result ≡ at_first }
    {
        Progress {
            session: turns::start(),
            have: 0,
            full: false,
            ended: false,
            failure: None,
        }
    }

    // The program goes on unless the input is at its end, or a read or a write failed.
    pub(crate) fn is_over(self) -> bool
        ensures { result ≡ is_over self }
    {
        self.ended || self.failure.is_some()
    }

    // What follows from a read.
    fn after_read(self, got: Got) -> Progress
        requires { self.have + delivered_by got ≤ buffer_length }
        ensures { result ≡ after_read self got }
    {
        let more = got.delivered();
        Progress {
            have: self.have + more,
            ended: more == 0,
            failure: got.failure(),
            ..self
        }
    }

    // Reads more of the input behind what is still to be fed, unless lines are left.
    pub(crate) fn read_on(self, input: Stdin, buffer: &mut [u8; BUFFER]) -> Progress
        requires { CanRead self.full self }
        ensures { ReadsOn self.full self buffer.old buffer.new result }
    {
        if self.full {
            return self;
        }
        self.after_read(system::read_behind(input, buffer, self.have))
    }

    // How much of the output is written next: the answers to what was fed or, at the end of the input, what is owed for a line without
    // its line feed.
    fn put_next(self, fed: Fed, out: &mut [u8; OUTPUT]) -> usize
        requires { fed.put ≤ length out.old }
        ensures { Puts self.ended self fed out.old out.new result }
    {
        if self.ended {
            return turns::finish(self.session, self.have, out);
        }
        fed.put
    }

    // What follows from feeding.
    fn after_feed(self, fed: Fed) -> Progress
        requires { fed.used ≤ self.have }
        ensures { result ≡ after_feed self fed }
    {
        Progress {
            session: fed.session,
            have: self.have - fed.used,
            full: fed.full,
            ..self
        }
    }

    // What follows from a write: where it failed, that is said before what a read did.
    fn after_write(self, receipt: Receipt) -> Progress
        ensures { result ≡ after_write self receipt }
    {
        Progress {
            failure: receipt.failure().or(self.failure),
            ..self
        }
    }

    // When the front of the buffer is fed: what was not used of it goes to the front, and the answers are written.
    pub(crate) fn go_on(
        self,
        output: Stdout,
        fed: Fed,
        buffer: &mut [u8; BUFFER],
        out: &mut [u8; OUTPUT],
    ) -> Progress
        requires { (self.have ≤ buffer_length) × (fed.used ≤ self.have) × (fed.put ≤ length out.old) }
        ensures { GoesOn self fed buffer.old out.old buffer.new out.new result }
    {
        let n = self.put_next(fed, out);
        buffer.copy_within(fed.used..self.have, 0);
        let receipt = system::write_front(output, out, n);
        self.after_feed(fed).after_write(receipt)
    }

    // Says what kept the program from the end of the input, and hands back whether there was something to say.
    pub(crate) fn say_why(self, errors: Stderr) -> bool
        ensures { result ≡ is_some self.failure }
    {
        let Some(failure) = self.failure else {
            return false;
        };
        system::say(errors, failure);
        true
    }
}
