// The parts of a turn that need no table: what is read, how much is lent, what is written, where the session then stands.
ghost use Rattle.std.specs.Prelude.{◌≡◌, ◌≤◌, length, take};
ghost use Rattle.spec.specs.declared.types.Answer.TheVariants.{Refused};
ghost use Rattle.spec.specs.Calls.Readings.{reading};
ghost use Rattle.session.specs.Standing.{up_to, records_for, numbers_for, records_after};
ghost use Rattle.session.specs.Parts.{session_start};
ghost use Rattle.frame.specs.Digits.{digit_table};
ghost use Rattle.frame.specs.Lines.{NoFeed};
ghost use Rattle.session.specs.Feeding.{frame_behind, Stops, answered, owed_in};

use crate::types::{Fed, Session};
use frame::{answers, frames};
use queue::Reply;
use spec::bounds::{MOST_CLIENTS, MOST_RECORDS};
use spec::types::{Answer, Frame, Reason};
use table::clients::CLIENT_WIDTH;

// Before the first line: no tables.
pub fn start() -> Session
    ensures { result ≡ session_start }
{
    Session::default()
}

// What a whole line is. One that was read past so far has more digits than any frame.
pub(crate) fn whole(table: &[u8], line: &[u8], skip: bool) -> Frame
    requires { table.now ≡ digit_table }
    ensures { result ≡ frame_behind skip line.now }
{
    if skip {
        Frame::Bad
    } else {
        frames::frame_of(table, line)
    }
}

// No line feed: what has more digits than any frame is read past, and the beginning of a frame is left.
pub(crate) fn begun(input: &[u8], fed: Fed) -> Fed
    requires { fed.used ≤ length input.now }
    ensures { NoFeed input.now fed.used (length input.now) → Stops input.now fed result }
{
    let over = fed.session.skip || frames::LONGEST_FRAME < input.len() - fed.used;
    if over {
        return Fed {
            session: Session {
                skip: true,
                ..fed.session
            },
            used: input.len(),
            ..fed
        };
    }
    fed
}

// A length that a frame names, or none where it is more than there can be.
fn up_to(most: usize, n: u64) -> usize
    ensures { result ≡ up_to most n }
{
    if n <= most as u64 { n as usize } else { 0 }
}

// How many waiting records the frame's call gets: those that open names, or else those in use.
#[tactic(auto, using(crate::proofs::Laws::LineEnds::records_in_use), unfolding(crate::specs::Standing::records_for))]
pub(crate) fn records_for(frame: Frame, session: Session) -> usize
    ensures { result ≡ records_for frame session }
{
    match frame {
        Frame::Open { records, .. } => up_to(MOST_RECORDS, records),
        _ => up_to(MOST_RECORDS, session.records),
    }
}

// How many numbers of client records the frame's call gets: those of as many clients as open names, or else of those that there are.
#[tactic(auto, using(crate::proofs::Laws::LineEnds::numbers_in_use), unfolding(crate::specs::Standing::numbers_for))]
pub(crate) fn numbers_for(frame: Frame, session: Session) -> usize
    ensures { result ≡ numbers_for frame session }
{
    match frame {
        Frame::Open { setup, .. } => CLIENT_WIDTH * up_to(MOST_CLIENTS, setup.clients),
        _ => CLIENT_WIDTH * up_to(MOST_CLIENTS, session.head.setup.clients),
    }
}

// The answer to a line that is no frame.
pub(crate) fn no_frame() -> Answer
    ensures { result ≡ Refused 1 }
{
    Answer::Refused {
        number: u64::from(Reason::NoFrame),
    }
}

fn is_refused(answer: Answer) -> bool
    ensures { result ≡ (reading answer).refuses }
{
    matches!(answer, Answer::Refused { .. })
}

// How many waiting records are in use after the frame got its answer.
#[tactic(auto, using(crate::proofs::Laws::LineEnds::records_kept), unfolding(crate::specs::Standing::records_after))]
fn records_after(frame: Frame, answer: Answer, before: u64) -> u64
    ensures { result ≡ records_after frame answer before }
{
    match frame {
        Frame::Open { records, .. } => if is_refused(answer) { before } else { records },
        _ => before,
    }
}

// Where the session stands after a line that was this frame, behind which the reader stands at `behind`.
pub(crate) fn answered(fed: Fed, frame: Frame, behind: usize, reply: Reply, put: usize) -> Fed
    ensures { result ≡ answered frame behind fed reply put }
{
    Fed {
        session: Session {
            head: reply.head,
            records: records_after(frame, reply.answer, fed.session.records),
            skip: false,
        },
        used: behind,
        put,
        full: false,
    }
}

// At the end of the input: a line that has no line feed is refused, where the output has room for any answer's line.
pub fn finish(session: Session, left: usize, out: &mut [u8]) -> usize
    ensures { (result ≤ length out.old)
        × (take result out.new ≡ owed_in (length out.old) session.skip left) }
{
    if out.len() < answers::LONGEST_LINE {
        return 0;
    }
    if !session.skip && left == 0 {
        return 0;
    }
    answers::put_answer(out, 0, no_frame())
}
