// The session over lent tables: `feed` answers the lines of a part of the input, `turns::finish` what is owed at its end.
#![tactic(auto)]

pub mod turns;
pub mod types;

ghost use Rattle.std.specs.Prelude.{◌≡◌, ◌+◌, true, leb, length};
ghost use Rattle.spec.specs.Tables.{state_of};
ghost use Rattle.frame.specs.LineLengths.{most_bytes};
ghost use Rattle.session.specs.Answered.{Answered};
ghost use Rattle.session.specs.Standing.{reserved_of, fits_in};
ghost use Rattle.session.specs.Lent.{tables_of, SameTables};
ghost use Rattle.session.specs.Feeding.{can_with, Steps, FedBy};

use frame::lines::Reader;
use frame::{answers, values};
use queue::Reply;
use spec::bounds::{MOST_CLIENTS, MOST_RECORDS};
use spec::types::{Frame, Head, Request};
use table::clients::CLIENT_WIDTH;
use types::{Fed, Session};

// The call that a frame asks for, on the tables as they are lent to it.
fn make_call(
    frame: Frame,
    head: Head,
    waiting: &mut [Request],
    clients: &mut [u32],
    starts: &mut [u64],
) -> Reply
    ensures { Answered frame starts.old
        (state_of head waiting.old clients.old) result
        (state_of result.head waiting.new clients.new) starts.new }
{
    match frame {
        Frame::Open { setup, .. } => queue::open(head, waiting, clients, setup),
        Frame::Submit { client, deadline } => {
            queue::submit(head, waiting, clients, client, deadline)
        }
        Frame::Tick => queue::tick(head, waiting, clients),
        Frame::Report { client } => queue::report(head, waiting, clients, client),
        Frame::Chart => queue::chart(head, waiting, clients, starts),
        Frame::Bad => Reply {
            head,
            answer: turns::no_frame(),
        },
    }
}

// The tables and the output that a session is lent.
#[derive(Drop)]
struct Lent<'a> {
    waiting: &'a mut [Request],
    clients: &'a mut [u32],
    starts: &'a mut [u64],
    out: &'a mut [u8],
}

impl Lent<'_> {
    // Whether the tables will do for the session and for every later open.
    #[tactic(auto, unfolding(crate::specs::Standing::do_fit))]
    fn fits(&self, session: Session) -> bool
        ensures { result ≡ fits_in session (tables_of self.now) self.now.starts.now }
    {
        session.records <= MOST_RECORDS as u64
            && session.head.setup.clients <= MOST_CLIENTS as u64
            && MOST_RECORDS <= self.waiting.len()
            && MOST_RECORDS <= self.starts.len()
            && CLIENT_WIDTH * MOST_CLIENTS <= self.clients.len()
    }

    // Whether any answer has room behind the first `put` bytes.
    fn has_room(&self, put: usize) -> bool
        ensures { result ≡ leb (put + most_bytes) (length self.now.out.now) }
    {
        answers::MOST_BYTES <= self.out.len().saturating_sub(put)
    }

    // Answers a whole line, which is this frame and behind which the reader stands at `behind`. Each slice is taken into a variable
    // first, since parts of two of them are lent to the call beside the third.
    fn answer_line(&mut self, frame: Frame, behind: usize, fed: Fed) -> Fed
        requires { can_with fed (tables_of self.old) self.old.starts.now self.old.out.now ≡ true }
        ensures same_tables { SameTables self.old self.new }
        ensures steps { Steps frame behind fed
            (tables_of self.old) self.old.starts.now self.old.out.now result
            (tables_of self.new) self.new.out.now }
    {
        let waiting = &mut *self.waiting;
        let clients = &mut *self.clients;
        let starts = &mut *self.starts;
        let out = &mut *self.out;
        let records = turns::records_for(frame, fed.session);
        let numbers = turns::numbers_for(frame, fed.session);
        let reply = make_call(
            frame,
            fed.session.head,
            &mut waiting[..records],
            &mut clients[..numbers],
            starts,
        );
        let put = answers::put_reply(reply.head.setup, out, fed.put, reply.answer, starts);
        turns::answered(fed, frame, behind, reply, put)
    }
}

// Answers the whole lines of a part of the input, as far as the output has room. What is not used is handed in again, with more
// of the input behind it.
pub fn feed(
    session: Session,
    input: &[u8],
    waiting: &mut [Request],
    clients: &mut [u32],
    starts: &mut [u64],
    out: &mut [u8],
) -> Fed
    ensures { FedBy session input.now
        (reserved_of waiting.old clients.old) starts.old out.old result
        (reserved_of waiting.new clients.new) out.new }
{
    let mut lent = Lent {
        waiting,
        clients,
        starts,
        out,
    };
    let mut fed = Fed {
        session,
        used: 0,
        put: 0,
        full: false,
    };
    if !lent.fits(session) {
        return Fed { full: true, ..fed };
    }
    let table = values::digit_table();
    let mut reader = Reader::new(input, 0);
    while lent.has_room(fed.put) {
        let behind = reader.next();
        if behind.at == reader.at {
            return turns::begun(input, fed);
        }
        let line = reader.digits(behind.at);
        let frame = turns::whole(&table, line, fed.session.skip);
        fed = lent.answer_line(frame, behind.at, fed);
        reader = behind;
    }
    Fed { full: true, ..fed }
}
