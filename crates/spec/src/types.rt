// The types of the queue, document 01, "Tables and bounds" and "Calls", and document 02, 2.1 and 2.2.
ghost use Rattle.std.specs.Prelude.{◌≡◌};
ghost use Rattle.spec.specs.Reasons.{number_of};

// "A record has a deadline, a request number and a client." Laid out as C does, for programs in other languages.
#[repr(C)]
#[derive(Clone, Copy, PartialEq, Eq, Default)]
pub struct Request {
    pub deadline: u64,
    pub number: u64,
    pub client: u64,
}

// "The client table has one record a client: submitted, served, dropped"
#[derive(Clone, Copy, PartialEq, Eq, Default)]
pub struct Counts {
    pub submitted: u32,
    pub served: u32,
    pub dropped: u32,
}

// "Open takes clients and period", and document 02, 2.2: "Open takes slots per hour and 168 open-or-closed marks": what open sets and no
// other call changes. `hour` is the slots per hour. The marks are 168 bits, "first hour in the highest bit, 1 meaning open", in four
// numbers, each named by its first hour, so that there is no bit of which no paper speaks.
#[derive(Clone, Copy, PartialEq, Eq, Default)]
pub struct Setup {
    pub clients: u64,
    pub period: u64,
    pub hour: u64,
    pub marks0: u64,
    pub marks64: u64,
    pub marks128: u32,
    pub marks160: u8,
}

// The setup before the first open, as a constant: `Setup::default()` is none.
pub const ZERO_SETUP: Setup = Setup {
    clients: 0,
    period: 0,
    hour: 0,
    marks0: 0,
    marks64: 0,
    marks128: 0,
    marks160: 0,
};

// "The head, passed and handed back: clients, period, clock, last request number, waiting count.", and what document 02 adds to a setup.
#[derive(Clone, Copy, PartialEq, Eq, Default)]
pub struct Head {
    pub setup: Setup,
    pub clock: u64,
    pub last: u64,
    pub waiting: u64,
}

// What a call answers. `reading` in specs/Calls/Readings.antt gives the paper's number and values of each case. A refusal has its number
// and no `Reason`, since the definitions answer numbers (`Demand1.refused_exactly`).
#[derive(Clone, Copy)]
pub enum Answer {
    Opened,
    Kept {
        number: u64,
        place: u64,
        shift: u64,
    },
    Dropped {
        number: u64,
        victim: u64,
        client: u64,
        shift: u64,
    },
    Served {
        slot: u64,
        number: u64,
        client: u64,
    },
    Idle {
        slot: u64,
    },
    Reported {
        client: u64,
        submitted: u64,
        served: u64,
        dropped: u64,
        waiting: u64,
    },
    Charted {
        count: u64,
    },
    Closed {
        slot: u64,
    },
    Refused {
        number: u64,
    },
}

// Why a call is refused, documents 01 and 02, "Refusals, first match wins": each case by what is not as it should be. specs/Reasons.antt has
// the papers' numbers.
#[derive(Clone, Copy, PartialEq, Eq)]
pub enum Reason {
    NoFrame,
    Clients,
    Period,
    Lengths,
    Unsound,
    UnknownClient,
    Deadline,
    Submitted,
    LastNumber,
    TableFull,
    ClockEnd,
    ShortOutput,
    SlotsPerHour,
    AllClosed,
    NoOpenSlot,
}

impl From<Reason> for u64 {
    ghost from_gives = { λ why number. number ≡ number_of why };

    fn from(why: Reason) -> u64 {
        match why {
            Reason::NoFrame => 1,
            Reason::Clients => 2,
            Reason::Period => 3,
            Reason::Lengths => 4,
            Reason::Unsound => 5,
            Reason::UnknownClient => 6,
            Reason::Deadline => 7,
            Reason::Submitted => 8,
            Reason::LastNumber => 9,
            Reason::TableFull => 10,
            Reason::ClockEnd => 11,
            Reason::ShortOutput => 12,
            Reason::SlotsPerHour => 13,
            Reason::AllClosed => 14,
            Reason::NoOpenSlot => 15,
        }
    }
}

// What a call hands back: the head after it, and beside it the answer.
#[derive(Clone, Copy)]
pub struct Reply {
    pub head: Head,
    pub answer: Answer,
}

// A session line, document 01, "Session lines"; `Bad` is a line that is no frame, a case here since the definitions have it
// (`Frames.frame_of`).
#[derive(Clone, Copy)]
pub enum Frame {
    Open { setup: Setup, records: u64 },
    Submit { client: u64, deadline: u64 },
    Tick,
    Report { client: u64 },
    Chart,
    Bad,
}
