// Where a session stands, and what feeding it comes to.
use spec::types::Head;

// Where a session stands between two lines. Of the tables that it is lent, the first `records` waiting records and as many client
// records as the head has clients are in use.
#[derive(Clone, Copy, Default)]
pub struct Session {
    pub head: Head,
    pub records: u64,
    // A line with more digits than any frame is being read past. A flag, of which the definitions speak (`Standing.Begun`).
    pub skip: bool,
}

// Where the session stands after a part of the input, how much of that is used, and how much of the output is written.
#[derive(Clone, Copy)]
pub struct Fed {
    pub session: Session,
    pub used: usize,
    pub put: usize,
    // Whether lines may be left: the output has no room for another answer, or the tables are too short. A flag, of which `Feeding.FedBy` speaks.
    pub full: bool,
}
