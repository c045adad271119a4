// The waiting records one after the other, and those behind them: each is tested once.
ghost use Rattle.std.specs.Prelude.{◌+◌, ◌*◌, ◌≤◌, ◌≡◌, ◌&&◌, [], ◌∷◌, length};
ghost use Rattle.spec.specs.Every.{every};
ghost use Rattle.spec.specs.Tables.{most_records, clock_end, zero_request};
ghost use Rattle.spec.specs.Sound.{is_zero_request};
ghost use Rattle.sound.specs.Checks.{is_next, is_near, Countable, Bounded, Counted, counted_if, joined, last_of, bits_of, Passed};

use crate::tally::Tally;
use occupancy::overfull;
use spec::bounds;
use spec::types::{Head, Request};

// Whether w can stand at the index i, behind the record before it. All slots count here: `room::have_room` asks for room by open slots, and
// `is_near` asks of the last record how far ahead it is. Chart order takes one comparison: w's deadline counts one less where its number is
// not the larger. Branches on the deadlines take longer where few records wait: docs/landings/04-session.md.
#[tactic(auto, unfolding(crate::specs::Checks::is_next))]
pub(crate) fn is_next(head: Head, i: u64, before: Request, w: Request) -> bool
    requires { (head.clock ≤ clock_end) × (i ≤ most_records) }
    ensures { result ≡ is_next head i before w }
{
    if w.number < 1 {
        return false;
    }
    if head.last < w.number {
        return false;
    }
    if head.setup.clients <= w.client {
        return false;
    }
    if !overfull::is_ahead_by(head, i, w.deadline) {
        return false;
    }
    before.deadline <= w.deadline - u64::from(w.number <= before.number)
}

// Whether a deadline is past the clock by at most 65,535.
pub(crate) fn is_near(head: Head, deadline: u64) -> bool
    requires { head.clock ≤ clock_end }
    ensures { result ≡ is_near head deadline }
{
    deadline <= head.clock + bounds::MOST_AHEAD
}

// One turn of the pass over the records: whether one may stand at its index behind the one before it; if so it is counted.
pub(crate) fn check_record(
    tally: &mut Tally,
    head: Head,
    i: usize,
    before: Request,
    w: Request,
) -> bool
    requires { Bounded head i × Countable 1 tally.old.counts }
    ensures turn { Counted head i before (w ∷ []) tally.old.counts result tally.new.counts }
    ensures counted { tally.new.counts ≡ counted_if result i w tally.old.counts }
{
    let passed = is_next(head, i as u64, before, w);
    if passed {
        tally.count(i, w.client);
    }
    passed
}

// Turns of records that stand one behind another, the first at the index i behind `before`, until one does not pass.
fn check_run(records: &[Request], tally: &mut Tally, head: Head, i: usize, before: Request) -> bool
    requires { Bounded head (i + length records.now) × Countable (length records.now) tally.old.counts }
    ensures { Counted head i before records.now tally.old.counts result tally.new.counts }
{
    let mut last = before;
    for (k, w) in records.iter().enumerate() {
        if !check_record(tally, head, i + k, last, *w) {
            return false;
        }
        last = *w;
    }
    true
}

// The turns of the first records, four at a time, until one does not pass: one by one they made the check take 1.2 times as long.
fn check_fours(fours: &[[Request; 4]], tally: &mut Tally, head: Head) -> bool
    requires { Bounded head (4 * length fours.now) × Countable (4 * length fours.now) tally.old.counts }
    ensures { Counted head 0 zero_request (joined fours.now) tally.old.counts result tally.new.counts }
{
    let mut before = Request::default();
    for (k, four) in fours.iter().enumerate() {
        if !check_run(four, tally, head, 4 * k, before) {
            return false;
        }
        before = four[3];
    }
    true
}

// The last of some records, zero where there is none.
fn last(records: &[Request]) -> Request
    ensures { result ≡ last_of zero_request records.now }
{
    records.last().copied().unwrap_or_default()
}

// Whether the waiting records are as waiting ones should be, and how many of them each client has. Deadlines ascend, so that only the
// last is asked whether it is near; where there is none, the zero record is asked.
pub(crate) fn are_next(waiting: &[Request], tally: &mut Tally, head: Head) -> bool
    requires { Bounded head (length waiting.now) × Countable (length waiting.now) tally.old.counts }
    ensures { Passed head waiting.now tally.old.counts result tally.new.counts }
{
    let (fours, rest) = waiting.as_chunks::<4>();
    let m = 4 * fours.len();
    check_fours(fours, tally, head)
        && check_run(rest, tally, head, m, last(&waiting[..m]))
        && is_near(head, last(waiting).deadline)
}

// All the bits of a record's fields, joined: it is zero where none is set. With `==` in its place, as derived, the check of a table with few
// waiting records took 1.3 times as long.
fn bits(w: Request) -> u64
    ensures { result ≡ bits_of w }
{
    w.deadline | w.number | w.client
}

// Whether a record is zero.
#[tactic(auto, using(crate::proofs::RecordTests::bits_zero))]
pub(crate) fn is_zero(w: Request) -> bool
    ensures { result ≡ is_zero_request w }
{
    bits(w) == 0
}

// Whether four records are zero, by one test of the bits of all their fields.
pub(crate) fn are_zero_four(four: &[Request; 4]) -> bool
    ensures { result ≡ every is_zero_request four.now }
{
    let [a, b, c, d] = *four;
    (bits(a) | bits(b) | (bits(c) | bits(d))) == 0
}

// Whether records are zero, four at a time as far as that goes; the first four of which one is not end the search.
pub(crate) fn are_zero(records: &[Request]) -> bool
    ensures { result ≡ every is_zero_request records.now }
{
    let (fours, rest) = records.as_chunks::<4>();
    fours.iter().all(|four| are_zero_four(four)) && rest.iter().all(|w| is_zero(*w))
}
