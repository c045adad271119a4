// Submit: why it is refused, what it decides, what becomes of the client table, and what it hands back.
ghost use Rattle.std.specs.Prelude.{◌≡◌, ◌-◌, ◌≤◌};
ghost use Rattle.spec.specs.Tables.{state_of};
ghost use Rattle.spec.specs.Setup.{first_match};
ghost use Rattle.spec.specs.Reasons.{refused_by};
ghost use Rattle.spec.specs.Calls.Submit.{submit_refusals};
ghost use Rattle.decide.specs.Submit.{place_without, numbered_request, head_after_submit, kept_with, dropped_with, submit_reply, submit_numbers};

use hours::calendar;
use sound::check::check_tables;
use spec::bounds;
use spec::types::{Answer, Head, Reason, Reply, Request};
use table::clients::{Count, add_one, counts_at};

// What a submit does to the waiting table. A value and no closure: it is said while the table is still read, and is done when it is not.
#[derive(Clone, Copy, PartialEq, Eq)]
pub enum Decision {
    // The new record goes in at `place`.
    Keep { place: usize },
    // The new record goes in at `place`, and then the one at `victim` is taken out.
    Drop { place: usize, victim: usize },
}

// What became of the new record: its place, how many waiting records stood behind it when it was put in, and which one went out for it,
// where one did.
#[derive(Clone, Copy, PartialEq, Eq)]
pub struct Insertion {
    pub place: usize,
    pub shift: usize,
    pub gone: Option<Request>,
}

// By how many slots a deadline is past the clock, open and closed ones counted.
fn slots_ahead(head: Head, deadline: u64) -> u64
    requires { head.clock ≤ deadline }
    ensures { result ≡ deadline - head.clock }
{
    deadline - head.clock
}

// Why a submit is refused, by the first refusal that matches.
pub fn check(
    head: Head,
    waiting: &[Request],
    clients: &[u32],
    client: u64,
    deadline: u64,
) -> Result<(), Reason>
    ensures { refused_by result ≡ first_match (submit_refusals client deadline (state_of head waiting.now clients.now)) }
{
    check_tables(waiting, clients, head)?;
    if head.setup.clients <= client {
        return Err(Reason::UnknownClient);
    }
    if deadline <= head.clock {
        return Err(Reason::Deadline);
    }
    if bounds::MOST_AHEAD < slots_ahead(head, deadline) {
        return Err(Reason::Deadline);
    }
    if !calendar::is_any_open(head.setup, head.clock, deadline) {
        return Err(Reason::NoOpenSlot);
    }
    if counts_at(clients, client).submitted == bounds::MOST_COUNTED {
        return Err(Reason::Submitted);
    }
    if head.last == bounds::NUMBER_END {
        return Err(Reason::LastNumber);
    }
    if head.waiting == waiting.len() as u64 {
        return Err(Reason::TableFull);
    }
    Ok(())
}

// A place among the waiting records and the new one, as it is where the one at `other` is left out.
fn place_without(place: usize, other: usize) -> usize
    ensures { result ≡ place_without place other }
{
    if other < place {
        return place - 1;
    }
    place
}

// A drop as it is done to the waiting table: the record at `out` goes and the new one goes in at `at`, as they stand without each other.
// `shift` is how many of the waiting records stood behind the new one while all were there.
#[derive(Clone, Copy, PartialEq, Eq)]
pub struct Exchange {
    pub out: usize,
    pub at: usize,
    pub shift: usize,
}

// The drop by which, of n waiting records and the new one at `place`, the one at `victim` goes.
pub fn exchange_of(n: usize, place: usize, victim: usize) -> Exchange
    ensures out { result.out ≡ place_without victim place }
    ensures at { result.at ≡ place_without place victim }
    ensures shift { result.shift ≡ n - place }
{
    let out = place_without(victim, place);
    let at = place_without(place, victim);
    let shift = n.saturating_sub(place);
    Exchange { out, at, shift }
}

// The new record, with the next request number.
pub fn new_request(head: Head, client: u64, deadline: u64) -> Request
    ensures { result ≡ numbered_request head client deadline }
{
    Request {
        deadline,
        number: head.last.saturating_add(1),
        client,
    }
}

// The new request is counted in submitted and, where one went out for it, that one in dropped.
pub fn count(clients: &mut [u32], client: u64, gone: Option<Request>)
    ensures { clients.new ≡ submit_numbers client gone clients.old }
{
    add_one(clients, client, Count::Submitted);
    if let Some(victim) = gone {
        add_one(clients, victim.client, Count::Dropped);
    }
}

// The head after a submit, with so many waiting.
fn head_after_submit(head: Head, waiting: u64) -> Head
    ensures { result ≡ head_after_submit head waiting }
{
    Head {
        last: head.last.saturating_add(1),
        waiting,
        ..head
    }
}

// The reply where all are kept: the new number, its place, and how many stand behind it.
fn kept(head: Head, place: usize, shift: usize) -> Reply
    ensures { result ≡ kept_with head place shift }
{
    let after = head_after_submit(head, head.waiting.saturating_add(1));
    let answer = Answer::Kept {
        number: after.last,
        place: place as u64,
        shift: shift as u64,
    };
    Reply {
        head: after,
        answer,
    }
}

// The reply where one is dropped: the new number, which one went out, and how many stood behind the new one before it did.
fn dropped(head: Head, victim: Request, shift: usize) -> Reply
    ensures { result ≡ dropped_with head victim shift }
{
    let after = head_after_submit(head, head.waiting);
    let answer = Answer::Dropped {
        number: after.last,
        victim: victim.number,
        client: victim.client,
        shift: shift as u64,
    };
    Reply {
        head: after,
        answer,
    }
}

// The reply of a submit, by what became of the new record.
pub fn reply(head: Head, insertion: Insertion) -> Reply
    ensures { result ≡ submit_reply head insertion }
{
    match insertion.gone {
        None => kept(head, insertion.place, insertion.shift),
        Some(victim) => dropped(head, victim, insertion.shift),
    }
}
