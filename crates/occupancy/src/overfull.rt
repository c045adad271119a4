// Overfull deadlines: the room up to a deadline, the first deadline that has too little, and who is then dropped. Of the clients that
// have a candidate, the victim's has the smallest miss ratio; among equals, it is the one whose last candidate stands last.
ghost use Rattle.std.specs.Prelude.{◌≡◌, ◌≢◌, ◌∷◌, ℕ, true, ◌+◌, ◌%◌, ◌≤◌, ◌<◌, ltb, length, get_or, set, slice_index, EachIndex, MatchOption};
ghost use Rattle.spec.specs.Tables.{most_clients, most_records, clock_end, deadlines_of, clients_of, zero_counts, records_of};
ghost use Rattle.spec.specs.Chart.{room_to, has_smaller_ratio};
ghost use Rattle.hours.specs.Week.{are_all_open};
ghost use Rattle.table.specs.Widths.{largest16, largest32};
ghost use Rattle.occupancy.specs.Scans.{Sorted, place_by, overfull_from, if_any, candidate_count, latest_of, counts_with, better_candidate, smallest_ratio_place};

use crate::open_search;
use crate::scan::{first_full, if_any};
use hours::{calendar, marks};
use spec::bounds::MOST_CLIENTS;
use spec::types::{Counts, Head, Request};
use table::clients;

// Whether more than i slots, open or not, lie between the clock and a deadline. A sum, since a difference would need a branch. That the
// clock is within its bound stands in each contract: callers lend damaged heads too, so that no type says it of a `Head`.
pub fn is_ahead_by(head: Head, i: u64, deadline: u64) -> bool
    requires { (head.clock ≤ clock_end) × (i ≤ most_records) }
    ensures { result ≡ ltb (head.clock + i) deadline }
{
    head.clock + i < deadline
}

// Whether the slots from the clock to the deadline can take more than i requests.
pub fn has_room(head: Head, i: u64, deadline: u64) -> bool
    requires { (head.clock ≤ clock_end) × (i ≤ most_records) }
    ensures { result ≡ ltb i (room_to head deadline) }
{
    let setup = head.setup;
    if marks::are_all_open(setup) {
        return is_ahead_by(head, i, deadline);
    }
    let before = calendar::open_before(setup, head.clock);
    let after = calendar::open_before(setup, deadline);
    before + i < after
}

// How many of these records, whose deadlines ascend, have a deadline of at most this one, by halves; in any order of deadlines, the place
// that these lead to. No `partition_point`, which promises nothing where deadlines do not ascend.
pub fn due_by(waiting: &[Request], deadline: u64) -> usize
    ensures { result ≡ place_by (deadlines_of waiting.now) (length waiting.now) deadline }
{
    let mut low = 0;
    let mut high = waiting.len();
    while low < high {
        let middle = low + (high - low) / 2;
        if waiting[middle].deadline <= deadline {
            low = middle + 1;
        } else {
            high = middle;
        }
    }
    low
}

// The first overfull deadline among those of these records, where `before` requests come before the first: one that has not more slots up
// to it than requests before it. All slots are open.
fn overfull_in_all(head: Head, waiting: &[Request], before: usize) -> Option<u64>
    requires { (before + length waiting.now ≤ most_records) × (head.clock ≤ clock_end) × (are_all_open head.setup ≡ true) }
    ensures { result ≡ if_any (overfull_from head before (deadlines_of waiting.now)) }
{
    first_full(
        waiting,
        before as u64,
        |i, deadline| !is_ahead_by(head, i, deadline),
    )
}

// The first overfull deadline among those of these records, which ascend and stand behind `before` requests: one that has not more open slots
// up to it than requests before it. Where there is no record to look at, the hours are not counted either.
pub fn overfull_in_open(head: Head, waiting: &[Request], before: usize) -> Option<u64>
    requires { (before + length waiting.now ≤ most_records) × (head.clock ≤ clock_end) × (1 ≤ head.setup.hour)
        × Sorted (deadlines_of waiting.now) }
    ensures { result ≡ if_any (overfull_from head before (deadlines_of waiting.now)) }
{
    if waiting.is_empty() {
        return None;
    }
    open_search::overfull_by_counts(head, waiting, before)
}

// The first overfull deadline among that of a new request and those of the waiting records behind it, where `before` stand before it: these
// have the room that they had without it.
pub fn first_overfull(head: Head, behind: &[Request], before: usize, deadline: u64) -> Option<u64>
    requires { (before + length behind.now < most_records) × (head.clock ≤ clock_end) × (1 ≤ head.setup.hour)
        × Sorted (deadlines_of behind.now) }
    ensures { result ≡ if_any (overfull_from head before (deadline ∷ deadlines_of behind.now)) }
{
    if !has_room(head, before as u64, deadline) {
        return if_any(deadline);
    }
    if marks::are_all_open(head.setup) {
        return overfull_in_all(head, behind, before + 1);
    }
    overfull_in_open(head, behind, before + 1)
}

// How many of n waiting records are candidates, where so many are due by the first overfull deadline: those, and none where no deadline is
// overfull.
pub fn candidates(n: usize, due: usize, found: u64) -> usize
    ensures { result ≡ candidate_count n due found }
{
    if found == 0 { 0 } else { due.min(n) }
}

// A place of a client's request, 1 added, goes over what stood there of the client.
pub fn note(latest: &mut [u16], client: u64, place: usize)
    requires { (length latest.old ≡ most_clients) × (place ≤ largest16) }
    ensures { latest.new ≡ set latest.old (client % most_clients) place }
{
    let c = (client % MOST_CLIENTS as u64) as usize;
    latest[c] = place as u16;
}

// The clients of these records: of each its last one's place, the first record standing at the place `first`.
pub fn note_last_of_each(waiting: &[Request], latest: &mut [u16], first: usize)
    requires { (length latest.old ≡ most_clients) × (first + length waiting.now ≤ largest16) }
    ensures { latest.new ≡ latest_of first (clients_of waiting.now) latest.old }
{
    for (i, w) in waiting.iter().enumerate() {
        note(latest, w.client, first + i);
    }
}

// A client's last candidate: its place, 1 added, and the client's counts.
#[derive(Clone, Copy)]
struct LastCandidate {
    at: u16,
    counts: Counts,
}

// The counts of client c in a client table by its numbers, a new request of `client` counted in submitted already.
fn counts_with(numbers: &[u32], client: u64, c: u64) -> Counts
    requires { (get_or (records_of numbers.now) client zero_counts).submitted < largest32 }
    ensures { result ≡ counts_with client (records_of numbers.now) c }
{
    let counts = clients::counts_at(numbers, c);
    if c != client {
        return counts;
    }
    if clients::record_count(numbers) <= c as usize {
        return counts;
    }
    Counts {
        submitted: counts.submitted + 1,
        ..counts
    }
}

// Whether a's miss ratio, dropped divided by submitted, is smaller than b's. Multiplied out, so nothing is rounded.
#[tactic(auto, unfolding(spec::specs::Chart::has_smaller_ratio))]
fn has_smaller_ratio(a: Counts, b: Counts) -> bool
    ensures { result ≡ has_smaller_ratio a b }
{
    u64::from(a.dropped) * u64::from(b.submitted) < u64::from(b.dropped) * u64::from(a.submitted)
}

// The better of two as a victim.
#[tactic(auto, unfolding(crate::specs::Scans::better_candidate))]
fn better(best: LastCandidate, next: LastCandidate) -> LastCandidate
    ensures { result ≡ better_candidate best next }
{
    let a = best.counts;
    let b = next.counts;
    if has_smaller_ratio(a, b) {
        return best;
    }
    if has_smaller_ratio(b, a) {
        return next;
    }
    if next.at < best.at {
        return best;
    }
    next
}

// The first client that has a candidate.
fn first_candidate(latest: &[u16]) -> Option<usize>
    ensures { MatchOption result (EachIndex latest.now (λ k. slice_index latest.now k ≡ 0))
        (λ i. (i < length latest.now) × (slice_index latest.now i ≢ 0) × ((k : ℕ) → k < i → slice_index latest.now k ≡ 0)) }
{
    latest.iter().position(|at| *at != 0)
}

// The victim's place, from each client's last candidate; 0 where no client has one. The first candidate is the best until a better one
// comes: with an `Option` for the best, the loop was measured to take up to 1.5 times as long.
pub fn smallest_ratio_place(latest: &[u16], numbers: &[u32], client: u64) -> usize
    requires { (get_or (records_of numbers.now) client zero_counts).submitted < largest32 }
    ensures { result ≡ smallest_ratio_place (counts_with client (records_of numbers.now)) latest.now (length latest.now) }
{
    let Some(first) = first_candidate(latest) else {
        return 0;
    };
    let mut best = LastCandidate {
        at: latest[first],
        counts: counts_with(numbers, client, first as u64),
    };
    for c in first + 1..latest.len() {
        let at = latest[c];
        let counts = counts_with(numbers, client, c as u64);
        if at != 0 {
            best = better(best, LastCandidate { at, counts });
        }
    }
    usize::from(best.at) - 1
}
