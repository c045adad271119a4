// A period's start, for the client table as its numbers are lent.
ghost use Rattle.std.specs.Prelude.{◌≡◌, ◌&&◌, ltb};
ghost use Rattle.spec.specs.Calls.Tick.{is_period_start};
ghost use Rattle.table.specs.Clients.{changed_all, restarted_counts, restarted_numbers};

use crate::clients::{get, put, record_count, waiting_count};
use spec::types::Counts;

// A client's counts at a period's start: submitted becomes its waiting count, served and dropped become 0.
fn restarted_counts(k: Counts) -> Counts
    ensures { result ≡ restarted_counts k }
{
    Counts {
        submitted: waiting_count(k) as u32,
        served: 0,
        dropped: 0,
    }
}

// A period's start, for each client.
#[tactic(auto, using(spec::proofs::Laws::Layout::length_records))]
fn restart(numbers: &mut [u32])
    ensures { numbers.new ≡ changed_all restarted_counts numbers.old }
{
    for i in 0..record_count(numbers) {
        put(numbers, i, restarted_counts(get(numbers, i)));
    }
}

// Whether the clock is a multiple of the period; no clock is one of 0.
fn is_period_start(period: u64, clock: u64) -> bool
    ensures { result ≡ ltb 0 period && is_period_start period clock }
{
    period != 0 && clock.is_multiple_of(period)
}

// A period's start where the clock is at one; at any other nothing changes.
pub fn restart_at(period: u64, clock: u64, numbers: &mut [u32])
    ensures { numbers.new ≡ restarted_numbers period clock numbers.old }
{
    if is_period_start(period, clock) {
        restart(numbers);
    }
}
