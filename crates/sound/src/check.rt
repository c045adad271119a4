// The refusal that the tables call for: first by the lengths and the head, then by the waiting records, those behind them, and the
// clients' counts, each record and each client looked at once, and each waiting record once more where hours are closed.
ghost use Rattle.std.specs.Prelude.{◌≡◌, ◌≤◌, cond, length, drop};
ghost use Rattle.spec.specs.Every.{every, is_within};
ghost use Rattle.spec.specs.Tables.{state_of};
ghost use Rattle.spec.specs.Setup.{first_match, setup_refusals};
ghost use Rattle.spec.specs.Reasons.{refused_by};
ghost use Rattle.spec.specs.Sound.{is_zero_request, is_head_within};
ghost use Rattle.sound.specs.Checks.{has_shape, head_refusal, contents_refusal, tables_refusal};

use crate::tally::Tally;
use crate::{records, room};
use hours::marks;
use spec::bounds;
use spec::types::{Head, Reason, Request, Setup};
use table::clients;

// Whether a number is within these bounds.
fn is_within(low: u64, high: u64, x: u64) -> bool
    ensures { result ≡ is_within low high x }
{
    (low..=high).contains(&x)
}

// Why a setup is refused, by the first refusal that matches.
#[tactic(auto, unfolding(spec::specs::Setup::first_match, spec::specs::Setup::setup_refusals))]
pub fn check_setup(setup: Setup) -> Result<(), Reason>
    ensures { refused_by result ≡ first_match (setup_refusals setup) }
{
    if !is_within(1, bounds::MOST_CLIENTS as u64, setup.clients) {
        return Err(Reason::Clients);
    }
    if !is_within(1, bounds::MOST_PERIOD, setup.period) {
        return Err(Reason::Period);
    }
    if !is_within(1, bounds::MOST_PER_HOUR, setup.hour) {
        return Err(Reason::SlotsPerHour);
    }
    if marks::are_all_closed(setup) {
        return Err(Reason::AllClosed);
    }
    Ok(())
}

// Whether the head is within its bounds.
#[tactic(auto, unfolding(spec::specs::Sound::is_head_within))]
pub(crate) fn is_head_within(head: Head) -> bool
    ensures { result ≡ is_head_within head }
{
    check_setup(head.setup).is_ok()
        & (head.clock <= bounds::CLOCK_END)
        & (head.last <= bounds::NUMBER_END)
}

// Whether a waiting table of so many records and a client table of so many numbers fit the head.
#[tactic(auto, unfolding(crate::specs::Checks::has_shape))]
pub(crate) fn has_shape(head: Head, records: usize, numbers: usize) -> bool
    ensures { result ≡ has_shape head records numbers }
{
    is_within(1, bounds::MOST_RECORDS as u64, records as u64)
        & clients::are_records(numbers, head.setup.clients)
        & (head.waiting <= records as u64)
}

// Why lengths and head are refused, where they are: 4 or 5.
#[tactic(auto, unfolding(crate::specs::Checks::head_refusal))]
fn check_head(head: Head, records: usize, numbers: usize) -> Result<(), Reason>
    ensures { refused_by result ≡ head_refusal head records numbers }
{
    if !has_shape(head, records, numbers) {
        return Err(Reason::Lengths);
    }
    if !is_head_within(head) {
        return Err(Reason::Unsound);
    }
    Ok(())
}

// Tables of which what is asked does not hold are unsound.
fn sound_if(holds: bool) -> Result<(), Reason>
    ensures { refused_by result ≡ cond holds 0 5 }
{
    if holds {
        return Ok(());
    }
    Err(Reason::Unsound)
}

// Whether the records behind the first n are zero.
fn are_zero_behind(waiting: &[Request], n: usize) -> bool
    requires { n ≤ length waiting.now }
    ensures { result ≡ every is_zero_request (drop n waiting.now) }
{
    records::are_zero(&waiting[n..])
}

// Whether the contents of the tables are sound where all slots count, if lengths and head are not refused: the waiting records are passed
// over first, then those behind them, then the clients.
fn check_contents(waiting: &[Request], numbers: &[u32], head: Head) -> Result<(), Reason>
    requires { head_refusal head (length waiting.now) (length numbers.now) ≡ 0 }
    ensures { refused_by result ≡ contents_refusal (state_of head waiting.now numbers.now) }
{
    let mut tally = Tally::new();
    let n = head.waiting as usize;
    sound_if(records::are_next(&waiting[..n], &mut tally, head))?;
    sound_if(are_zero_behind(waiting, n))?;
    sound_if(tally.are_balanced(numbers, head.setup.clients as usize))
}

// Why the tables are refused, where they are. The room by open slots is asked last and apart: whatever lives across the pass over the
// records takes one of its registers, which every call pays for.
pub fn check_tables(waiting: &[Request], numbers: &[u32], head: Head) -> Result<(), Reason>
    ensures { refused_by result ≡ tables_refusal (state_of head waiting.now numbers.now) }
{
    check_head(head, waiting.len(), numbers.len())?;
    check_contents(waiting, numbers, head)?;
    sound_if(room::have_room(&waiting[..head.waiting as usize], head))
}
