// The recorder's read queue: its calls, over the head, by value, and lent tables. Nothing is asked of the caller: where tables
// or arguments are not as they should be the call is refused by its number, and head, tables and output stay as they were.
#![tactic(auto)]

mod submission;

ghost use Rattle.std.specs.Prelude.{◌≡◌, length, replicate};
ghost use Rattle.spec.specs.declared.types.Head.{Head};
ghost use Rattle.spec.specs.Tables.{zero_request, state_of};
ghost use Rattle.spec.specs.Calls.Chart.{chart_output};
ghost use Rattle.spec.specs.Calls.{opening, tick, report, chart};
ghost use Rattle.queue.specs.Gives.{Gives, ComesTo};
ghost use Rattle.queue.specs.Serving.{served_from, table_served};

use decide::reply::unless_refused;
use occupancy::starts;
pub use spec::types::Reply;
use spec::types::{Head, Reason, Request, Setup};
pub use submission::submit;
use table::waiting;

// Open: the clock, the last number, the waiting count and every record of both tables become zero.
pub fn open(head: Head, waiting: &mut [Request], clients: &mut [u32], setup: Setup) -> Reply
    ensures { Gives (opening setup)
        (state_of head waiting.old clients.old) result
        (state_of result.head waiting.new clients.new) }
{
    unless_refused(head, try_open(waiting, clients, setup))
}

// An open, or why it is refused, whatever the head.
fn try_open(waiting: &mut [Request], clients: &mut [u32], setup: Setup) -> Result<Reply, Reason>
    ensures { (head : Head) → ComesTo (opening setup) (state_of head waiting.old clients.old) result waiting.new clients.new }
{
    decide::open::check(waiting, clients, setup)?;
    clear(waiting, clients);
    Ok(decide::open::reply(setup))
}

// ".. and every record to zero.": both tables.
#[tactic(auto, using(crate::proofs::Laws::Open::zeroed))]
fn clear(waiting: &mut [Request], clients: &mut [u32])
    ensures records { waiting.new ≡ replicate (length waiting.old) zero_request }
    ensures numbers { clients.new ≡ replicate (length clients.old) 0 }
{
    waiting.fill(Request::default());
    clients.fill(0);
}

// Tick: the first waiting record is served, or none waits, or the slot is closed; then the clock rises by 1, and a period may begin.
pub fn tick(head: Head, waiting: &mut [Request], clients: &mut [u32]) -> Reply
    ensures { Gives tick
        (state_of head waiting.old clients.old) result
        (state_of result.head waiting.new clients.new) }
{
    unless_refused(head, try_tick(head, waiting, clients))
}

// A tick, or why it is refused.
fn try_tick(head: Head, waiting: &mut [Request], clients: &mut [u32]) -> Result<Reply, Reason>
    ensures { ComesTo tick (state_of head waiting.old clients.old) result waiting.new clients.new }
{
    decide::tick::check(head, waiting, clients)?;
    let serves = decide::tick::is_slot_open(head);
    let gone = take_first(waiting, head, serves);
    decide::tick::count(clients, head, gone);
    Ok(decide::tick::reply(head, serves, gone))
}

// The first waiting record is taken out where the slot is open, and handed back where there is one.
fn take_first(waiting: &mut [Request], head: Head, serves: bool) -> Option<Request>
    ensures gone { result ≡ served_from serves head waiting.old }
    ensures table { waiting.new ≡ table_served serves head waiting.old }
{
    if !serves {
        return None;
    }
    waiting::remove(waiting, head.waiting as usize, 0)
}

// Report: a client's three counts and its waiting count.
pub fn report(head: Head, waiting: &[Request], clients: &[u32], client: u64) -> Reply
    ensures { Gives (report client)
        (state_of head waiting.now clients.now) result
        (state_of result.head waiting.now clients.now) }
{
    unless_refused(head, try_report(head, waiting, clients, client))
}

// A report, or why it is refused.
fn try_report(
    head: Head,
    waiting: &[Request],
    clients: &[u32],
    client: u64,
) -> Result<Reply, Reason>
    ensures { ComesTo (report client) (state_of head waiting.now clients.now) result waiting.now clients.now }
{
    decide::report::check(head, waiting, clients, client)?;
    Ok(decide::report::reply(head, clients, client))
}

// Chart: one start slot a waiting record, into the output; entries beyond stay as they were.
pub fn chart(head: Head, waiting: &[Request], clients: &[u32], output: &mut [u64]) -> Reply
    ensures { Gives (chart output.old)
        (state_of head waiting.now clients.now) result
        (state_of result.head waiting.now clients.now)
        × (output.new ≡ chart_output output.old
        (state_of head waiting.now clients.now)) }
{
    unless_refused(head, try_chart(head, waiting, clients, output))
}

// A chart, or why it is refused.
fn try_chart(
    head: Head,
    waiting: &[Request],
    clients: &[u32],
    output: &mut [u64],
) -> Result<Reply, Reason>
    ensures reply { ComesTo (chart output.old) (state_of head waiting.now clients.now) result waiting.now clients.now }
    ensures output { output.new ≡ chart_output output.old (state_of head waiting.now clients.now) }
{
    decide::chart::check(head, waiting, clients, output)?;
    let n = head.waiting as usize;
    starts::write_starts(head.setup, &waiting[..n], output);
    Ok(decide::chart::reply(head))
}
