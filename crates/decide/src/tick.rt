// Tick: why it is refused, what becomes of the client table, and what it hands back. `serves` says whether its slot is open, and `gone` is the
// record that went out of the waiting table, where one did.
ghost use Rattle.std.specs.Prelude.{◌≡◌};
ghost use Rattle.spec.specs.Hours.{is_open};
ghost use Rattle.spec.specs.Tables.{state_of};
ghost use Rattle.spec.specs.Setup.{first_match};
ghost use Rattle.spec.specs.Reasons.{refused_by};
ghost use Rattle.spec.specs.Calls.Tick.{tick_refusals};
ghost use Rattle.decide.specs.Tick.{tick_numbers, waiting_after, tick_answer, tick_reply};

use hours::calendar;
use sound::check::check_tables;
use spec::bounds;
use spec::types::{Answer, Head, Reason, Reply, Request};
use table::clients::{Count, add_one};
use table::period;

// Why a tick is refused, by the first refusal that matches.
pub fn check(head: Head, waiting: &[Request], clients: &[u32]) -> Result<(), Reason>
    ensures { refused_by result ≡ first_match (tick_refusals (state_of head waiting.now clients.now)) }
{
    check_tables(waiting, clients, head)?;
    if head.clock == bounds::CLOCK_END {
        return Err(Reason::ClockEnd);
    }
    Ok(())
}

// Whether the slot that starts at the clock is open.
pub fn is_slot_open(head: Head) -> bool
    ensures { result ≡ is_open head.setup head.clock }
{
    calendar::is_open(head.setup, head.clock)
}

// What a tick does to the client table: the record that is served, where one is, is counted in served; then the slot ends, and at a period's
// start the counts restart.
pub fn count(clients: &mut [u32], head: Head, gone: Option<Request>)
    ensures { clients.new ≡ tick_numbers head gone clients.old }
{
    if let Some(served) = gone {
        add_one(clients, served.client, Count::Served);
    }
    period::restart_at(head.setup.period, head.clock.saturating_add(1), clients);
}

// How many wait after it: one less where the slot is open.
fn waiting_after(head: Head, serves: bool) -> u64
    ensures { result ≡ waiting_after serves head }
{
    if !serves {
        return head.waiting;
    }
    head.waiting.saturating_sub(1)
}

// The answer of a tick. Whether the slot is open stands beside the record that went out: where none did, the slot is closed or idle.
fn answer(head: Head, serves: bool, gone: Option<Request>) -> Answer
    ensures { result ≡ tick_answer serves head gone }
{
    if !serves {
        return Answer::Closed { slot: head.clock };
    }
    match gone {
        Some(served) => Answer::Served {
            slot: head.clock,
            number: served.number,
            client: served.client,
        },
        None => Answer::Idle { slot: head.clock },
    }
}

// The reply of a tick: the head one slot later, and the answer.
pub fn reply(head: Head, serves: bool, gone: Option<Request>) -> Reply
    ensures { result ≡ tick_reply serves head gone }
{
    let after = Head {
        clock: head.clock.saturating_add(1),
        waiting: waiting_after(head, serves),
        ..head
    };
    let said = answer(head, serves, gone);
    Reply {
        head: after,
        answer: said,
    }
}
