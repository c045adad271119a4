// The calls for programs in other languages, and the version: each exports the call of its name of crate `welsbell`, under the same clauses.
// Nothing is asked of the caller but pointers that are good for what is behind them, none lent twice.
#![tactic(auto)]

ghost use Rattle.std.specs.Prelude.{◌≡◌};
ghost use Rattle.spec.specs.Tables.{state_of};
ghost use Rattle.spec.specs.Calls.Chart.{chart_output};
ghost use Rattle.spec.specs.Calls.{opening, submit, tick, report, chart};
ghost use Rattle.welsbell.specs.Numbers.{version, setup_with, head_of, Exported};

use spec::types::Request;
use welsbell::{HEAD_WIDTH, MARK_BYTES, MOST_VALUES, SETUP_WIDTH};

// The archive's version: a header of another version does not fit it.
#[unsafe(no_mangle)]
pub extern "C" fn welsbell_version() -> u64
    ensures { result ≡ version }
{
    welsbell::welsbell_version()
}

// Open: every record of both tables becomes zero.
#[unsafe(no_mangle)]
pub extern "C" fn welsbell_open(
    head: &mut [u64; HEAD_WIDTH],
    hours: &mut [u8; MARK_BYTES],
    waiting: &mut [Request],
    clients: &mut [u32],
    setup: &[u64; SETUP_WIDTH],
    marks: &[u8; MARK_BYTES],
    values: &mut [u64; MOST_VALUES],
) -> u64
    ensures { Exported (opening (setup_with setup.now marks.now))
        (state_of (head_of head.old hours.old) waiting.old clients.old)
        values.old result values.new
        (state_of (head_of head.new hours.new) waiting.new clients.new) }
{
    welsbell::welsbell_open(head, hours, waiting, clients, setup, marks, values)
}

// Submit: a request of a client with a deadline.
#[unsafe(no_mangle)]
pub extern "C" fn welsbell_submit(
    head: &mut [u64; HEAD_WIDTH],
    hours: &[u8; MARK_BYTES],
    waiting: &mut [Request],
    clients: &mut [u32],
    client: u64,
    deadline: u64,
    values: &mut [u64; MOST_VALUES],
) -> u64
    ensures { Exported (submit client deadline)
        (state_of (head_of head.old hours.now) waiting.old clients.old)
        values.old result values.new
        (state_of (head_of head.new hours.now) waiting.new clients.new) }
{
    welsbell::welsbell_submit(head, hours, waiting, clients, client, deadline, values)
}

// Tick: one slot passes.
#[unsafe(no_mangle)]
pub extern "C" fn welsbell_tick(
    head: &mut [u64; HEAD_WIDTH],
    hours: &[u8; MARK_BYTES],
    waiting: &mut [Request],
    clients: &mut [u32],
    values: &mut [u64; MOST_VALUES],
) -> u64
    ensures { Exported tick
        (state_of (head_of head.old hours.now) waiting.old clients.old)
        values.old result values.new
        (state_of (head_of head.new hours.now) waiting.new clients.new) }
{
    welsbell::welsbell_tick(head, hours, waiting, clients, values)
}

// Report: a client's three counts and its waiting count. Head and tables are only read.
#[unsafe(no_mangle)]
pub extern "C" fn welsbell_report(
    head: &[u64; HEAD_WIDTH],
    hours: &[u8; MARK_BYTES],
    waiting: &[Request],
    clients: &[u32],
    client: u64,
    values: &mut [u64; MOST_VALUES],
) -> u64
    ensures { Exported (report client)
        (state_of (head_of head.now hours.now) waiting.now clients.now)
        values.old result values.new
        (state_of (head_of head.now hours.now) waiting.now clients.now) }
{
    welsbell::welsbell_report(head, hours, waiting, clients, client, values)
}

// Chart: the start slots into the output. Head and tables are only read.
#[unsafe(no_mangle)]
pub extern "C" fn welsbell_chart(
    head: &[u64; HEAD_WIDTH],
    hours: &[u8; MARK_BYTES],
    waiting: &[Request],
    clients: &[u32],
    output: &mut [u64],
    values: &mut [u64; MOST_VALUES],
) -> u64
    ensures { Exported (chart output.old)
        (state_of (head_of head.now hours.now) waiting.now clients.now)
        values.old result values.new
        (state_of (head_of head.now hours.now) waiting.now clients.now)
        × (output.new ≡ chart_output output.old
        (state_of (head_of head.now hours.now) waiting.now clients.now)) }
{
    welsbell::welsbell_chart(head, hours, waiting, clients, output, values)
}
