// The five calls over numbers in arrays, and the version, for the crate that exports them to programs in other languages. A setup and a head
// are arrays of their numbers, in the order of their fields, and beside them stand the marks of the hours as 21 bytes, first hour in the
// highest bit. The result is the answer's kind; its values go over the front of an array, and what stands behind them stays.
// Nothing is asked of the caller.
#![tactic(auto)]

mod numbers;

ghost use Rattle.std.specs.Prelude.{◌≡◌};
ghost use Rattle.spec.specs.Tables.{state_of};
ghost use Rattle.spec.specs.Calls.Chart.{chart_output};
ghost use Rattle.spec.specs.Calls.{opening, submit, tick, report, chart};
ghost use Rattle.welsbell.specs.Numbers.{version, setup_with, head_of, Exported};

pub use numbers::{HEAD_WIDTH, MARK_BYTES, MOST_VALUES, SETUP_WIDTH};
use spec::types::Request;

const VERSION: u64 = 4;

// The archive's version: a header of another version does not fit it.
pub fn welsbell_version() -> u64
    ensures { result ≡ version }
{
    VERSION
}

// Open: every record of both tables becomes zero.
pub fn welsbell_open(
    head: &mut [u64; HEAD_WIDTH],
    hours: &mut [u8; MARK_BYTES],
    waiting: &mut [Request],
    clients: &mut [u32],
    setup: &[u64; SETUP_WIDTH],
    marks: &[u8; MARK_BYTES],
    values: &mut [u64; MOST_VALUES],
) -> u64
    ensures { Exported (opening (setup_with setup.now marks.now))
        (state_of (head_of head.old hours.old) waiting.old clients.old)
        values.old result values.new
        (state_of (head_of head.new hours.new) waiting.new clients.new) }
{
    let given = numbers::setup_of(*setup, marks);
    let reply = queue::open(numbers::head_of(head, hours), waiting, clients, given);
    numbers::write_head(head, reply.head);
    numbers::write_marks(hours, marks, reply.answer);
    numbers::write_answer(values, reply.answer)
}

// Submit: a request of a client with a deadline.
pub fn welsbell_submit(
    head: &mut [u64; HEAD_WIDTH],
    hours: &[u8; MARK_BYTES],
    waiting: &mut [Request],
    clients: &mut [u32],
    client: u64,
    deadline: u64,
    values: &mut [u64; MOST_VALUES],
) -> u64
    ensures { Exported (submit client deadline)
        (state_of (head_of head.old hours.now) waiting.old clients.old)
        values.old result values.new
        (state_of (head_of head.new hours.now) waiting.new clients.new) }
{
    let reply = queue::submit(
        numbers::head_of(head, hours),
        waiting,
        clients,
        client,
        deadline,
    );
    numbers::write_head(head, reply.head);
    numbers::write_answer(values, reply.answer)
}

// Tick: one slot passes.
pub fn welsbell_tick(
    head: &mut [u64; HEAD_WIDTH],
    hours: &[u8; MARK_BYTES],
    waiting: &mut [Request],
    clients: &mut [u32],
    values: &mut [u64; MOST_VALUES],
) -> u64
    ensures { Exported tick
        (state_of (head_of head.old hours.now) waiting.old clients.old)
        values.old result values.new
        (state_of (head_of head.new hours.now) waiting.new clients.new) }
{
    let reply = queue::tick(numbers::head_of(head, hours), waiting, clients);
    numbers::write_head(head, reply.head);
    numbers::write_answer(values, reply.answer)
}

// Report: a client's three counts and its waiting count. Head and tables are only read.
pub fn welsbell_report(
    head: &[u64; HEAD_WIDTH],
    hours: &[u8; MARK_BYTES],
    waiting: &[Request],
    clients: &[u32],
    client: u64,
    values: &mut [u64; MOST_VALUES],
) -> u64
    ensures { Exported (report client)
        (state_of (head_of head.now hours.now) waiting.now clients.now)
        values.old result values.new
        (state_of (head_of head.now hours.now) waiting.now clients.now) }
{
    let reply = queue::report(numbers::head_of(head, hours), waiting, clients, client);
    numbers::write_answer(values, reply.answer)
}

// Chart: the start slots into the output. Head and tables are only read.
pub fn welsbell_chart(
    head: &[u64; HEAD_WIDTH],
    hours: &[u8; MARK_BYTES],
    waiting: &[Request],
    clients: &[u32],
    output: &mut [u64],
    values: &mut [u64; MOST_VALUES],
) -> u64
    ensures { Exported (chart output.old)
        (state_of (head_of head.now hours.now) waiting.now clients.now)
        values.old result values.new
        (state_of (head_of head.now hours.now) waiting.now clients.now)
        × (output.new ≡ chart_output output.old
        (state_of (head_of head.now hours.now) waiting.now clients.now)) }
{
    let reply = queue::chart(numbers::head_of(head, hours), waiting, clients, output);
    numbers::write_answer(values, reply.answer)
}
