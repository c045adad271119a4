// Setup, head and answer as numbers in lent arrays.
ghost use Rattle.std.specs.Prelude.{◌+◌, ◌≤◌, ◌≡◌, drop, take};
ghost use Rattle.spec.specs.Calls.Readings.{kind_of};
ghost use Rattle.welsbell.specs.Numbers.{mark_bytes, setup_with, head_of, head_numbers, marks_after, value_numbers, written};

use spec::types::{Answer, Head, Setup};

// How many numbers there are: a setup's beside its marks, a head's, which are its setup's and three more, and an answer's at most.
pub const SETUP_WIDTH: usize = 3;

pub const HEAD_WIDTH: usize = SETUP_WIDTH + 3;

pub const MOST_VALUES: usize = 5;

// How many bytes the 168 marks are.
pub const MARK_BYTES: usize = 21;

// So many of the marks' bytes from one place on.
fn bytes_at<const N: usize>(marks: &[u8; MARK_BYTES], from: usize) -> [u8; N]
    requires { from + N ≤ mark_bytes }
    ensures { result ≡ take N (drop from marks.now) }
{
    let mut bytes = [0; N];
    bytes.copy_from_slice(&marks[from..from + N]);
    bytes
}

// The setup whose numbers and marks these are. Functions and no `From`, here and below: the types of both sides are other crates'.
pub(crate) fn setup_of(numbers: [u64; SETUP_WIDTH], marks: &[u8; MARK_BYTES]) -> Setup
    ensures { result ≡ setup_with numbers marks.now }
{
    let [clients, period, hour] = numbers;
    Setup {
        clients,
        period,
        hour,
        marks0: u64::from_be_bytes(bytes_at(marks, 0)),
        marks64: u64::from_be_bytes(bytes_at(marks, 8)),
        marks128: u32::from_be_bytes(bytes_at(marks, 16)),
        marks160: marks[20],
    }
}

// The head whose numbers and marks these are.
pub(crate) fn head_of(numbers: &[u64; HEAD_WIDTH], marks: &[u8; MARK_BYTES]) -> Head
    ensures { result ≡ head_of numbers.now marks.now }
{
    let [clients, period, hour, clock, last, waiting] = *numbers;
    Head {
        setup: setup_of([clients, period, hour], marks),
        clock,
        last,
        waiting,
    }
}

// The head's numbers are written. Its marks are those that it had, but for an open that is accepted.
pub(crate) fn write_head(numbers: &mut [u64; HEAD_WIDTH], head: Head)
    ensures { numbers.new ≡ head_numbers head }
{
    *numbers = [
        head.setup.clients,
        head.setup.period,
        head.setup.hour,
        head.clock,
        head.last,
        head.waiting,
    ];
}

// The marks that an open is given become the head's, where it is answered opened.
pub(crate) fn write_marks(hours: &mut [u8; MARK_BYTES], marks: &[u8; MARK_BYTES], answer: Answer)
    ensures { hours.new ≡ marks_after (kind_of answer) marks.now hours.old }
{
    if matches!(answer, Answer::Opened) {
        *hours = *marks;
    }
}

// An answer's kind is the paper's, document 01, "Session lines".
fn kind_of(answer: Answer) -> u64
    ensures { result ≡ kind_of answer }
{
    match answer {
        Answer::Opened => 0x81,
        Answer::Kept { .. } => 0x82,
        Answer::Dropped { .. } => 0x83,
        Answer::Served { .. } => 0x84,
        Answer::Idle { .. } => 0x85,
        Answer::Reported { .. } => 0x86,
        Answer::Charted { .. } => 0x88,
        Answer::Closed { .. } => 0x89,
        Answer::Refused { .. } => 0xFF,
    }
}

// Numbers over the front of the array; those behind them stay.
#[tactic(auto, unfolding(crate::specs::Numbers::written))]
fn write_over<const N: usize>(values: &mut [u64; MOST_VALUES], numbers: [u64; N])
    requires { N ≤ 5 }
    ensures { values.new ≡ written numbers.entry values.old }
{
    values[..N].copy_from_slice(&numbers);
}

// An answer's values stand in the paper's order.
#[tactic(auto, unfolding(crate::specs::Numbers::value_numbers, crate::specs::Numbers::written))]
fn write_values(values: &mut [u64; MOST_VALUES], answer: Answer)
    ensures { values.new ≡ written (value_numbers answer) values.old }
{
    match answer {
        Answer::Opened => {}
        Answer::Kept {
            number,
            place,
            shift,
        } => write_over(values, [number, place, shift]),
        Answer::Dropped {
            number,
            victim,
            client,
            shift,
        } => write_over(values, [number, victim, client, shift]),
        Answer::Served {
            slot,
            number,
            client,
        } => write_over(values, [slot, number, client]),
        Answer::Idle { slot } => write_over(values, [slot]),
        Answer::Reported {
            client,
            submitted,
            served,
            dropped,
            waiting,
        } => write_over(values, [client, submitted, served, dropped, waiting]),
        Answer::Charted { count } => write_over(values, [count]),
        Answer::Closed { slot } => write_over(values, [slot]),
        Answer::Refused { number } => write_over(values, [number]),
    }
}

// The answer's values are written, and its kind handed back.
pub(crate) fn write_answer(values: &mut [u64; MOST_VALUES], answer: Answer) -> u64
    ensures { (result ≡ kind_of answer) × (values.new ≡ written (value_numbers answer) values.old) }
{
    write_values(values, answer);
    kind_of(answer)
}
