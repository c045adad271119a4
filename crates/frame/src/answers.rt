// The lines that answer a frame. Each `write_` writes at the front of what it is lent and hands back how many characters that are;
// each `put_` writes behind the first `at` characters of an output and hands back where they end.
ghost use Rattle.std.specs.Prelude.{◌++◌, ◌≡◌, ℕ, ◌+◌, ◌*◌, ◌<◌, ◌≤◌, map, length, get_or, take};
ghost use Rattle.spec.specs.Chart.{segments_of};
ghost use Rattle.spec.specs.Lines.Frames.{digits, line_of, answer_line, answer_lines, chart_lines};
ghost use Rattle.table.specs.Widths.{largest64};
ghost use Rattle.frame.specs.Written.{written};
ghost use Rattle.frame.specs.LineLengths.{line_length, segment_length, count_length, longest_line, most_bytes, CanDraw};

use crate::digits;
use occupancy::segments::Segments;
use spec::bounds::MOST_RECORDS;
use spec::types::{Answer, Setup};

// The characters of the longest line, a drop's, with its line feed: a kind byte, two numbers of 8 bytes, a client and a shift.
pub const LONGEST_LINE: usize = 2 * (1 + 8 + 8 + 2 + 2) + 1;

// The characters of the longest reply: a line for each segment, a kind byte and two ends, and their count's.
pub const MOST_BYTES: usize = MOST_RECORDS * (2 * (1 + 8 + 8) + 1) + (2 * (1 + 2) + 1);

// "widths in bytes in brackets": a number and its width in bytes.
#[derive(Clone, Copy)]
struct Field {
    width: usize,
    value: u64,
}

// A value in so many bytes.
fn wide(width: usize, value: u64) -> Field
    ensures { result ≡ record { width = width; value = value } }
{
    Field { width, value }
}

// A field's digits.
fn write_field(out: &mut [u8], field: Field) -> usize
    requires { 2 * field.width ≤ length out.old }
    ensures { (result ≡ 2 * field.width) × (take result out.new ≡ digits (2 * field.width) field.value) }
{
    let count = 2 * field.width;
    digits::write_digits(&mut out[..count], field.value);
    count
}

// A line of a kind and its fields. Their number is a parameter, so that each kind's line is compiled with its own widths: over a slice of
// fields a line took nearly three times as long.
fn write_line<const N: usize>(out: &mut [u8], kind: u64, fields: [Field; N]) -> usize
    requires { line_length (map written fields) ≤ length out.old }
    ensures { (result ≡ line_length (map written fields.entry)) × (take result out.new ≡ line_of kind (map written fields.entry)) }
{
    let mut end = write_field(out, wide(1, kind));
    for field in &fields {
        end += write_field(&mut out[end..], *field);
    }
    out[end] = b'\n';
    end + 1
}

// An answer's line. The kinds are numbers here, each beside its fields as the paper lists them: an enum would list the answers once more.
fn write_answer(out: &mut [u8], answer: Answer) -> usize
    requires { longest_line ≤ length out.old }
    ensures { (result ≡ length (answer_line answer)) × (result ≤ longest_line) × (take result out.new ≡ answer_line answer) }
{
    match answer {
        Answer::Opened => write_line(out, 0x81, []),
        Answer::Kept {
            number,
            place,
            shift,
        } => write_line(out, 0x82, [wide(8, number), wide(2, place), wide(2, shift)]),
        Answer::Dropped {
            number,
            victim,
            client,
            shift,
        } => write_line(
            out,
            0x83,
            [
                wide(8, number),
                wide(8, victim),
                wide(2, client),
                wide(2, shift),
            ],
        ),
        Answer::Served {
            slot,
            number,
            client,
        } => write_line(out, 0x84, [wide(8, slot), wide(8, number), wide(2, client)]),
        Answer::Idle { slot } => write_line(out, 0x85, [wide(8, slot)]),
        Answer::Reported {
            client,
            submitted,
            served,
            dropped,
            waiting,
        } => write_line(
            out,
            0x86,
            [
                wide(2, client),
                wide(4, submitted),
                wide(4, served),
                wide(4, dropped),
                wide(2, waiting),
            ],
        ),
        Answer::Charted { count } => write_line(out, 0x88, [wide(2, count)]),
        Answer::Closed { slot } => write_line(out, 0x89, [wide(8, slot)]),
        Answer::Refused { number } => write_line(out, 0xFF, [wide(1, number)]),
    }
}

// A line for each segment of these start slots, from the left, and their count's.
fn write_chart(setup: Setup, out: &mut [u8], starts: &[u64]) -> usize
    requires { (segment_length * length starts.now + count_length ≤ length out.old)
        × ((k : ℕ) → k < length starts.now → get_or starts.now k 0 < largest64) }
    ensures { (result ≡ length (chart_lines (segments_of setup starts.now)))
        × (result ≤ segment_length * length starts.now + count_length)
        × (take result out.new ≡ chart_lines (segments_of setup starts.now)) }
{
    let mut end = 0;
    let mut count: u64 = 0;
    for ends in Segments::new(setup, starts) {
        end += write_line(
            &mut out[end..],
            0x87,
            [wide(8, ends.left), wide(8, ends.right)],
        );
        count += 1;
    }
    end + write_line(&mut out[end..], 0x88, [wide(2, count)])
}

// A reply: an answer's line; a chart's as the segments of its start slots.
fn write_reply(setup: Setup, out: &mut [u8], answer: Answer, starts: &[u64]) -> usize
    requires { (most_bytes ≤ length out.old) × CanDraw answer starts.now }
    ensures { (result ≡ length (answer_lines setup starts.now answer)) × (result ≤ most_bytes)
        × (take result out.new ≡ answer_lines setup starts.now answer) }
{
    match answer {
        Answer::Charted { count } => write_chart(setup, out, &starts[..count as usize]),
        _ => write_answer(out, answer),
    }
}

// An answer's line, behind a place: `docs/PROMISES.md` names this call and `put_reply` so.
pub fn put_answer(out: &mut [u8], at: usize, answer: Answer) -> usize
    requires { at + longest_line ≤ length out.old }
    ensures { (result ≡ at + length (answer_line answer)) × (result ≤ at + longest_line)
        × (take result out.new ≡ take at out.old ++ answer_line answer) }
{
    at + write_answer(&mut out[at..], answer)
}

// A reply: an answer's line; a chart's as the segments of its start slots.
pub fn put_reply(setup: Setup, out: &mut [u8], at: usize, answer: Answer, starts: &[u64]) -> usize
    requires { (at + most_bytes ≤ length out.old) × CanDraw answer starts.now }
    ensures { (result ≡ at + length (answer_lines setup starts.now answer)) × (result ≤ at + most_bytes)
        × (take result out.new ≡ take at out.old ++ answer_lines setup starts.now answer) }
{
    at + write_reply(setup, &mut out[at..], answer, starts)
}
