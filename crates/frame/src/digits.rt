// Upper-case hexadecimal digits: what a line's characters and fields stand for, and how numbers are written.
ghost use Rattle.std.specs.Prelude.{true, false, ◌≡◌, ◌+◌, ◌*◌, ◌^◌, ◌<◌, ◌≤◌, length, MatchOption};
ghost use Rattle.spec.specs.Every.{every};
ghost use Rattle.spec.specs.Lines.Frames.{is_digit, character_of, field_at, digits};

use crate::values::DigitTable;

// A line whose characters are all digits, with the table of their values.
#[derive(Clone, Copy)]
pub(crate) struct Digits<'a> {
    table: DigitTable<'a>,
    line: &'a [u8],
    ghost are_digits: { every is_digit line.now ≡ true },
}

// Whether each character is a digit.
fn are_digits(table: DigitTable, line: &[u8]) -> bool
    ensures { result ≡ every is_digit line.now }
{
    line.iter().all(|character| table.value_of(*character) < 16)
}

impl<'a> Digits<'a> {
    // A line's digits, or `None` where one of its characters is none.
    pub(crate) fn new(table: DigitTable<'a>, line: &'a [u8]) -> Option<Digits<'a>>
        ensures { MatchOption result (every is_digit line.now ≡ false) (λ digits. digits.line.now ≡ line.now) }
    {
        if are_digits(table, line) {
            Some(Digits { table, line })
        } else {
            None
        }
    }

    // The field of `width` bytes behind the first `from` bytes of a frame: big-endian. It fits so many bytes.
    pub(crate) fn field(self, from: usize, width: usize) -> u64
        requires { (2 * (from + width) ≤ length self.line.now) × (width ≤ 8) }
        ensures { (result ≡ field_at from width self.entry.line.now) × (result < 16 ^ (2 * width)) }
    {
        let mut number: u64 = 0;
        for character in &self.line[2 * from..2 * (from + width)] {
            number = number * 16 + u64::from(self.table.value_of(*character));
        }
        number
    }
}

// The character of a value below 16: the letters stand 7 behind where the figures would go on. There is no branch in it, since
// most of what a session writes are digits: with an `if` lines took 1.09 times as long.
fn character_of(value: u64) -> u8
    requires { value < 16 }
    ensures { result ≡ character_of value }
{
    let letter = (value + 6) / 16;
    (48 + value + 7 * letter) as u8
}

// Writes the last digits of a value, as many as there is room for. It goes by places: of what is written through `iter_mut().rev()` a
// proof knows nothing.
pub(crate) fn write_digits(out: &mut [u8], value: u64)
    ensures { out.new ≡ digits (length out.old) value }
{
    let mut left = value;
    for k in (0..out.len()).rev() {
        out[k] = character_of(left % 16);
        left /= 16;
    }
}
