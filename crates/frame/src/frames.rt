// The frame that a line is.
ghost use Rattle.std.specs.Prelude.{◌≡◌, length, MatchOption};
ghost use Rattle.spec.specs.declared.types.Frame.TheVariants.{Bad};
ghost use Rattle.spec.specs.Lines.Frames.{open_kind, digits_for, frame_in, frame_of};
ghost use Rattle.frame.specs.Digits.{digit_table};
ghost use Rattle.frame.specs.Kinds.{named, IsKindOf};

use crate::digits::Digits;
use crate::values::DigitTable;
use spec::types::{Frame, Setup};

// The digits of each frame: two for its kind byte, and two for each byte of its fields.
const BARE_DIGITS: usize = 2 * 1;

const OPEN_DIGITS: usize = 2 * (1 + 2 + 4 + 2 + 4 + 21);

const SUBMIT_DIGITS: usize = 2 * (1 + 2 + 8);

const REPORT_DIGITS: usize = 2 * (1 + 2);

// The digits of the longest frame, open's; no frame has fewer than a kind byte.
pub const LONGEST_FRAME: usize = OPEN_DIGITS;

// A kind of frame.
#[derive(Clone, Copy)]
enum Kind {
    Open,
    Submit,
    Tick,
    Report,
    Chart,
}

// A kind byte that no frame has.
#[derive(Clone, Copy)]
struct UnknownKind;

impl TryFrom<u64> for Kind {
    type Error = UnknownKind;

    ghost try_from_gives = { IsKindOf };

    fn try_from(byte: u64) -> Result<Kind, UnknownKind> {
        match byte {
            0x01 => Ok(Kind::Open),
            0x02 => Ok(Kind::Submit),
            0x03 => Ok(Kind::Tick),
            0x04 => Ok(Kind::Report),
            0x05 => Ok(Kind::Chart),
            _ => Err(UnknownKind),
        }
    }
}

impl Kind {
    // The digits of a frame of this kind.
    fn digits(self) -> usize
        ensures { result ≡ digits_for (named self).widths }
    {
        match self {
            Kind::Open => OPEN_DIGITS,
            Kind::Submit => SUBMIT_DIGITS,
            Kind::Tick | Kind::Chart => BARE_DIGITS,
            Kind::Report => REPORT_DIGITS,
        }
    }

    // The frame of this kind that a line of its length is.
    fn frame(self, digits: Digits) -> Frame
        requires { length digits.line.now ≡ digits_for (named self).widths }
        ensures { result ≡ frame_in (named self) digits.entry.line.now }
    {
        match self {
            Kind::Open => open_frame(digits),
            Kind::Submit => Frame::Submit {
                client: digits.field(1, 2),
                deadline: digits.field(3, 8),
            },
            Kind::Tick => Frame::Tick,
            Kind::Report => Frame::Report {
                client: digits.field(1, 2),
            },
            Kind::Chart => Frame::Chart,
        }
    }
}

// The open that a line of its length is.
fn open_frame(digits: Digits) -> Frame
    requires { length digits.line.now ≡ digits_for open_kind.widths }
    ensures { result ≡ frame_in open_kind digits.entry.line.now }
{
    Frame::Open {
        setup: Setup {
            clients: digits.field(1, 2),
            period: digits.field(3, 4),
            hour: digits.field(9, 4),
            marks0: digits.field(13, 8),
            marks64: digits.field(21, 8),
            marks128: digits.field(29, 4) as u32,
            marks160: digits.field(33, 1) as u8,
        },
        records: digits.field(7, 2),
    }
}

// The frame that a line is, where it is one.
fn frame_in(table: DigitTable, line: &[u8]) -> Option<Frame>
    ensures { MatchOption result (frame_of line.now ≡ Bad) (λ frame. frame_of line.now ≡ frame) }
{
    let count = line.len();
    if count < BARE_DIGITS || LONGEST_FRAME < count {
        return None;
    }
    let digits = Digits::new(table, line)?;
    let Ok(kind) = Kind::try_from(digits.field(0, 1)) else {
        return None;
    };
    if count != kind.digits() {
        return None;
    }
    Some(kind.frame(digits))
}

// The frame that a line is, and `Bad` where it is none.
pub fn frame_of(table: &[u8], line: &[u8]) -> Frame
    requires { table.now ≡ digit_table }
    ensures { result ≡ frame_of line.now }
{
    frame_in(DigitTable::new(table), line).unwrap_or(Frame::Bad)
}
