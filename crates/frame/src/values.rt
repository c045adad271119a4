// The table of characters' values.
ghost use Rattle.std.specs.Prelude.{◌≡◌};
ghost use Rattle.spec.specs.Lines.Frames.{digit_of};
ghost use Rattle.frame.specs.Digits.{digit_table};

// A character's value: 0 to 15, or 255 where it is no digit.
const VALUES: [u8; 256] = [
    255, 255, 255, 255, 255, 255, 255, 255, 255, 255, 255, 255, 255, 255, 255, 255, 255, 255, 255,
    255, 255, 255, 255, 255, 255, 255, 255, 255, 255, 255, 255, 255, 255, 255, 255, 255, 255, 255,
    255, 255, 255, 255, 255, 255, 255, 255, 255, 255, 0, 1, 2, 3, 4, 5, 6, 7, 8, 9, 255, 255, 255,
    255, 255, 255, 255, 10, 11, 12, 13, 14, 15, 255, 255, 255, 255, 255, 255, 255, 255, 255, 255,
    255, 255, 255, 255, 255, 255, 255, 255, 255, 255, 255, 255, 255, 255, 255, 255, 255, // a
    255, // b
    255, // c
    255, // d
    255, // e
    255, // f
    255, 255, 255, 255, 255, 255, 255, 255, 255, 255, 255, 255, 255, 255, 255, 255, 255, 255, 255,
    255, 255, 255, 255, 255, 255, 255, 255, 255, 255, 255, 255, 255, 255, 255, 255, 255, 255, 255,
    255, 255, 255, 255, 255, 255, 255, 255, 255, 255, 255, 255, 255, 255, 255, 255, 255, 255, 255,
    255, 255, 255, 255, 255, 255, 255, 255, 255, 255, 255, 255, 255, 255, 255, 255, 255, 255, 255,
    255, 255, 255, 255, 255, 255, 255, 255, 255, 255, 255, 255, 255, 255, 255, 255, 255, 255, 255,
    255, 255, 255, 255, 255, 255, 255, 255, 255, 255, 255, 255, 255, 255, 255, 255, 255, 255, 255,
    255, 255, 255, 255, 255, 255, 255, 255, 255, 255, 255, 255, 255, 255, 255, 255, 255, 255, 255,
    255, 255, 255, 255, 255, 255, 255, 255, 255, 255, 255, 255, 255, 255, 255, 255, 255, 255, 255,
    255,
];

// The table, for a caller to make once and lend: `VALUES[i]` itself would copy all 256 entries at each use.
pub fn digit_table() -> [u8; 256]
    ensures { result ≡ digit_table }
{
    VALUES
}

// The table as it is lent.
#[derive(Clone, Copy)]
pub(crate) struct DigitTable<'a> {
    values: &'a [u8],
    ghost is_table: { values.now ≡ digit_table },
}

impl<'a> DigitTable<'a> {
    pub(crate) fn new(values: &'a [u8]) -> DigitTable<'a>
        requires { values.now ≡ digit_table }
    {
        DigitTable { values }
    }

    // A character's value.
    pub(crate) fn value_of(self, character: u8) -> u8
        ensures { result ≡ digit_of character }
    {
        self.values[usize::from(character)]
    }
}
