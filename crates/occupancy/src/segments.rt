// The chart's segments, one after the other.
ghost use Rattle.std.specs.Prelude.{◌≡◌, ℕ, ◌+◌, ◌<◌, length, get_or};
ghost use Rattle.std.specs.Iterator.{YieldsFirstBy, item_count};
ghost use Rattle.spec.specs.Chart.{do_touch, segments_of};
ghost use Rattle.table.specs.Widths.{largest64};
ghost use Rattle.occupancy.specs.Charted.{segment};

use hours::calendar;
use spec::types::Setup;

// A segment's two ends.
#[derive(Clone, Copy, PartialEq, Eq, Default)]
pub struct Ends {
    pub left: u64,
    pub right: u64,
}

// Where the interval of a start slot ends: one after its own slot, whether the next one is open or not.
fn end_of(start: u64) -> u64
    requires { start < largest64 }
    ensures { result ≡ start + 1 }
{
    start + 1
}

// Whether an interval that ends at `end` touches one that starts at `start`: no open slot lies between.
fn do_touch(setup: Setup, end: u64, start: u64) -> bool
    ensures { result ≡ do_touch setup end start }
{
    if end == start {
        return true;
    }
    !calendar::is_any_open(setup, end, start)
}

// The segments of these start slots, one after the other.
#[derive(Drop)]
pub struct Segments<'a> {
    setup: Setup,
    starts: &'a [u64],
    ghost are_slots: { (k : ℕ) → k < length starts.now → get_or starts.now k 0 < largest64 },
}

impl<'a> Segments<'a> {
    pub fn new(setup: Setup, starts: &'a [u64]) -> Segments<'a>
        requires { (k : ℕ) → k < length starts.now → get_or starts.now k 0 < largest64 }
        ensures { (result.setup ≡ setup) × (result.starts ≡ starts.entry) }
    {
        Segments { setup, starts }
    }
}

impl<'a> Iterator for Segments<'a> {
    type Item = Ends;

    ghost next_gives = { YieldsFirstBy (λ e. segment e.left e.right) (λ s. segments_of s.setup s.starts.now) };

    ghost remaining = { item_count (λ s. segments_of s.setup s.starts.now) };

    // The segment that begins with the interval of the first start slot that is left.
    fn next(&mut self) -> Option<Ends> {
        let (first, behind) = self.starts.split_first()?;
        let left = *first;
        let mut right = end_of(left);
        let mut rest = behind;
        while let Some((next, behind)) = rest.split_first() {
            let start = *next;
            if !do_touch(self.setup, right, start) {
                break;
            }
            right = end_of(start);
            rest = behind;
        }
        self.starts = rest;
        Some(Ends { left, right })
    }
}
