// The search for the first overfull deadline by open slots. Open slots before a deadline take a division, so that most records are gone
// over by eights and by fours, with sums alone, and only those that a line does not tell of one by one.
ghost use Rattle.std.specs.Prelude.{◌≡◌, ◌+◌, ◌≤◌, ◌^◌, true, false, length, drop, MatchOption};
ghost use Rattle.spec.specs.Tables.{most_records, clock_end, deadlines_of};
ghost use Rattle.hours.specs.Week.{Below};
ghost use Rattle.occupancy.specs.Fours.{are_above, are_eight_above, is_full, is_one_full, first_full};
ghost use Rattle.occupancy.specs.Scans.{Sorted, overfull_from, if_any};

use crate::scan;
use hours::calendar::{Line, Week};
use spec::types::{Head, Request};

// A search for the first full deadline: the records that are left to look at, the line to hold for the next of them, and how many open slots
// are taken before the first of them: those before the clock, and one for each request ahead of it. The deadlines ascend, and all sums fit.
#[derive(Clone, Copy)]
struct Search<'a> {
    week: &'a Week,
    line: Line,
    taken: u64,
    left: &'a [Request],
    ghost below: { Below week.now.setup line },
    ghost fits: { taken + length left.now ≤ 2 ^ 50 },
    ghost ascends: { Sorted (deadlines_of left.now) },
}

impl<'a> Search<'a> {
    // The search behind the next n records. Field by field, as `..` takes no struct with ghost fields.
    fn behind(self, n: usize) -> Search<'a>
        requires { n ≤ length self.left.now }
        ensures { (result.week ≡ self.entry.week) × (result.taken ≡ self.entry.taken + n) × (result.left.now ≡ drop n self.entry.left.now) }
    {
        Search {
            week: self.week,
            line: self.line,
            taken: self.taken + n as u64,
            left: &self.left[n..],
        }
    }

    // Whether eight deadlines, none before the first of them, have more open slots before them than are taken, as far as the line tells: where
    // the first has room for all eight, so have those behind it. Two sums and one deadline, so that the other seven need not be read.
    fn are_eight_roomy(&self, first: u64) -> bool
        ensures { result ≡ are_eight_above self.now.line self.now.taken first }
    {
        (self.taken + 7 < self.line.reach) & (self.line.floor + self.taken + 7 < first)
    }

    // The search behind the records that have room by the line alone, by eights: it finds the same. The deadlines ascend, so that the first of
    // eight tells of all of them, and one record in eight is read.
    fn behind_eights(self) -> Search<'a>
        ensures { (first_full result.week.now.setup result.taken result.left.now
            ≡ first_full self.entry.week.now.setup self.entry.taken self.entry.left.now)
            × (result.week ≡ self.entry.week) × (length result.left.now ≤ length self.entry.left.now) }
    {
        let mut search = self;
        while let Some(eight) = search.left.first_chunk::<8>() {
            if !search.are_eight_roomy(eight[0].deadline) {
                break;
            }
            search = search.behind(8);
        }
        search
    }

    // Whether the next four deadlines have more open slots before them than are taken, as far as the line tells. Five sums and no division; all
    // five are tested, since they take less time than branches between them.
    fn are_roomy(&self, due: [u64; 4]) -> bool
        ensures { result ≡ are_above self.now.line self.now.taken due }
    {
        let base = self.line.floor + self.taken;
        (self.taken + 3 < self.line.reach)
            & ((base < due[0]) & (base + 1 < due[1]))
            & ((base + 2 < due[2]) & (base + 3 < due[3]))
    }

    // Whether a deadline has no more open slots before it than are taken.
    fn is_full(&self, taken: u64, deadline: u64) -> bool
        ensures { result ≡ is_full self.now.week.now.setup taken deadline }
    {
        self.week.open_before(deadline) <= taken
    }

    // Whether one of the next four deadlines is full.
    fn is_one_full(&self, due: [u64; 4]) -> bool
        ensures { result ≡ is_one_full self.now.week.now.setup self.now.taken due }
    {
        let first = self.is_full(self.taken, due[0]);
        let second = self.is_full(self.taken + 1, due[1]);
        let third = self.is_full(self.taken + 2, due[2]);
        let fourth = self.is_full(self.taken + 3, due[3]);
        (first | second) | (third | fourth)
    }

    // The search with the line to hold behind the next four deadlines; none where one of these is full. The line held tells of most fours; where
    // it does not, the first one's own line; and where that does not, each deadline is looked at.
    fn over_four(self, due: [u64; 4]) -> Option<Search<'a>>
        ensures { MatchOption result (is_one_full self.entry.week.now.setup self.entry.taken due ≡ true)
            (λ next. (is_one_full self.entry.week.now.setup self.entry.taken due ≡ false)
            × (next.week ≡ self.entry.week) × (next.taken ≡ self.entry.taken) × (next.left ≡ self.entry.left)) }
    {
        if self.are_roomy(due) {
            return Some(self);
        }
        let next = Search {
            week: self.week,
            line: self.week.line(due[0]),
            taken: self.taken,
            left: self.left,
        };
        if next.are_roomy(due) {
            return Some(next);
        }
        (!next.is_one_full(due)).then_some(next)
    }

    // The search behind the records that have room, by eights and fours: it finds the same. A turn goes over the eights that the line held
    // tells of, and then looks at four records, which give the line for the next turn. By eights and fours, so that a line is tested once for
    // eight records or for four.
    fn behind_fours(self) -> Search<'a>
        ensures { (first_full result.week.now.setup result.taken result.left.now
            ≡ first_full self.entry.week.now.setup self.entry.taken self.entry.left.now)
            × (result.week ≡ self.entry.week) }
    {
        let mut search = self.behind_eights();
        while let Some(four) = search.left.first_chunk::<4>() {
            let [a, b, c, d] = *four;
            let Some(next) = search.over_four([a.deadline, b.deadline, c.deadline, d.deadline])
            else {
                break;
            };
            search = next.behind(4).behind_eights();
        }
        search
    }

    // The first full deadline, record by record.
    fn first_full(self) -> Option<u64>
        ensures { result ≡ if_any (first_full self.entry.week.now.setup self.entry.taken self.entry.left.now) }
    {
        scan::first_full(
            self.left,
            self.taken,
            |taken, deadline| self.is_full(taken, deadline),
        )
    }
}

// The search by eights and fours up to the first four of which one is full, and from there one by one. The hours are counted once for all
// records.
pub fn overfull_by_counts(head: Head, waiting: &[Request], before: usize) -> Option<u64>
    requires { (before + length waiting.now ≤ most_records) × (head.clock ≤ clock_end) × (1 ≤ head.setup.hour)
        × Sorted (deadlines_of waiting.now) }
    ensures { result ≡ if_any (overfull_from head before (deadlines_of waiting.now)) }
{
    let week = Week::new(head.setup);
    let search = Search {
        week: &week,
        line: week.line(head.clock),
        taken: week.open_before(head.clock) + before as u64,
        left: waiting,
    };
    search.behind_fours().first_full()
}
