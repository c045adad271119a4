// The search for a deadline record by record, by whatever test.
ghost use Rattle.std.specs.Prelude.{◌≡◌, ℕ, ◌+◌, ◌^◌, ◌≤◌, Bool, length};
ghost use Rattle.spec.specs.Tables.{deadlines_of};
ghost use Rattle.occupancy.specs.Scans.{if_any, first_by, Takes, Answers};

use spec::types::Request;

// A deadline that was found. The deadline 0, which no record of a sound table has, counts as none.
pub(crate) fn if_any(deadline: u64) -> Option<u64>
    ensures { result ≡ if_any deadline }
{
    (deadline != 0).then_some(deadline)
}

// The first of these records' deadlines that is full by a test, which is told how much is taken before each: so much before the first of
// them, and one more before each of the others.
pub(crate) fn first_full<F: Fn(u64, u64) -> bool>(
    waiting: &[Request],
    taken: u64,
    is_full: F,
) -> Option<u64>
    requires fits { taken + length waiting.now ≤ 2 ^ 51 }
    requires callable { Takes (F.pre is_full) (taken + length waiting.now) }
    ensures { (test : ℕ → ℕ → Bool) → Answers (F.post is_full) (taken + length waiting.now) test
        → result ≡ if_any (first_by test taken (deadlines_of waiting.now)) }
{
    for (i, w) in waiting.iter().enumerate() {
        let deadline = w.deadline;
        if is_full(taken + i as u64, deadline) {
            return if_any(deadline);
        }
    }
    None
}
