// The chart's start slots, from the last record to the first, in one pass from the waiting table.
ghost use Rattle.std.specs.Prelude.{◌≡◌, ◌≤◌, ◌++◌, min, length, drop};
ghost use Rattle.spec.specs.Tables.{deadlines_of};
ghost use Rattle.hours.specs.Week.{latest_open};
ghost use Rattle.occupancy.specs.Charted.{start_slots};

use hours::calendar::Stretch;
use hours::{calendar, marks};
use spec::types::{Request, Setup};
use std::marker::Model;

// Where the chart stands: the start slot of the record behind, and open slots among which it lies.
#[derive(Drop)]
struct Reached {
    setup: Setup,
    next: u64,
    stretch: Stretch,
}

// Seen from outside as the setup and that start slot. The slots of the stretch are open.
impl Model for Reached {
    ghost use Rattle.std.specs.Prelude.{ℕ};
    ghost use Rattle.spec.specs.declared.types.Setup.{Setup};
    ghost use Rattle.hours.specs.Week.{OpenFrom};

    ghost Value = { Setup × ℕ };

    ghost view = { λ r. (r.setup, r.next) };

    ghost invariant = { λ r. OpenFrom r.setup r.stretch };
}

impl Reached {
    // Before the last record: no start slot is behind it, for which the largest number stands, since no deadline is larger. With all hours
    // open every slot is among those at hand, and else none is.
    fn at_end(setup: Setup) -> Reached
        ensures { result ≡ (setup, 18446744073709551615) }
    {
        if marks::are_all_open(setup) {
            return Reached {
                setup,
                next: u64::MAX,
                stretch: calendar::stretch_to(u64::MAX),
            };
        }
        Reached {
            setup,
            next: u64::MAX,
            stretch: calendar::stretch_to(0),
        }
    }

    // On to the latest open slot before a deadline and before the start slot of the record behind; 0 where there is none. The open slots at hand
    // serve as long as it lies among them.
    fn go_before(&mut self, deadline: u64)
        ensures { self.new ≡ (self.old.0, latest_open self.old.0 (min deadline self.old.1)) }
    {
        let held = self.stretch;
        let end = deadline.min(self.next);
        if (held.hour.start < end) & (end <= held.end) {
            self.next = end - 1;
            return;
        }
        let stretch = calendar::open_stretch_before(self.setup, held.hour, end);
        let next = stretch.end.saturating_sub(1);
        self.next = next;
        self.stretch = stretch;
    }
}

// The start slots of these records, into the first entries of the output; those beyond stay as they are. By index, since of entries written
// through `iter_mut` no proof knows what they hold.
pub fn write_starts(setup: Setup, waiting: &[Request], out: &mut [u64])
    requires { length waiting.now ≤ length out.old }
    ensures { out.new ≡ start_slots setup (deadlines_of waiting.now) ++ drop (length waiting.now) out.old }
{
    let mut reached = Reached::at_end(setup);
    for i in (0..waiting.len()).rev() {
        reached.go_before(waiting[i].deadline);
        out[i] = reached.next;
    }
}
