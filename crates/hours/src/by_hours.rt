// Open slots counted by whole hours, document 02, 2.2, wherever the open hours of the week are looked up.
ghost use Rattle.std.specs.Prelude.{◌≡◌, ◌%◌, ◌≤◌, ◌<◌};
ghost use Rattle.spec.specs.Tables.{hours};
ghost use Rattle.spec.specs.Hours.{mark_of, sum_from, room};
ghost use Rattle.spec.specs.declared.types.Setup.{Setup};
ghost use Rattle.hours.specs.Week.{open_hours_before};

use spec::bounds::HOURS;
use spec::types::Setup;

// What tells of the open hours of a setup's week: the setup itself by the bits of its numbers, and a week by its counts. Each hour has slots.
pub trait OpenHours {
    ghost setup: { Self → Setup };

    fn setup(&self) -> Setup
        ensures { result ≡ setup self.now };

    // The mark of an hour of the week: a number below 168 and no type that says so, since it is a remainder at each call.
    fn mark_of(&self, hour: u64) -> u64
        requires { hour < hours }
        ensures { result ≡ mark_of (setup self.now) hour };

    // How many of the week's first n hours are open.
    fn open_hours_among(&self, n: u64) -> u64
        requires { n ≤ hours }
        ensures { (result ≡ sum_from (mark_of (setup self.now)) 0 n) × (result ≤ n) };

    ghost has_slots: { (week : Self) → 1 ≤ (setup week).hour };
}

// The number of an hour in its week: the marks repeat after hour 167.
pub fn of_week(hour: u64) -> u64
    ensures { result ≡ hour % hours }
{
    hour % HOURS
}

// How many of the hours before this one, counted from clock 0, are open.
pub fn open_hours_before<W: OpenHours>(week: &W, hour: u64) -> u64
    ensures { (result ≡ open_hours_before (W.setup week.now) hour) × (result ≤ hour) }
{
    let whole = week.open_hours_among(HOURS);
    let rest = week.open_hours_among(of_week(hour));
    hour / HOURS * whole + rest
}

// How many open slots come before a slot.
pub fn open_before<W: OpenHours>(week: &W, slot: u64) -> u64
    ensures { (result ≡ room (W.setup week.now) 0 slot) × (result ≤ slot) }
{
    let slots = week.setup().hour;
    let hour = slot / slots;
    let mark = week.mark_of(of_week(hour));
    open_hours_before(week, hour) * slots + mark * (slot % slots)
}
