// Open slots by the hour: document 02, 2.2. A setup with no slots an hour, which no sound head has, has every slot in hour 0.
ghost use Rattle.std.specs.Prelude.{◌≡◌, ◌+◌, ◌*◌, ◌≤◌, ◌<◌, ltb};
ghost use Rattle.spec.specs.Hours.{is_open, room};
ghost use Rattle.hours.specs.Week.{Counted, Below, latest_open, IsHour, stretch_to, OpenFrom};

use crate::by_hours::{OpenHours, of_week};
use crate::{by_hours, marks};
use spec::bounds::HOURS;
use spec::types::Setup;

// As many hours are gone back in steps.
const FEW_HOURS: u64 = 4;

// The last slot that has a line.
const LAST_OF_LINES: u64 = 1 << 50;

// Whether a slot is open: by the mark of its hour, which is hour 0 where hours have no slots.
pub fn is_open(setup: Setup, slot: u64) -> bool
    ensures { result ≡ is_open setup slot }
{
    if marks::are_all_open(setup) {
        return true;
    }
    let hour = slot.checked_div(setup.hour).unwrap_or(0);
    marks::mark_of(setup, of_week(hour)) == 1
}

// How many open slots come before a slot.
pub fn open_before(setup: Setup, slot: u64) -> u64
    ensures { (result ≡ room setup 0 slot) × (result ≤ slot) }
{
    if setup.hour == 0 {
        return marks::mark_of(setup, 0) * slot;
    }
    by_hours::open_before(&HourlySetup { setup }, slot)
}

// Whether one of the slots from, .. to - 1 is open.
pub fn is_any_open(setup: Setup, from: u64, to: u64) -> bool
    ensures { result ≡ ltb 0 (room setup from to) }
{
    if marks::are_all_open(setup) {
        return from < to;
    }
    let before = open_before(setup, from);
    let after = open_before(setup, to);
    before < after
}

// A setup with the open hours of its week counted. Whoever looks at many slots makes it once, since a look into the counts takes a fraction
// of the time in which the bits of four numbers are counted.
#[derive(Drop)]
pub struct Week {
    pub setup: Setup,
    counts: [u8; HOURS as usize + 1],
    ghost counted: { Counted setup counts },
    ghost has_slots: { 1 ≤ setup.hour },
}

impl OpenHours for Week {
    ghost setup = { λ week. week.setup };

    ghost has_slots = { λ week. week.has_slots };

    fn setup(&self) -> Setup {
        self.setup
    }

    // An hour is marked where one more hour is open behind it than before it.
    fn mark_of(&self, hour: u64) -> u64 {
        let number = hour as usize;
        u64::from(self.counts[number + 1] - self.counts[number])
    }

    fn open_hours_among(&self, n: u64) -> u64 {
        u64::from(self.counts[n as usize])
    }
}

impl Week {
    pub fn new(setup: Setup) -> Week
        requires { 1 ≤ setup.hour }
        ensures { result.setup ≡ setup }
    {
        let counts = marks::count_open_hours(setup);
        Week { setup, counts }
    }

    // How many open slots come before a slot.
    pub fn open_before(&self, slot: u64) -> u64
        ensures { (result ≡ room self.now.setup 0 slot) × (result ≤ slot) }
    {
        by_hours::open_before(self, slot)
    }

    // The line of the hour in which a slot lies: its floor is how many slots before the hour are closed, its reach how many before the hour's
    // end are open. Up to the hour's end it tells open slots exactly, so that one line serves for all deadlines in an hour. Beyond slot
    // 2⁵⁰, which no deadline reaches, the line tells nothing, so that sums with a floor fit.
    pub fn line(&self, slot: u64) -> Line
        ensures { Below self.now.setup result }
    {
        if LAST_OF_LINES < slot {
            return Line { floor: 0, reach: 0 };
        }
        let hour = slot / self.setup.hour;
        let start = hour * self.setup.hour;
        let before = by_hours::open_hours_before(self, hour) * self.setup.hour;
        let mark = self.mark_of(of_week(hour));
        Line {
            floor: start - before,
            reach: before + mark * self.setup.hour,
        }
    }
}

// What the open slots before every deadline are not below: a deadline more than n slots behind the floor has more than n open slots
// before it, as long as n is less than the reach. Two sums tell so, where the open slots themselves take a division.
#[derive(Clone, Copy)]
pub struct Line {
    pub floor: u64,
    pub reach: u64,
}

// An hour: its number in the week, and its first slot. That it is one of a setup is said by contracts (`IsHour`) and by no ghost field, which
// would need the setup in each hour.
#[derive(Clone, Copy)]
pub struct Hour {
    pub number: u64,
    pub start: u64,
}

// Slots that are all open, from the first one of an hour to end - 1.
#[derive(Clone, Copy)]
pub struct Stretch {
    pub hour: Hour,
    pub end: u64,
}

// A stretch that begins with slot 0, up to `end`.
pub fn stretch_to(end: u64) -> Stretch
    ensures { result ≡ stretch_to end }
{
    let hour = Hour {
        number: 0,
        start: 0,
    };
    Stretch { hour, end }
}

// A setup whose hours have slots.
#[derive(Clone, Copy)]
struct HourlySetup {
    setup: Setup,
    ghost has_slots: { 1 ≤ setup.hour },
}

impl OpenHours for HourlySetup {
    ghost setup = { λ hourly. hourly.setup };

    ghost has_slots = { λ hourly. hourly.has_slots };

    fn setup(&self) -> Setup {
        self.setup
    }

    fn mark_of(&self, hour: u64) -> u64 {
        marks::mark_of(self.setup, hour)
    }

    fn open_hours_among(&self, n: u64) -> u64 {
        marks::open_hours_among(self.setup, n)
    }
}

impl HourlySetup {
    // The hour in which a slot lies.
    fn hour_of(self, slot: u64) -> Hour
        ensures { IsHour self.setup result × (result.start ≤ slot) × (slot < result.start + self.setup.hour) }
    {
        let hours_before = slot / self.setup.hour;
        Hour {
            number: of_week(hours_before),
            start: hours_before * self.setup.hour,
        }
    }

    // The hour before one that is not the first.
    fn hour_before(self, hour: Hour) -> Hour
        requires { IsHour self.setup hour × (1 ≤ hour.start) }
        ensures { IsHour self.setup result × (result.start + self.setup.hour ≡ hour.start) }
    {
        let number = match hour.number {
            0 => HOURS - 1,
            number => number - 1,
        };
        Hour {
            number,
            start: hour.start - self.setup.hour,
        }
    }

    // An hour from which on the latest open slots before `end` are looked for: where the hour held begins behind `end`, and by few hours, the
    // one before it, since some steps take less time than a division.
    fn hour_to_go_back_from(self, held: Hour, end: u64) -> Hour
        requires { IsHour self.setup held × (1 ≤ end) }
        ensures { IsHour self.setup result × (end ≤ result.start + self.setup.hour) }
    {
        if end <= held.start && (held.start - end) / FEW_HOURS < self.setup.hour {
            return self.hour_before(held);
        }
        self.hour_of(end - 1)
    }

    // The last open slots before `end` that lie in one hour, from an hour back that ends at `end` or behind it. Hours are gone over in one
    // step each. The end goes back with the hour: with the hour alone kept, and the end taken from it where the search stops, charts with a
    // record an hour take 1.1 times as long.
    fn open_stretch_from(self, from: Hour, end: u64) -> Stretch
        requires { IsHour self.setup from × (end ≤ from.start + self.setup.hour) }
        ensures { OpenFrom self.setup result × (result.end ≤ end) × (latest_open self.setup end ≡ latest_open self.setup result.end) }
    {
        let mut hour = from;
        let mut e = end;
        loop {
            let mark = marks::mark_of(self.setup, hour.number);
            if hour.start < e && mark == 1 {
                break Stretch { hour, end: e };
            }
            if hour.start == 0 {
                break stretch_to(0);
            }
            e = u64::min(e, hour.start);
            hour = self.hour_before(hour);
        }
    }
}

// The last open slots before `end` that lie in one hour; none, and both ends 0, where no open slot comes before it. The hour held may be any
// one.
pub fn open_stretch_before(setup: Setup, held: Hour, end: u64) -> Stretch
    requires { IsHour setup held }
    ensures { OpenFrom setup result × (result.end ≤ end) × (latest_open setup end ≡ latest_open setup result.end) }
{
    if end == 0 {
        return stretch_to(0);
    }
    if setup.hour == 0 {
        return if marks::mark_of(setup, 0) == 1 {
            stretch_to(end)
        } else {
            stretch_to(0)
        };
    }
    let hourly = HourlySetup { setup };
    let from = hourly.hour_to_go_back_from(held, end);
    hourly.open_stretch_from(from, end)
}
