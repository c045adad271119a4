// The 168 marks of document 02, 2.2: single ones, and how many hours are open. They stand in four numbers, first hour in the highest bit.
ghost use Rattle.std.specs.Prelude.{◌≡◌, ◌+◌, ◌*◌, ◌-◌, ◌%◌, ◌≤◌, ◌<◌, eqb, length, get_or};
ghost use Rattle.spec.specs.Tables.{hours};
ghost use Rattle.spec.specs.Hours.{bit, mark_of, sum_from, open_hours};
ghost use Rattle.hours.specs.Week.{are_all_open, last_word, Counted, CountedOn};

use spec::bounds::HOURS;
use spec::types::Setup;

// Whether every hour is open. By `&`: with `&&` `calendar::is_any_open` takes 1.3 times as long where every hour is.
#[tactic(auto, unfolding(crate::specs::Week::are_all_open))]
pub fn are_all_open(setup: Setup) -> bool
    ensures { result ≡ are_all_open setup }
{
    ((setup.marks0 == u64::MAX) & (setup.marks64 == u64::MAX))
        & ((setup.marks128 == u32::MAX) & (setup.marks160 == u8::MAX))
}

// Whether every hour is closed.
pub fn are_all_closed(setup: Setup) -> bool
    ensures { result ≡ eqb (open_hours setup) 0 }
{
    setup.marks0 == 0 && setup.marks64 == 0 && setup.marks128 == 0 && setup.marks160 == 0
}

// The marks stand in three words, 64 hours in each: this one has those of the last two numbers.
fn last_word(setup: Setup) -> u64
    ensures { result ≡ last_word setup }
{
    (u64::from(setup.marks128) << 32) + (u64::from(setup.marks160) << 24)
}

// The word that has the mark of an hour of the week.
fn word_of(setup: Setup, hour: u64) -> u64
    requires { hour < hours }
    ensures { bit result (63 - hour % 64) ≡ mark_of setup hour }
{
    match hour {
        0..=63 => setup.marks0,
        64..=127 => setup.marks64,
        _ => last_word(setup),
    }
}

// The mark of an hour of the week.
pub fn mark_of(setup: Setup, hour: u64) -> u64
    requires { hour < hours }
    ensures { result ≡ mark_of setup hour }
{
    (word_of(setup, hour) >> (63 - hour % 64)) % 2
}

// How many of the highest n bits of a word are 1.
fn highest_ones(word: u64, n: u64) -> u64
    requires { n ≤ 64 }
    ensures { (result ≡ sum_from (λ k. bit word (63 - k)) 0 n) × (result ≤ n) }
{
    if n == 0 {
        return 0;
    }
    u64::from((word >> (64 - n)).count_ones())
}

// How many of the week's first n hours are open.
pub fn open_hours_among(setup: Setup, n: u64) -> u64
    requires { n ≤ hours }
    ensures { (result ≡ sum_from (mark_of setup) 0 n) × (result ≤ n) }
{
    if n <= 64 {
        return highest_ones(setup.marks0, n);
    }
    let first = highest_ones(setup.marks0, 64);
    if n <= 128 {
        return first + highest_ones(setup.marks64, n - 64);
    }
    let second = first + highest_ones(setup.marks64, 64);
    second + highest_ones(last_word(setup), n - 128)
}

// The counts of open hours go on behind place `from`, whose count is read, by the highest n bits of a word.
fn count_word(counts: &mut [u8], from: usize, word: u64, n: usize)
    requires { (from + n < length counts.old) × (n ≤ 64) × (get_or counts.old from 0 + n ≤ 255) }
    ensures { CountedOn counts.old counts.new from word n }
{
    for k in 0..n {
        let open = (word >> (63 - k)) % 2;
        counts[from + k + 1] = counts[from + k] + open as u8;
    }
}

// How many of the week's first hours are open, for each number of hours.
pub fn count_open_hours(setup: Setup) -> [u8; HOURS as usize + 1]
    ensures { Counted setup result }
{
    let mut counts = [0; HOURS as usize + 1];
    count_word(&mut counts, 0, setup.marks0, 64);
    count_word(&mut counts, 64, setup.marks64, 64);
    count_word(&mut counts, 128, last_word(setup), 40);
    counts
}
