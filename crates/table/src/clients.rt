// The client table as one lent slice of numbers: client c's submitted, served and dropped are the numbers 3c, 3c + 1 and 3c + 2.
// Only `records` and `put` know where in the table a record's counts stand.
ghost use Rattle.std.specs.Prelude.{◌≡◌, ◌+◌, ◌*◌, ◌<◌, eqb, length, get_or, map};
ghost use Rattle.spec.specs.Tables.{client_width, records_of, zero_counts};
ghost use Rattle.table.specs.Clients.{changed_at, counts_of, one_more_unless_full, waiting_count};

use spec::types::Counts;

// How many numbers a record is.
pub const CLIENT_WIDTH: usize = 3;

// The whole records that the numbers hold.
fn records(numbers: &[u32]) -> &[[u32; CLIENT_WIDTH]]
    ensures { (map counts_of result.now ≡ records_of numbers.now) × (length result.now ≡ length (records_of numbers.now)) }
{
    let (records, _) = numbers.as_chunks::<CLIENT_WIDTH>();
    records
}

// How many whole records the numbers hold.
pub fn record_count(numbers: &[u32]) -> usize
    ensures { result ≡ length (records_of numbers.now) }
{
    records(numbers).len()
}

// Whether so many numbers are one record for each of so many clients. By division, since a product of any number of clients might
// not fit.
pub fn are_records(count: usize, clients: u64) -> bool
    ensures { result ≡ eqb count (client_width * clients) }
{
    count % CLIENT_WIDTH == 0 && (count / CLIENT_WIDTH) as u64 == clients
}

// The record at an index. Its bound is asked by index wherever one is read: other languages lend the table as numbers.
#[tactic(auto, using(spec::proofs::Laws::Layout::length_records))]
pub fn get(numbers: &[u32], i: usize) -> Counts
    requires { client_width * i + 2 < length numbers.now }
    ensures { result ≡ get_or (records_of numbers.now) i zero_counts }
{
    let [submitted, served, dropped] = &records(numbers)[i];
    Counts {
        submitted: *submitted,
        served: *served,
        dropped: *dropped,
    }
}

// Writes a record at an index. By numbers: of a slice that `as_chunks_mut` lends, nothing is said of what it ends as.
pub fn put(numbers: &mut [u32], i: usize, k: Counts)
    requires { client_width * i + 2 < length numbers.old }
    ensures { numbers.new ≡ changed_at (λ _. k) i numbers.old }
{
    let at = CLIENT_WIDTH * i;
    numbers[at] = k.submitted;
    numbers[at + 1] = k.served;
    numbers[at + 2] = k.dropped;
}

// A client's counts; zero where the client does not exist.
#[tactic(auto, using(spec::proofs::Laws::Layout::length_records))]
pub fn counts_at(numbers: &[u32], client: u64) -> Counts
    ensures { result ≡ get_or (records_of numbers.now) client zero_counts }
{
    let i = client as usize;
    if i < record_count(numbers) {
        return get(numbers, i);
    }
    Counts::default()
}

// Writes a client's counts, where the client exists.
#[tactic(auto, using(spec::proofs::Laws::Layout::length_records))]
fn put_at(numbers: &mut [u32], client: u64, k: Counts)
    ensures { numbers.new ≡ changed_at (λ _. k) client numbers.old }
{
    let i = client as usize;
    if i < record_count(numbers) {
        put(numbers, i, k);
    }
}

// One of a client's counts. Cases and no closure that changes one, since contracts name which.
#[derive(Clone, Copy)]
pub enum Count {
    Submitted,
    Served,
    Dropped,
}

// Counts with 1 added to one of them, unless it is the largest number.
fn one_more(k: Counts, which: Count) -> Counts
    ensures { result ≡ one_more_unless_full which k }
{
    match which {
        Count::Submitted => Counts {
            submitted: k.submitted.saturating_add(1),
            ..k
        },
        Count::Served => Counts {
            served: k.served.saturating_add(1),
            ..k
        },
        Count::Dropped => Counts {
            dropped: k.dropped.saturating_add(1),
            ..k
        },
    }
}

// Adds 1 to one of a client's counts.
pub fn add_one(numbers: &mut [u32], client: u64, which: Count)
    ensures { numbers.new ≡ changed_at (one_more_unless_full which) client numbers.old }
{
    let counted = one_more(counts_at(numbers, client), which);
    put_at(numbers, client, counted);
}

// A client's waiting count in sound tables: what was submitted and neither served nor dropped.
pub fn waiting_count(k: Counts) -> u64
    ensures { result ≡ waiting_count k }
{
    let gone = u64::from(k.served) + u64::from(k.dropped);
    u64::from(k.submitted).saturating_sub(gone)
}
