// The waiting table, a lent slice of request records: read one, put one in, take one out, put one in for another.
// A record that is put in or taken out moves others by one place, as one block.
ghost use Rattle.std.specs.Prelude.{◌+◌, ◌-◌, ◌<◌, ◌≤◌, ◌≡◌, true, false, cond, length, get_or, set};
ghost use Rattle.spec.specs.Tables.{zero_request};
ghost use Rattle.table.specs.Records.{Slid, replaced, taken_out, shift_at, inserted, removed, removed_from};

use spec::types::Request;

// One record.
pub fn get(t: &[Request], i: usize) -> Request
    requires { i < length t.now }
    ensures { result ≡ get_or t.now i zero_request }
{
    t[i]
}

// One record written.
pub(crate) fn put(t: &mut [Request], i: usize, r: Request)
    requires { i < length t.old }
    ensures { t.new ≡ set t.old i r }
{
    t[i] = r;
}

// The next place: towards the front of the table where `up`, else towards its end. A switch and no closure, for the speed of `slide`.
pub(crate) fn next(i: usize, up: bool) -> usize
    requires { (up ≡ true → 0 < i) × (up ≡ false → i < 18446744073709551615) }
    ensures { result ≡ cond up (i - 1) (i + 1) }
{
    if up {
        return i - 1;
    }
    i + 1
}

// Every record from one place to another moves by one, over the first place. The second is free then: whatever it holds, all
// others stand as they should. `up` says that the second is nearer to the front, as in `next`. By hand for speed: where insert calls it, the
// compiler makes one block move of this loop alone; `copy_within`, `rotate_left` and a `for` take 2 to 4 times as long at 2,048 records.
pub(crate) fn slide(t: &mut [Request], from: usize, to: usize, up: bool)
    requires { (from < length t.old)
        × (to < length t.old)
        × (up ≡ true → to ≤ from)
        × (up ≡ false → from ≤ to) }
    ensures { Slid from to t.old t.new }
{
    let mut i = from;
    while i != to {
        let j = next(i, up);
        let w = get(t, j);
        put(t, i, w);
        i = j;
    }
}

// The records up to `last` move by one to the front, over the first. The constants tell the compiler which way the loop goes, so
// that it moves them as one block.
pub(crate) fn to_front(t: &mut [Request], last: usize)
    requires { last < length t.old }
    ensures { Slid 0 last t.old t.new }
{
    slide(t, 0, last, false);
}

// The same to the back, over the one at `last`.
pub(crate) fn to_back(t: &mut [Request], last: usize)
    requires { last < length t.old }
    ensures { Slid last 0 t.old t.new }
{
    slide(t, last, 0, true);
}

// The one or the other. Each way stays a block only where the choice is made here, over a part that the caller lends.
pub(crate) fn rotate(t: &mut [Request], last: usize, up: bool)
    requires { last < length t.old }
    ensures { Slid (cond up last 0) (cond up 0 last) t.old t.new }
{
    if up {
        return to_back(t, last);
    }
    to_front(t, last)
}

// Every record between two places moves by one, over the one at `out`: a slide, on the part that begins at the nearer place.
pub(crate) fn move_between(t: &mut [Request], out: usize, at: usize)
    requires { (out < length t.old) × (at < length t.old) }
    ensures { Slid out at t.old t.new }
{
    if at < out {
        return rotate(&mut t[at..], out - at, true);
    }
    rotate(&mut t[out..], at - out, false)
}

// r is put in at `at` for the record at `out`, which is handed back; those between move by one. Where one of the places is not
// in the table, nothing changes and r is handed back.
pub fn replace(t: &mut [Request], out: usize, at: usize, r: Request) -> Request
    ensures { (result ≡ taken_out out at r t.old)
        × (t.new ≡ replaced out at r t.old) }
{
    if t.len() <= out || t.len() <= at {
        return r;
    }
    let gone = get(t, out);
    move_between(t, out, at);
    put(t, at, r);
    gone
}

// Of n waiting records, how many stand behind one that is put in at `at`.
pub fn shift_at(n: usize, at: usize) -> usize
    ensures { result ≡ shift_at n at }
{
    n.saturating_sub(at)
}

// Of n waiting records at the table's front, r is put in at `at`; those from there on move by one, over the record behind them. Nothing
// changes where `at` is further back than that record, or no record is behind them. The whole table is lent, since the record behind them
// changes too. Handed back is how many of the n stood from `at` on, also where nothing changes.
pub fn insert(t: &mut [Request], n: usize, at: usize, r: Request) -> usize
    ensures { (result ≡ shift_at n at) × (t.new ≡ inserted n at r t.old) }
{
    if at <= n {
        replace(t, n, at, r);
    }
    shift_at(n, at)
}

// Of n waiting records at the table's front, the one at `at` is taken out and handed back; those behind it move by one, and a zero
// record stands behind them. Where `at` is not among them, or they are not all in the table, nothing changes and none is handed back.
pub fn remove(t: &mut [Request], n: usize, at: usize) -> Option<Request>
    ensures { (result ≡ removed_from n at t.old)
        × (t.new ≡ removed n at t.old) }
{
    if n <= at || t.len() < n {
        return None;
    }
    Some(replace(t, at, n - 1, Request::default()))
}
