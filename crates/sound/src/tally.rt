// How many of the waiting records each client has, as the pass over the records counts them, and whether that balances with the clients' counts.
ghost use Rattle.std.specs.Prelude.{◌*◌, ◌+◌, ◌%◌, ◌≤◌, ◌<◌, ◌≡◌, length, take, replicate};
ghost use Rattle.spec.specs.Every.{every_from};
ghost use Rattle.spec.specs.Tables.{most_clients, client_width, records_of};
ghost use Rattle.sound.specs.Checks.{parts, tally_size, tally_place, one_more, tallied_of, does_balance, balances_at, do_four_balance, Countable};

use spec::bounds;
use spec::types::Counts;
use table::clients;

// A count per client, in four parts, which records use by turns: adding to one place twice in a row waits for the store, and with few
// clients most records would. One array holds the four, since the law `Verdict.found_contents` speaks of one list. It is lent to the pass:
// held in one struct with the head and the place, or handed back as a value, it made the check take 1.4 times and 1.03 times as long.
#[derive(Drop)]
pub(crate) struct Tally {
    counts: [u16; 4 * bounds::MOST_CLIENTS],
}

// How many values a count can have, 0 to its bound.
const COUNTS: u32 = bounds::MOST_COUNTED + 1;

impl Tally {
    pub(crate) fn new() -> Tally
        ensures { result.counts ≡ replicate tally_size 0 }
    {
        Tally {
            counts: [0; 4 * bounds::MOST_CLIENTS],
        }
    }

    // One more request of a client, with the index i.
    pub(crate) fn count(&mut self, i: usize, client: u64)
        requires { (client < most_clients) × Countable 1 self.old.counts }
        ensures { self.new.counts ≡ one_more (tally_place (i % parts) client) self.old.counts }
    {
        let at = (i % 4) * bounds::MOST_CLIENTS + client as usize;
        self.counts[at] += 1;
    }

    // Whether a client's counts balance with its requests that are counted. The sum is of 32 bits, so that several clients can be looked
    // at in one go: it cannot wrap, since served and dropped are cut to their bound, and a count that is cut is refused.
    #[tactic(auto, using(crate::proofs::RecordTests::cut_balance))]
    fn balances(&self, k: Counts, client: usize) -> bool
        requires { client < most_clients }
        ensures { result ≡ does_balance k (tallied_of self.now.counts client) }
    {
        let a = u32::from(self.counts[client]);
        let b = u32::from(self.counts[bounds::MOST_CLIENTS + client]);
        let c = u32::from(self.counts[2 * bounds::MOST_CLIENTS + client]);
        let d = u32::from(self.counts[3 * bounds::MOST_CLIENTS + client]);
        let all = k.served % COUNTS + k.dropped % COUNTS + ((a + b) + (c + d));
        (k.submitted == all)
            & ((k.submitted <= bounds::MOST_COUNTED)
                & (k.served <= bounds::MOST_COUNTED)
                & (k.dropped <= bounds::MOST_COUNTED))
    }

    // Whether those of the client at an index of the client table do, which is numbers, as other languages lend it.
    fn balances_at(&self, numbers: &[u32], i: usize) -> bool
        requires { (client_width * i + 2 < length numbers.now) × (i < most_clients) }
        ensures { result ≡ balances_at self.now.counts numbers.now i }
    {
        self.balances(clients::get(numbers, i), i)
    }

    // Whether those of four clients do, from an index on, with no branch between them.
    fn do_four_balance(&self, numbers: &[u32], i: usize) -> bool
        requires { (client_width * (i + 4) ≤ length numbers.now) × (i + 4 ≤ most_clients) }
        ensures { result ≡ do_four_balance self.now.counts numbers.now i }
    {
        (self.balances_at(numbers, i) & self.balances_at(numbers, i + 1))
            & (self.balances_at(numbers, i + 2) & self.balances_at(numbers, i + 3))
    }

    // Whether those of the first n clients do, four at a time as far as that goes; the first four of which one's do not end the search.
    pub(crate) fn are_balanced(&self, numbers: &[u32], n: usize) -> bool
        requires { (client_width * n ≤ length numbers.now) × (n ≤ most_clients) }
        ensures { result ≡ every_from (λ c k. does_balance k (tallied_of self.now.counts c)) 0
            (take n (records_of numbers.now)) }
    {
        (0..n / 4).all(|k| self.do_four_balance(numbers, 4 * k))
            && (n / 4 * 4..n).all(|i| self.balances_at(numbers, i))
    }
}
