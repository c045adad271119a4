// Submit: what it decides, from the searches in the waiting records, what it does to the waiting table, and the call itself.
ghost use Rattle.std.specs.Prelude.{◌≡◌, Some};
ghost use Rattle.spec.specs.Tables.{state_of};
ghost use Rattle.spec.specs.Setup.{first_match};
ghost use Rattle.spec.specs.Calls.Submit.{submit_refusals};
ghost use Rattle.spec.specs.Calls.{submit};
ghost use Rattle.queue.specs.Gives.{Gives, ComesTo};
ghost use Rattle.queue.specs.Placement.{without_victim, table_after, drop_by, insertion_by};
ghost use Rattle.queue.specs.Decision.{submit_choice, submit_decision, decided_by};

use decide::reply::unless_refused;
use decide::submit::{Decision, Exchange, Insertion, exchange_of};
use occupancy::overfull;
use spec::bounds::MOST_CLIENTS;
use spec::types::{Head, Reason, Reply, Request};
use table::waiting;

// What a submit does that is not refused. Where a deadline is overfull, the waiting records that are due by it are noted, each with its
// client, and the new request among them: these are the candidates.
fn accepted_decision(
    waiting: &[Request],
    clients: &[u32],
    head: Head,
    client: u64,
    deadline: u64,
) -> Decision
    requires { first_match (submit_refusals client deadline
        (state_of head waiting.now clients.now)) ≡ 0 }
    ensures { result ≡ submit_choice client deadline
        (state_of head waiting.now clients.now) }
{
    let all = &waiting[..head.waiting as usize];
    let place = overfull::due_by(all, deadline);
    let (before, behind) = all.split_at(place);
    let Some(found) = overfull::first_overfull(head, behind, place, deadline) else {
        return Decision::Keep { place };
    };
    let due = overfull::due_by(all, found);
    let last = overfull::candidates(all.len(), due, found);
    let mut latest = [0u16; MOST_CLIENTS];
    overfull::note_last_of_each(before, &mut latest, 1);
    overfull::note(&mut latest, client, place + 1);
    overfull::note_last_of_each(&behind[..last - place], &mut latest, place + 2);
    let theirs = &latest[..head.setup.clients as usize];
    let victim = overfull::smallest_ratio_place(theirs, clients, client);
    Decision::Drop { place, victim }
}

// What a submit has to do, or why it is refused.
fn submit_decision(
    waiting: &[Request],
    clients: &[u32],
    head: Head,
    client: u64,
    deadline: u64,
) -> Result<Decision, Reason>
    ensures { decided_by result ≡ submit_decision client deadline
        (state_of head waiting.now clients.now) }
{
    decide::submit::check(head, waiting, clients, client, deadline)?;
    Ok(accepted_decision(waiting, clients, head, client, deadline))
}

// A drop: `new` goes in at `place`, and the record that then stands at `victim` goes out, as one change: each is taken where it stands
// without the other. The shift is counted of the n waiting records before one goes.
fn drop_at(
    waiting: &mut [Request],
    n: usize,
    place: usize,
    victim: usize,
    new: Request,
) -> Insertion
    ensures insertion { result ≡ drop_by n place victim new waiting.old }
    ensures table { waiting.new ≡ without_victim place victim new waiting.old }
{
    let Exchange { out, at, shift } = exchange_of(n, place, victim);
    let gone = if victim == place {
        new
    } else {
        waiting::replace(waiting, out, at, new)
    };
    Insertion {
        place,
        shift,
        gone: Some(gone),
    }
}

// What a submit does to the waiting table: `new` is put in, or put in for another. Handed back is what became of it.
fn put_in(waiting: &mut [Request], decision: Decision, head: Head, new: Request) -> Insertion
    ensures insertion { result ≡ insertion_by head new decision waiting.old }
    ensures table { waiting.new ≡ table_after head new decision waiting.old }
{
    let n = head.waiting as usize;
    match decision {
        Decision::Keep { place } => {
            let shift = waiting::insert(waiting, n, place, new);
            Insertion {
                place,
                shift,
                gone: None,
            }
        }
        Decision::Drop { place, victim } => drop_at(waiting, n, place, victim, new),
    }
}

// Submit: the new request is put in chart order; where not all can finish, one is dropped.
pub fn submit(
    head: Head,
    waiting: &mut [Request],
    clients: &mut [u32],
    client: u64,
    deadline: u64,
) -> Reply
    ensures { Gives (submit client deadline)
        (state_of head waiting.old clients.old) result
        (state_of result.head waiting.new clients.new) }
{
    unless_refused(head, try_submit(head, waiting, clients, client, deadline))
}

// A submit, or why it is refused. It decides before anything is changed.
fn try_submit(
    head: Head,
    waiting: &mut [Request],
    clients: &mut [u32],
    client: u64,
    deadline: u64,
) -> Result<Reply, Reason>
    ensures { ComesTo (submit client deadline) (state_of head waiting.old clients.old) result waiting.new clients.new }
{
    let decision = submit_decision(waiting, clients, head, client, deadline)?;
    let new = decide::submit::new_request(head, client, deadline);
    let insertion = put_in(waiting, decision, head, new);
    decide::submit::count(clients, client, insertion.gone);
    Ok(decide::submit::reply(head, insertion))
}
