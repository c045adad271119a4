// Open: why it is refused, and what it hands back.
ghost use Rattle.std.specs.Prelude.{◌≡◌};
ghost use Rattle.spec.specs.declared.types.Head.{Head};
ghost use Rattle.spec.specs.Tables.{state_of};
ghost use Rattle.spec.specs.Setup.{first_match};
ghost use Rattle.spec.specs.Reasons.{refused_by};
ghost use Rattle.spec.specs.Calls.Open.{open_refusals};
ghost use Rattle.decide.specs.Open.{open_reply};

use sound::check::check_setup;
use spec::bounds;
use spec::types::{Answer, Head, Reason, Reply, Request, Setup};
use table::clients::are_records;

// Why an open is refused, by the first refusal that matches, whatever the head.
pub fn check(waiting: &[Request], clients: &[u32], setup: Setup) -> Result<(), Reason>
    ensures { (head : Head) → refused_by result ≡ first_match (open_refusals setup (state_of head waiting.now clients.now)) }
{
    check_setup(setup)?;
    if !((1 <= waiting.len()) & (waiting.len() <= bounds::MOST_RECORDS)) {
        return Err(Reason::Lengths);
    }
    if !are_records(clients.len(), setup.clients) {
        return Err(Reason::Lengths);
    }
    Ok(())
}

// The reply of an open: a head that has this setup, and nothing else in it.
pub fn reply(setup: Setup) -> Reply
    ensures { result ≡ open_reply setup }
{
    let head = Head {
        setup,
        ..Head::default()
    };
    Reply {
        head,
        answer: Answer::Opened,
    }
}
