// Report: why it is refused, and what it hands back.
ghost use Rattle.std.specs.Prelude.{◌≡◌, get_or};
ghost use Rattle.spec.specs.Tables.{zero_counts, records_of, state_of};
ghost use Rattle.spec.specs.Setup.{first_match};
ghost use Rattle.spec.specs.Reasons.{refused_by};
ghost use Rattle.spec.specs.Calls.Report.{report_refusals};
ghost use Rattle.decide.specs.Report.{report_reply};

use sound::check::check_tables;
use spec::types::{Answer, Head, Reason, Reply, Request};
use table::clients::{counts_at, waiting_count};

// Why a report is refused, by the first refusal that matches.
pub fn check(head: Head, waiting: &[Request], clients: &[u32], client: u64) -> Result<(), Reason>
    ensures { refused_by result ≡ first_match (report_refusals client (state_of head waiting.now clients.now)) }
{
    check_tables(waiting, clients, head)?;
    if head.setup.clients <= client {
        return Err(Reason::UnknownClient);
    }
    Ok(())
}

// The reply of a report: the client's counts. What it submitted and was neither served nor dropped waits.
pub fn reply(head: Head, clients: &[u32], client: u64) -> Reply
    ensures { result ≡ report_reply head client (get_or (records_of clients.now) client zero_counts) }
{
    let k = counts_at(clients, client);
    let answer = Answer::Reported {
        client,
        submitted: k.submitted.into(),
        served: k.served.into(),
        dropped: k.dropped.into(),
        waiting: waiting_count(k),
    };
    Reply { head, answer }
}
