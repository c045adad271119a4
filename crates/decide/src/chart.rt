// Chart, the call: why it is refused, and what it hands back.
ghost use Rattle.std.specs.Prelude.{◌≡◌};
ghost use Rattle.spec.specs.Tables.{state_of};
ghost use Rattle.spec.specs.Setup.{first_match};
ghost use Rattle.spec.specs.Reasons.{refused_by};
ghost use Rattle.spec.specs.Calls.Chart.{chart_refusals};
ghost use Rattle.decide.specs.Chart.{chart_reply};

use sound::check::check_tables;
use spec::types::{Answer, Head, Reason, Reply, Request};

// Why a chart is refused, by the first refusal that matches.
pub fn check(head: Head, waiting: &[Request], clients: &[u32], output: &[u64]) -> Result<(), Reason>
    ensures { refused_by result ≡ first_match (chart_refusals output.now (state_of head waiting.now clients.now)) }
{
    check_tables(waiting, clients, head)?;
    if (output.len() as u64) < head.waiting {
        return Err(Reason::ShortOutput);
    }
    Ok(())
}

// The reply of a chart: how many start slots it writes.
pub fn reply(head: Head) -> Reply
    ensures { result ≡ chart_reply head }
{
    let answer = Answer::Charted {
        count: head.waiting,
    };
    Reply { head, answer }
}
