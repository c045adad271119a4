// What a call hands back, refused or not.
ghost use Rattle.std.specs.Prelude.{◌≡◌};
ghost use Rattle.spec.specs.Reasons.{number_of};
ghost use Rattle.decide.specs.Reply.{refused_with, reply_by};

use spec::types::{Answer, Head, Reason, Reply};

// A refused call hands the head back as it was, and answers with its number only.
fn refused(head: Head, why: Reason) -> Reply
    ensures { result ≡ refused_with head (number_of why) }
{
    let answer = Answer::Refused { number: why.into() };
    Reply { head, answer }
}

// What a call hands back that was lent this head: what it came to or, where it is refused, the refusal.
pub fn unless_refused(head: Head, done: Result<Reply, Reason>) -> Reply
    ensures { result ≡ reply_by head done }
{
    match done {
        Ok(reply) => reply,
        Err(why) => refused(head, why),
    }
}
