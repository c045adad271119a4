// The room of the waiting records by open slots.
ghost use Rattle.std.specs.Prelude.{◌≤◌, ◌≡◌, true, length};
ghost use Rattle.spec.specs.Tables.{zero_request};
ghost use Rattle.sound.specs.Checks.{Bounded, are_next, have_room};

use hours::marks;
use occupancy::overfull;
use spec::types::{Head, Request};

// Whether each of the waiting records, which passed where all slots count, has room by open slots. With all hours open both ask the same.
pub(crate) fn have_room(waiting: &[Request], head: Head) -> bool
    requires { Bounded head (length waiting.now) × (are_next head 0 zero_request waiting.now ≡ true) }
    ensures { result ≡ have_room head 0 waiting.now }
{
    marks::are_all_open(head.setup) || overfull::overfull_in_open(head, waiting, 0).is_none()
}
