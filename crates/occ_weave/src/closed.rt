ghost use Rattle.std.specs.Prelude.{◌≡◌};
ghost use Rattle.occ_weave.specs.Weave.{is_open};

use occ_choice::{Event, Name};

/// Whether an event is on none of the closed channels. It takes no memory.
pub fn is_open(closed: &[Name], event: Event) -> bool
    ensures { result ≡ is_open closed.now event }
{
    closed.iter().all(|chan| event.chan != *chan)
}
