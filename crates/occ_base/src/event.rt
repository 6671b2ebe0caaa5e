ghost use Rattle.std.specs.Prelude.{◌≡◌};
ghost use Rattle.occ_base.specs.Event.{counterpart};

use crate::Name;

/// The direction of a communication, as the process that takes part in it sees it.
#[derive(Clone, Copy, Debug, PartialEq, Eq, PartialOrd, Ord, Hash)]
pub enum Dir {
    Input,
    Output,
}

/// One communication with the outside: a channel, a direction and the value that passes.
/// Events are ordered by the number of the channel's name, then Input before Output, then by value.
#[derive(Clone, Copy, Debug, PartialEq, Eq, PartialOrd, Ord, Hash)]
pub struct Event {
    pub chan: Name,
    pub dir: Dir,
    pub value: u8,
}

impl Event {
    /// The event of the other end of the channel: the same but for its direction.
    pub fn counterpart(self) -> Event
        ensures { result ≡ counterpart self }
    {
        let dir = match self.dir {
            Dir::Input => Dir::Output,
            Dir::Output => Dir::Input,
        };
        Event { dir, ..self }
    }
}
