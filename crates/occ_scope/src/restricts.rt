ghost use Rattle.std.specs.Prelude.{◌≡◌};
ghost use Rattle.occ_node.specs.declared.world.World.{World};

use occ_node::{Memo, Name};
use std::alloc::Global;

/// The nodes without the events of one channel that were made, by the nodes of which they are: a table
/// that can serve many calls with one world.
#[derive(Drop)]
pub struct Restricts {
    pub(crate) chan: Name,
    pub(crate) memo: Memo,
}

impl Restricts {
    ghost use Rattle.occ_scope.specs.Tables.{KeepRestricted, chan_of};

    /// A table without nodes, for a channel. It takes no memory.
    pub fn new(alloc: Global, chan: Name) -> Restricts
        ensures chan { chan_of result ≡ chan }
        ensures none { (w : World) → KeepRestricted w result }
    {
        Restricts {
            chan,
            memo: Memo::new(alloc),
        }
    }
}
