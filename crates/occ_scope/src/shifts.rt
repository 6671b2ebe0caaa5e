ghost use Rattle.occ_node.specs.declared.world.World.{World};

use occ_node::Memo;
use std::alloc::Global;

/// The nodes with bits turned that were made, by the nodes of which they are and by the bits: a table that
/// can serve many calls with one world.
#[derive(Drop)]
pub struct Shifts {
    pub(crate) memo: Memo,
}

impl Shifts {
    ghost use Rattle.occ_scope.specs.Tables.{KeepShifted};

    /// A table without nodes. It takes no memory.
    pub fn new(alloc: Global) -> Shifts
        ensures { (w : World) → KeepShifted w result }
    {
        Shifts {
            memo: Memo::new(alloc),
        }
    }
}
