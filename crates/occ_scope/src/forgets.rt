ghost use Rattle.std.specs.Prelude.{◌≡◌};
ghost use Rattle.occ_node.specs.declared.world.World.{World};

use occ_node::Memo;
use std::alloc::Global;

/// The nodes with some bits forgotten that were made, by the nodes of which they are: a table that can
/// serve many calls with one world.
#[derive(Drop)]
pub struct Forgets {
    pub(crate) bits: u64,
    pub(crate) memo: Memo,
}

impl Forgets {
    ghost use Rattle.occ_scope.specs.Tables.{KeepForgotten, bits_of};

    /// A table without nodes, for some bits. It takes no memory.
    pub fn new(alloc: Global, bits: u64) -> Forgets
        ensures bits { bits_of result ≡ bits }
        ensures none { (w : World) → KeepForgotten w result }
    {
        Forgets {
            bits,
            memo: Memo::new(alloc),
        }
    }
}
