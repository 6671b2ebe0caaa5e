ghost use Rattle.std.specs.Prelude.{◌≡◌, Option, Some, IfSome};
ghost use Rattle.occ_node.specs.declared.world.World.{World};

use occ_node::{Call, Memo, Memory, NodeId};
use std::alloc::Global;

/// The unions that were made, by the nodes of which they are: a table that can serve many calls with one
/// world.
#[derive(Drop)]
pub struct Unions {
    memo: Memo,
}

impl Unions {
    ghost use Rattle.occ_choice.specs.Union.{AreUnions, IsUnion};

    /// A table without unions. It takes no memory.
    pub fn new(alloc: Global) -> Unions
        ensures { (w : World) → AreUnions w result }
    {
        Unions {
            memo: Memo::new(alloc),
        }
    }

    // The union that is remembered of two nodes.
    pub(crate) fn get(&self, a: NodeId, b: NodeId) -> Option<NodeId>
        ensures { (w : World) → AreUnions w self.now → IfSome result (IsUnion w a b) }
    {
        self.memo.get(call(a, b)).map(NodeId)
    }

    // Remembers a union. Where memory runs out, the table is as before.
    pub(crate) fn insert(&mut self, a: NodeId, b: NodeId, union: NodeId) -> Result<(), Memory>
        ensures { (w : World) → AreUnions w self.old → IsUnion w a b union → AreUnions w self.new }
    {
        self.memo.insert(call(a, b), union.0)
    }
}

// The call of the union of two nodes.
fn call(a: NodeId, b: NodeId) -> Call
    ensures { result ≡ record { first = a.0; second = b.0; third = 0 } }
{
    Call {
        first: a.0,
        second: b.0,
        third: 0,
    }
}
