ghost use Rattle.std.specs.Prelude.{◌≡◌, ◌||◌, IfOk};
ghost use Rattle.occ_node.specs.occ_accept.Accept.{in_set};
ghost use Rattle.occ_node.specs.occ_base.declared.event.Event.{Event};
ghost use Rattle.occ_node.specs.Offers.{is_offered};
ghost use Rattle.occ_node.specs.World.{IsNode, Leads};
ghost use Rattle.occ_choice.specs.Joined.{AreJoined, IsSound};
ghost use Rattle.occ_choice.specs.Union.{IsAdded};

use occ_node::{AcceptSet, Memory, NodeId, Offers, Row, World};
use std::alloc::Global;

// The events of either of two lists of offers.
pub(crate) fn either_events(alloc: Global, p: &Offers, q: &Offers) -> Result<AcceptSet, Memory>
    ensures { IfOk result (λ r. (e : Event) → in_set r e ≡ (is_offered p.now e || is_offered q.now e)) }
{
    p.events(alloc)?.union(alloc, &q.events(alloc)?)
}

// The node of a row and a node together, once their offers are joined. What they had is that of an earlier
// world.
pub(crate) fn join(
    alloc: Global,
    world: &mut World,
    row: &Row,
    b: NodeId,
    offers: Offers,
) -> Result<NodeId, Memory>
    requires row { IsSound world.old row.now }
    requires b { IsNode world.old b }
    requires offers { AreJoined world.old row.now b offers }
    ensures leads { Leads world.old world.new }
    ensures added { IfOk result (IsAdded world.old world.new row.now b) }
{
    let other = world.row(b);
    let other_ends = other.ends;
    let accepts = occ_node::join(alloc, &row.accepts, &other.accepts)?;
    let ends = world.store.or(row.ends, other_ends)?;
    world.make(Row {
        ends,
        accepts,
        offers,
    })
}
