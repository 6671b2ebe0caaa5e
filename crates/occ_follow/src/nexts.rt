ghost use Rattle.std.specs.Prelude.{◌∷◌, IfOk};
ghost use Rattle.std.specs.List.{All};
ghost use Rattle.occ_choice.specs.occ_node.World.{IsNode, Leads};
ghost use Rattle.occ_choice.specs.Union.{AreUnions};
ghost use Rattle.occ_follow.specs.Nexts.{AreNexts, IsUnionOf};
ghost use Rattle.occ_follow.specs.Sequence.{HasNodes};

use occ_choice::{MapId, Memory, NodeId, Unions, World, union_with};
use std::alloc::Global;

/// The nodes with which the map goes on where a node has ended before any event, each once.
pub fn nexts_of(world: &World, node: NodeId, map: MapId) -> Result<Vec<NodeId>, Memory>
    requires node { IsNode world.now node }
    requires map { HasNodes world.now map }
    ensures { IfOk result (λ r. AreNexts world.now node map r.items) }
{
    let ends = world.row(node).ends;
    world.maps.leaves_under(&world.store, map, ends)
}

/// The union of one node and others.
pub fn united(
    alloc: Global,
    world: &mut World,
    unions: &mut Unions,
    first: NodeId,
    others: &[NodeId],
) -> Result<NodeId, Memory>
    requires unions { AreUnions world.old unions.old }
    requires first { IsNode world.old first }
    requires others { All (IsNode world.old) others.now }
    ensures leads { Leads world.old world.new }
    ensures unions { AreUnions world.new unions.new }
    ensures united { IfOk result (IsUnionOf world.old world.new (first ∷ others.now)) }
{
    let mut united = first;
    for other in others {
        united = union_with(alloc, world, unions, united, *other)?;
    }
    Ok(united)
}
