ghost use Rattle.std.specs.Prelude.{IfOk};
ghost use Rattle.occ_choice.specs.occ_node.World.{IsNode, Leads};
ghost use Rattle.occ_follow.specs.Sequence.{HasNodes, IsFollowed};

use crate::follower::Follower;
use occ_choice::{MapId, Memory, NodeId, World};
use std::alloc::Global;

/// The node that has the failures of a node and, wherever it ends in an assignment, goes on as the map's
/// node of that assignment: a sequence (Roscoe 1985). It ends where these end.
pub fn follow(alloc: Global, world: &mut World, node: NodeId, map: MapId) -> Result<NodeId, Memory>
    requires node { IsNode world.old node }
    requires map { HasNodes world.old map }
    ensures leads { Leads world.old world.new }
    ensures followed { IfOk result (IsFollowed world.old world.new node map) }
{
    let mut follower = Follower::new(alloc);
    follower.node_after(world, node, map)
}
