ghost use Rattle.std.specs.Prelude.{◌≡◌, Some, IfOk};
ghost use Rattle.occ_weave.specs.occ_mdd.Maps.{IsMap};
ghost use Rattle.occ_weave.specs.occ_node.World.{IsNode};
ghost use Rattle.occ_follow.specs.Sequence.{HasNodes};
ghost use Rattle.occ_norm_frame.specs.Maps.{Extends, IsSequel};

use crate::Normaliser;
use occ_syntax::Memory;
use occ_weave::{MapId, NodeId};

impl Normaliser {
    /// The map that has, at every state, the node that goes on as the map's node of a state wherever it ends in that.
    pub fn followed(&mut self, node: NodeId, map: MapId) -> Result<MapId, Memory>
        requires node { IsNode self.old node }
        requires map { HasNodes self.old map }
        ensures extends { Extends self.old self.new }
        ensures sequel { IfOk result (IsSequel self.old self.new node map) }
        ensures nodes { IfOk result (HasNodes self.new) }
    {
        let next = self.follow(node, map)?;
        self.constant(Some(next))
    }
}
