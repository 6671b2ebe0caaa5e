ghost use Rattle.std.specs.Prelude.{◌≡◌, Some};
ghost use Rattle.occ_follow.specs.Sequence.{HasNodes};
ghost use Rattle.occ_weave.specs.occ_mdd.Maps.{value};
ghost use Rattle.occ_weave.specs.occ_node.World.{IsNode};

use crate::Normaliser;
use occ_weave::{MapId, NodeId};

/// The node that a map has at a state.
pub fn node_at(world: &Normaliser, map: MapId, state: u64) -> NodeId
    requires { HasNodes world.now map }
    ensures there { IsNode world.now result }
    ensures value { value world.now.maps map state ≡ Some result }
{
    match world.get(map, state) {
        Some(node) => node,
        None => unreachable!(),
    }
}
