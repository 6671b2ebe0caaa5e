ghost use Rattle.std.specs.Prelude.{ℕ, ◌≡◌, ◌≤◌, ◌+◌, ◌^◌, Some, IfOk, length, slice_get};
ghost use Rattle.occ_norm_frame.specs.occ_follow.Sequence.{HasNodes};
ghost use Rattle.occ_norm_frame.specs.occ_node.World.{IsNode};
ghost use Rattle.occ_norm_frame.specs.occ_node.declared.node.NodeId.{NodeId};
ghost use Rattle.occ_norm_frame.specs.occ_node.World.{Leads as Goes};
ghost use Rattle.occ_norm_frame.specs.Maps.{Extends};
ghost use Rattle.occ_norm_frame.specs.occ_scope.Results.{IsShifted};
ghost use Rattle.occ_norm_assign.specs.Lists.{AreLed, AreStates, IsLaid, IsSpread};

use occ_norm_frame::{Frame, MapId, NodeId, Normaliser, node_at, shift_with};
use occ_syntax::Memory;

// The node with those bits of its final states turned.
fn turned(world: &mut Normaliser, node: NodeId, change: u64) -> Result<NodeId, Memory>
    requires { IsNode world.old node }
    ensures goes { Goes world.old world.new }
    ensures turned { IfOk result (IsShifted world.old world.new change node) }
{
    let lifting = &mut world.lifting;
    shift_with(
        lifting.weaver.alloc,
        &mut lifting.weaver.world,
        &mut lifting.shifts,
        node,
        change,
    )
}

// A node for each state of a list: what a map has where the state leads, turned by what changes of its bits.
fn led(world: &mut Normaliser, keep: u64, to: &[u64], rest: MapId) -> Result<Vec<NodeId>, Memory>
    requires { HasNodes world.old rest }
    ensures goes { Goes world.old world.new }
    ensures led { IfOk result (λ r. AreLed world.new keep to.now rest (length to.now) r.items) }
{
    let mut nodes = Vec::with_capacity(world.alloc(), to.len())?;
    for place in 0..to.len() {
        let state = to[place];
        let change = (place as u64 ^ state) & keep;
        let there = node_at(world, rest, state);
        let node = turned(world, there, change)?;
        nodes.push(node)?;
    }
    Ok(nodes)
}

// The map that has, at each assignment, the node at the place that its lowest bits say, so many, from a first place on.
fn spread(
    world: &mut Normaliser,
    nodes: &[NodeId],
    left: u32,
    first: usize,
) -> Result<MapId, Memory>
    requires left { left ≤ 16 }
    requires within { first + 2 ^ left ≤ length nodes.now }
    requires there { (i : ℕ) (a : NodeId) → slice_get nodes.now i ≡ Some a → IsNode world.old a }
    ensures extends { Extends world.old world.new }
    ensures spread { IfOk result (IsSpread world.new nodes.now left first) }
{
    if left == 0 {
        return world.constant(Some(nodes[first]));
    }
    let bit = left - 1;
    let low = spread(world, nodes, bit, first)?;
    let high = spread(world, nodes, bit, first + (1 << bit))?;
    let set = world.bit(bit)?;
    let map = world.choose(set, high, low)?;
    Ok(map)
}

/// The map that has, at each assignment, what another map has where the list leads from its lowest bits, as many as the frame has,
/// turned by what changes of those that the frame keeps.
pub(crate) fn laid(
    world: &mut Normaliser,
    frame: &Frame,
    to: &[u64],
    rest: MapId,
) -> Result<MapId, Memory>
    requires bits { frame.now.bits ≤ 16 }
    requires to { AreStates frame.now.bits to.now }
    requires rest { HasNodes world.old rest }
    ensures extends { Extends world.old world.new }
    ensures laid { IfOk result (IsLaid world.new frame.now.keep frame.now.bits to.now rest) }
{
    let nodes = led(world, frame.keep, to, rest)?;
    spread(world, &nodes, frame.bits, 0)
}
