ghost use Rattle.std.specs.Prelude.{IfOk};
ghost use Rattle.occ_follow.specs.occ_node.World.{Grows, IsNode, Leads};
ghost use Rattle.occ_follow.specs.Sequence.{HasNodes};

use crate::tests::events::A;
use occ_desk::Memory;
use occ_follow::{MapId, NodeId, Offers, Row, World, alt, follow, least, prefix_out};
use std::alloc::Global;

/// The node that has ended in every assignment.
pub fn ended(alloc: Global, world: &mut World) -> Result<NodeId, Memory>
    ensures leads { Leads world.old world.new }
    ensures node { IfOk result (IsNode world.new) }
{
    let ends = world.store.full();
    let accepts = least(alloc, &[])?;
    world.make(Row {
        ends,
        accepts,
        offers: Offers::new(alloc),
    })
}

// The map that has one node where the first bit is 1, and another where it is 0.
fn either_way(world: &mut World, high: NodeId, low: NodeId) -> Result<MapId, Memory>
    requires high { IsNode world.old high }
    requires low { IsNode world.old low }
    ensures grows { Grows world.old world.new }
    ensures nodes { IfOk result (HasNodes world.new) }
{
    let one = world.maps.constant(Some(high))?;
    let zero = world.maps.constant(Some(low))?;
    let set = world.store.bit(0)?;
    world.maps.ite(&mut world.store, set, one, zero)
}

// A node that ends after an output, with a node that goes on.
fn output_then(alloc: Global, world: &mut World, next: NodeId) -> Result<NodeId, Memory>
    requires { IsNode world.old next }
    ensures { IfOk result (IsNode world.new) }
{
    let end = ended(alloc, world)?;
    let node = prefix_out(alloc, world, A, end)?;
    let map = either_way(world, next, next)?;
    follow(alloc, world, node, map)
}

#[test]
fn it_goes_on_after_an_event(rt: HostRuntime) -> Result<(), Memory> {
    let alloc = rt.alloc();
    let mut world = World::new(alloc)?;
    let stop = alt(alloc, &mut world, &[])?;
    let whole = output_then(alloc, &mut world, stop)?;
    assert_eq!(rt; world.child(whole, A), Some(stop));
    Ok(())
}
