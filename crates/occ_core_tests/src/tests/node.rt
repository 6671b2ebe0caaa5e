ghost use Rattle.std.specs.Prelude.{IfOk};
ghost use Rattle.occ_behaviour_read.specs.occ_dd.Store.{IsKnown};
ghost use Rattle.occ_follow.specs.occ_node.World.{IsNode, Leads};

use crate::tests::events::A;
use occ_behaviour_read::SetId;
use occ_desk::Memory;
use occ_follow::{AcceptSet, NodeId, Offers, Row, World, alt, least};
use std::alloc::Global;

/// The node that is stable and offers nothing, or has ended in an assignment of the set.
pub fn waiting(alloc: Global, world: &mut World, ends: SetId) -> Result<NodeId, Memory>
    requires { IsKnown world.old.store ends }
    ensures leads { Leads world.old world.new }
    ensures node { IfOk result (IsNode world.new) }
{
    let accepts = least(alloc, &[AcceptSet::of(alloc, &[])?])?;
    world.make(Row {
        ends,
        accepts,
        offers: Offers::new(alloc),
    })
}

// The node that offers one event, after which it is another node.
fn before(alloc: Global, world: &mut World, next: NodeId) -> Result<NodeId, Memory>
    requires { IsNode world.old next }
    ensures leads { Leads world.old world.new }
    ensures node { IfOk result (IsNode world.new) }
{
    let accepts = least(alloc, &[AcceptSet::of(alloc, &[A])?])?;
    let mut offers = Offers::new(alloc);
    offers.push((A, next))?;
    world.make(Row {
        ends: world.no_ends(),
        accepts,
        offers,
    })
}

#[test]
fn an_offer_leads_to_its_node(rt: HostRuntime) -> Result<(), Memory> {
    let alloc = rt.alloc();
    let mut world = World::new(alloc)?;
    let ends = world.no_ends();
    let end = waiting(alloc, &mut world, ends)?;
    let start = before(alloc, &mut world, end)?;
    assert_eq!(rt; world.child(start, A), Some(end));
    assert!(rt; !world.refuses(start, &[A]));
    assert!(rt; world.refuses(start, &[A.counterpart()]));
    assert!(rt; !world.has_end(start, 0));
    assert!(rt; world.row(start).copy(alloc)? == *world.row(start));
    Ok(())
}

#[test]
fn an_alt_without_branches_waits(rt: HostRuntime) -> Result<(), Memory> {
    let alloc = rt.alloc();
    let mut world = World::new(alloc)?;
    let stop = alt(alloc, &mut world, &[])?;
    let none = AcceptSet::of(alloc, &[])?;
    assert!(rt; world.row(stop).accepts == least(alloc, &[none])?);
    assert!(rt; world.row(stop).offers.items().is_empty());
    Ok(())
}
