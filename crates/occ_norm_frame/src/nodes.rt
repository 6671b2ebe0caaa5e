ghost use Rattle.std.specs.Prelude.{◌≡◌, IfOk};
ghost use Rattle.occ_weave.specs.occ_node.World.{IsNode, Leads, row_of};
ghost use Rattle.occ_weave.specs.occ_choice.Union.{AreUnions};
ghost use Rattle.occ_norm_frame.specs.Lifted.{IsFinished, IsMerged, branches_of};

use occ_syntax::Memory;
use occ_weave::{Branch, NodeId, Row, Unions, World, add, alt_with, least};
use std::alloc::Global;

/// The offers of a node as branches.
fn branches_of(alloc: Global, world: &World, node: NodeId) -> Result<Vec<Branch>, Memory>
    requires { IsNode world.now node }
    ensures { IfOk result (λ r. r.items ≡ branches_of (row_of world.now node).offers) }
{
    let mut branches = Vec::new(alloc);
    for offer in world.row(node).offers.items() {
        branches.push(Branch::Event(offer.0, offer.1))?;
    }
    Ok(branches)
}

/// The node that waits for all events that two nodes offer.
pub(crate) fn merge(
    alloc: Global,
    world: &mut World,
    unions: &mut Unions,
    p: NodeId,
    q: NodeId,
) -> Result<NodeId, Memory>
    requires p { IsNode world.old p }
    requires q { IsNode world.old q }
    requires unions { AreUnions world.old unions.old }
    ensures leads { Leads world.old world.new }
    ensures unions { AreUnions world.new unions.new }
    ensures merged { IfOk result (IsMerged world.new p q) }
{
    let mut branches = branches_of(alloc, world, p)?;
    let others = branches_of(alloc, world, q)?;
    branches.extend_from_slice(&others)?;
    alt_with(alloc, world, unions, &branches)
}

/// What a node offers, beside another node.
pub(crate) fn finish(
    alloc: Global,
    world: &mut World,
    unions: &mut Unions,
    waiting: NodeId,
    ready: NodeId,
) -> Result<NodeId, Memory>
    requires waiting { IsNode world.old waiting }
    requires ready { IsNode world.old ready }
    requires unions { AreUnions world.old unions.old }
    ensures leads { Leads world.old world.new }
    ensures unions { AreUnions world.new unions.new }
    ensures finished { IfOk result (IsFinished world.new waiting ready) }
{
    let offers = world.row(waiting).offers.copy(alloc)?;
    let accepts = least(alloc, &[])?;
    let row = Row {
        ends: world.no_ends(),
        accepts,
        offers,
    };
    add(alloc, world, unions, &row, ready)
}
