ghost use Rattle.std.specs.Prelude.{◌≡◌, IfOk, IfSome};
ghost use Rattle.occ_node.specs.World.{IsNode, Leads};
ghost use Rattle.occ_choice.specs.Joined.{IsEither, IsSound};
ghost use Rattle.occ_choice.specs.Union.{AreUnions, IsAdded, IsUnion};

use crate::Unions;
use crate::join::{either_events, join};
use occ_node::{Memory, NodeId, Offers, Row, World};
use std::alloc::Global;

/// The node that has the behaviours of both nodes.
pub fn union(alloc: Global, world: &mut World, a: NodeId, b: NodeId) -> Result<NodeId, Memory>
    requires a { IsNode world.old a }
    requires b { IsNode world.old b }
    ensures leads { Leads world.old world.new }
    ensures union { IfOk result (IsUnion world.new a b) }
{
    let mut unions = Unions::new(alloc);
    union_with(alloc, world, &mut unions, a, b)
}

/// The node that has the behaviours of both nodes, by a table of unions, which learns those that are
/// made on the way.
#[cycle(union)]
pub fn union_with(
    alloc: Global,
    world: &mut World,
    unions: &mut Unions,
    a: NodeId,
    b: NodeId,
) -> Result<NodeId, Memory>
    requires a { IsNode world.old a }
    requires b { IsNode world.old b }
    requires unions { AreUnions world.old unions.old }
    ensures leads { Leads world.old world.new }
    ensures unions { AreUnions world.new unions.new }
    ensures union { IfOk result (IsUnion world.new a b) }
{
    if a == b {
        return Ok(a);
    }
    if let Some(known) = unions.get(a, b) {
        return Ok(known);
    }
    let row = world.row(a).copy(alloc)?;
    let united = add(alloc, world, unions, &row, b)?;
    unions.insert(a, b, united)?;
    Ok(united)
}

/// The node that has the behaviours of those of two nodes that are there, if one is.
#[cycle(union)]
pub(crate) fn either(
    alloc: Global,
    world: &mut World,
    unions: &mut Unions,
    p: Option<NodeId>,
    q: Option<NodeId>,
) -> Result<Option<NodeId>, Memory>
    requires p { IfSome p (IsNode world.old) }
    requires q { IfSome q (IsNode world.old) }
    requires unions { AreUnions world.old unions.old }
    ensures leads { Leads world.old world.new }
    ensures unions { AreUnions world.new unions.new }
    ensures either { IfOk result (IsEither world.old world.new p q) }
{
    match (p, q) {
        (Some(a), Some(b)) => Ok(Some(union_with(alloc, world, unions, a, b)?)),
        (Some(a), None) => Ok(Some(a)),
        (None, q) => Ok(q),
    }
}

/// The node that has the behaviours of a row and of a node. The row need not be in the table, nor have a
/// behaviour of its own.
#[cycle(union)]
pub fn add(
    alloc: Global,
    world: &mut World,
    unions: &mut Unions,
    row: &Row,
    b: NodeId,
) -> Result<NodeId, Memory>
    requires row { IsSound world.old row.now }
    requires b { IsNode world.old b }
    requires unions { AreUnions world.old unions.old }
    ensures leads { Leads world.old world.new }
    ensures unions { AreUnions world.new unions.new }
    ensures added { IfOk result (IsAdded world.old world.new row.now b) }
{
    let events = either_events(alloc, &row.offers, &world.row(b).offers)?;
    let mut offers = Offers::new(alloc);
    for event in events.items() {
        let p = row.offers.find(*event);
        let q = world.child(b, *event);
        match either(alloc, world, unions, p, q)? {
            Some(next) => offers.push((*event, next))?,
            None => unreachable!(),
        }
    }
    join(alloc, world, row, b, offers)
}
