ghost use Rattle.std.specs.Prelude.{IfOk};
ghost use Rattle.std.specs.List.{filter};
ghost use Rattle.occ_node.specs.World.{IsNode, Leads, row_of};
ghost use Rattle.occ_scope.specs.Change.{AreChanged, IsChanged, stays};
ghost use Rattle.occ_scope.specs.Paired.{Paired};

use crate::change::{Change, change_ends, number, open_offers, open_sets};
use occ_node::{Call, Memo, Memory, NodeId, Offers, Row, World};
use std::alloc::Global;

// The node after a change, of its offers.
fn finish(
    alloc: Global,
    world: &mut World,
    change: Change,
    node: NodeId,
    offers: Offers,
) -> Result<NodeId, Memory>
    requires node { IsNode world.old node }
    requires offers { Paired (IsChanged world.old change) (filter (λ o. stays change o.0) (row_of world.old node).offers) offers }
    ensures leads { Leads world.old world.new }
    ensures changed { IfOk result (IsChanged world.new change node) }
{
    let row = world.row(node);
    let ended = row.ends;
    let accepts = open_sets(alloc, change, &row.accepts)?;
    let ends = change_ends(&mut world.store, change, ended)?;
    world.make(Row {
        ends,
        accepts,
        offers,
    })
}

// The offers that stay, each with its node after the change.
#[cycle(change)]
fn offers_after(
    alloc: Global,
    world: &mut World,
    memo: &mut Memo,
    change: Change,
    node: NodeId,
) -> Result<Offers, Memory>
    requires node { IsNode world.old node }
    requires memo { AreChanged world.old change memo.old }
    ensures leads { Leads world.old world.new }
    ensures memo { AreChanged world.new change memo.new }
    ensures offers { IfOk result (Paired (IsChanged world.new change) (filter (λ o. stays change o.0) (row_of world.old node).offers)) }
{
    let open = open_offers(alloc, world, change, node)?;
    let mut offers = Offers::new(alloc);
    for offer in &open {
        let next = node_after(alloc, world, memo, change, offer.1)?;
        offers.push((offer.0, next))?;
    }
    Ok(offers)
}

/// The node after a change. It is looked up where it is remembered, and else remembered.
#[cycle(change)]
pub fn node_after(
    alloc: Global,
    world: &mut World,
    memo: &mut Memo,
    change: Change,
    node: NodeId,
) -> Result<NodeId, Memory>
    requires node { IsNode world.old node }
    requires memo { AreChanged world.old change memo.old }
    ensures leads { Leads world.old world.new }
    ensures memo { AreChanged world.new change memo.new }
    ensures changed { IfOk result (IsChanged world.new change node) }
{
    let call = Call {
        first: node.0,
        second: number(change),
        third: 0,
    };
    if let Some(known) = memo.get(call) {
        return Ok(NodeId(known));
    }
    let offers = offers_after(alloc, world, memo, change, node)?;
    let changed = finish(alloc, world, change, node, offers)?;
    memo.insert(call, changed.0)?;
    Ok(changed)
}
