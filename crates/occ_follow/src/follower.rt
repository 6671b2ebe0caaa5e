ghost use Rattle.std.specs.Prelude.{◌≡◌, IfOk};
ghost use Rattle.occ_choice.specs.occ_node.World.{IsNode, Leads, row_of};
ghost use Rattle.occ_choice.specs.occ_node.declared.world.World.{World};
ghost use Rattle.occ_choice.specs.Union.{AreUnions};
ghost use Rattle.occ_scope.specs.Paired.{Paired};
ghost use Rattle.occ_follow.specs.Sequence.{HasNodes};

use crate::nexts::{nexts_of, united};
use occ_choice::{Call, MapId, Memo, Memory, NodeId, Offers, Row, Unions, World, add};
use std::alloc::Global;

/// What makes sequences in a world, with the tables of the unions and of the sequences that it has made: these
/// by the nodes that they begin as and the maps that they go on by.
#[derive(Drop)]
pub struct Follower {
    alloc: Global,
    unions: Unions,
    sequences: Memo,
}

impl Follower {
    ghost use Rattle.occ_follow.specs.Sequences.{IsRight, IsSequence};

    /// A follower that remembers nothing. It takes no memory.
    pub fn new(alloc: Global) -> Follower
        ensures { (w : World) → IsRight w result }
    {
        Follower {
            alloc,
            unions: Unions::new(alloc),
            sequences: Memo::new(alloc),
        }
    }

    // The node of a node's acceptances, of its offers once they go on, and of what goes on where it has
    // ended before any event.
    fn finish(
        &mut self,
        world: &mut World,
        node: NodeId,
        map: MapId,
        offers: Offers,
    ) -> Result<NodeId, Memory>
        requires unions { AreUnions world.old self.old.unions }
        requires node { IsNode world.old node }
        requires map { HasNodes world.old map }
        requires offers { Paired (IsSequence world.old map) (row_of world.old node).offers offers }
        ensures leads { Leads world.old world.new }
        ensures unions { AreUnions world.new self.new.unions }
        ensures sequences { self.new.sequences ≡ self.old.sequences }
        ensures sequence { IfOk result (IsSequence world.new map node) }
    {
        let nexts = nexts_of(world, node, map)?;
        let accepts = world.row(node).accepts.copy(self.alloc)?;
        let row = Row {
            ends: world.no_ends(),
            accepts,
            offers,
        };
        match nexts.as_slice() {
            [] => world.make(row),
            [first, others @ ..] => {
                let next = united(self.alloc, world, &mut self.unions, *first, others)?;
                add(self.alloc, world, &mut self.unions, &row, next)
            }
        }
    }

    // The offers of a node, each with its node once that goes on.
    #[cycle(follow)]
    fn offers_after(
        &mut self,
        world: &mut World,
        node: NodeId,
        map: MapId,
    ) -> Result<Offers, Memory>
        requires right { IsRight world.old self.old }
        requires node { IsNode world.old node }
        requires map { HasNodes world.old map }
        ensures leads { Leads world.old world.new }
        ensures right { IsRight world.new self.new }
        ensures offers { IfOk result (Paired (IsSequence world.new map) (row_of world.old node).offers) }
    {
        let before = world.row(node).offers.copy(self.alloc)?;
        let mut offers = Offers::new(self.alloc);
        for offer in before.items() {
            let next = self.node_after(world, offer.1, map)?;
            offers.push((offer.0, next))?;
        }
        Ok(offers)
    }

    /// The node that goes on as the map says wherever the node ends. It is looked up where it is remembered,
    /// and else remembered.
    #[cycle(follow)]
    pub fn node_after(
        &mut self,
        world: &mut World,
        node: NodeId,
        map: MapId,
    ) -> Result<NodeId, Memory>
        requires right { IsRight world.old self.old }
        requires node { IsNode world.old node }
        requires map { HasNodes world.old map }
        ensures leads { Leads world.old world.new }
        ensures right { IsRight world.new self.new }
        ensures sequence { IfOk result (IsSequence world.new map node) }
    {
        let call = Call {
            first: node.0,
            second: map.0,
            third: 0,
        };
        if let Some(known) = self.sequences.get(call) {
            return Ok(NodeId(known));
        }
        let offers = self.offers_after(world, node, map)?;
        let followed = self.finish(world, node, map, offers)?;
        self.sequences.insert(call, followed.0)?;
        Ok(followed)
    }
}
