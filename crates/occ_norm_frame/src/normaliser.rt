ghost use Rattle.std.specs.Prelude.{◌≡◌, ℕ, ◌<◌, ◌==◌, ◌&&◌, false, true, IfOk};
ghost use Rattle.std.specs.Int.{bit_at};
ghost use Rattle.occ_bits.specs.occ_dd.Assignment.{turned};
ghost use Rattle.occ_bits.specs.occ_dd.Store.{IsKnown as IsSetKnown, IsSet, has, sets_of};
ghost use Rattle.occ_weave.specs.occ_mdd.Maps.{IsKnown, value};
ghost use Rattle.occ_weave.specs.occ_node.World.{IsFit, IsMade, IsNode, Leads};
ghost use Rattle.occ_weave.specs.occ_choice.Branches.{AreBranches, IsAlt};
ghost use Rattle.occ_follow.specs.Sequence.{HasNodes, IsFollowed};
ghost use Rattle.occ_norm_frame.specs.Lifted.{IsLifted};
ghost use Rattle.occ_norm_frame.specs.Maps.{Extends, Lifts, MayHaveNodes, are_zero};
ghost use Rattle.occ_weave.specs.declared.manner.Manner.{Manner};

use crate::lifting::Lifting;
use crate::simple::zeros;
use crate::step::Step;
use occ_bits::SetId;
use occ_syntax::Memory;
use occ_weave::{Branch, MapId, Maps, NodeId, Row, World, alt_with};
use std::alloc::Global;
use std::marker::Model;
use std::mem;

/// A world, and the tables of all that is made in it. They serve each operation on whole maps, as long as the owner has the world. In
/// a clause it is the world alone.
#[derive(Drop)]
pub struct Normaliser {
    /// The nodes and sets of the world, with the tables.
    pub lifting: Lifting,
    /// The maps of the world.
    pub maps: Maps<NodeId>,
}

impl Model for Normaliser {
    ghost use Rattle.occ_weave.specs.occ_node.declared.world.World.{World};
    ghost use Rattle.occ_weave.specs.occ_node.contracts.world.World as code;

    ghost Value = { World };

    ghost coded = { code.the_row.coded };

    ghost use Rattle.occ_norm_frame.specs.Lifting.{IsRight};

    ghost view = { λ n. record n.lifting.weaver.world { maps = n.maps } };

    ghost invariant = { λ n. IsRight n.lifting };
}

impl Normaliser {
    /// The owner of a world, of which nothing is remembered. It takes no memory.
    pub fn new(alloc: Global, world: World) -> Normaliser
        ensures { Extends world result }
    {
        let mut taken = world;
        let maps = mem::replace(&mut taken.maps, Maps::new(alloc));
        Normaliser {
            lifting: Lifting::new(alloc, taken),
            maps,
        }
    }

    /// The world alone. It takes no memory.
    pub fn into_world(self) -> World
        ensures { Extends self result }
    {
        let lifting = self.lifting;
        let maps = self.maps;
        let mut world = lifting.weaver.into_world();
        world.maps = maps;
        world
    }

    /// Where memory comes from.
    pub fn alloc(&self) -> Global {
        self.lifting.weaver.alloc
    }

    /// How many sets there are. It takes no memory.
    pub fn sets(&self) -> usize
        ensures { result ≡ sets_of self.now.store }
    {
        self.lifting.weaver.world.store.sets()
    }

    /// The set without members. It takes no memory.
    pub fn empty(&self) -> SetId
        ensures { IsSet self.now.store result (λ x. false) }
    {
        self.lifting.weaver.world.store.empty()
    }

    /// The set of all assignments. It takes no memory.
    pub fn full(&self) -> SetId
        ensures { IsSet self.now.store result (λ x. true) }
    {
        self.lifting.weaver.world.store.full()
    }

    /// The set of the assignments in which a bit is 1.
    pub fn bit(&mut self, bit: u32) -> Result<SetId, Memory>
        requires { bit < 64 }
        ensures extends { Extends self.old self.new }
        ensures set { IfOk result (λ r. IsSet self.new.store r (λ x. bit_at x bit == 1)) }
    {
        self.lifting.weaver.world.store.bit(bit)
    }

    /// A map's value at an assignment. It takes no memory.
    pub fn get(&self, map: MapId, bits: u64) -> Option<NodeId>
        requires { IsKnown self.now.maps map }
        ensures { result ≡ value self.now.maps map bits }
    {
        self.maps.get(map, bits)
    }

    /// How many nodes a map has.
    pub fn node_count(&self, map: MapId) -> Result<usize, Memory>
        requires { IsKnown self.now.maps map }
    {
        let store = &self.lifting.weaver.world.store;
        let nodes = self.maps.leaves_under(store, map, store.full())?;
        Ok(nodes.len())
    }

    /// The node of a row: the one that has it, or a new one. Where memory runs out, all nodes are as before.
    pub fn make(&mut self, row: Row) -> Result<NodeId, Memory>
        requires { IsFit self.old row }
        ensures leads { Leads self.old self.new }
        ensures made { IfOk result (λ r. IsMade self.new r row) }
    {
        self.lifting.weaver.world.make(row)
    }

    // The assignments in which all of some bits are 0.
    pub(crate) fn zeros(&mut self, bits: u64) -> Result<SetId, Memory>
        ensures leads { Leads self.old self.new }
        ensures zeros { IfOk result (λ r. IsSet self.new.store r (are_zero 64 bits)) }
    {
        zeros(&mut self.lifting.weaver.world.store, bits)
    }

    /// The ALT of the branches that are enabled. Without branches it is STOP.
    pub fn alt(&mut self, branches: &[Branch]) -> Result<NodeId, Memory>
        requires { AreBranches self.old branches.now }
        ensures leads { Leads self.old self.new }
        ensures alt { IfOk result (IsAlt self.old self.new branches.now) }
    {
        let weaver = &mut self.lifting.weaver;
        alt_with(
            weaver.alloc,
            &mut weaver.world,
            &mut weaver.unions,
            branches,
        )
    }

    /// The node that goes on as the map's node of an assignment wherever the node ends in that.
    pub fn follow(&mut self, node: NodeId, map: MapId) -> Result<NodeId, Memory>
        requires node { IsNode self.old node }
        requires map { HasNodes self.old map }
        ensures leads { Leads self.old self.new }
        ensures followed { IfOk result (IsFollowed self.old self.new node map) }
    {
        self.lifting.follow(&mut self.maps, node, map)
    }

    // The map of what a step does to the nodes that two maps have at each state.
    pub(crate) fn lift(&mut self, step: Step, a: MapId, b: MapId) -> Result<MapId, Memory>
        requires a { MayHaveNodes self.old a }
        requires b { MayHaveNodes self.old b }
        ensures extends { Extends self.old self.new }
        ensures lifted { (m : Manner) × IfOk result (λ r. Lifts self.new a b r (IsLifted m step self.new)) }
    {
        self.lifting.lift(&mut self.maps, step, a, b)
    }
}
