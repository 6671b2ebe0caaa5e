ghost use Rattle.std.specs.Prelude.{◌≡◌, ℕ, ◌<◌, ◌^◌, true, IfOk, IfSome, OnOk};
ghost use Rattle.occ_weave.specs.occ_node.World.{IsNode, Leads};
ghost use Rattle.occ_follow.specs.Sequence.{HasNodes, IsFollowed};
ghost use Rattle.occ_norm_frame.specs.Lifted.{Finished, IsEither, IsLifted, IsMerged, IsPrefixed, IsTurned, OnOne, OnTwo};
ghost use Rattle.occ_norm_frame.specs.Lifting.{Accepts, Goes, Relates};
ghost use Rattle.occ_norm_frame.specs.Maps.{Extends, Lifts, MayHaveNodes};

use crate::nodes::{finish, merge};
use crate::step::Step;
use occ_bits::Memo;
use occ_follow::{Shifts, follow, shift_with};
use occ_syntax::{Event, Memory, Name};
use occ_weave::{Both, Manner, MapId, Maps, NodeId, Weaver, World, prefix_out, union_with};
use std::alloc::Global;
use std::mem;

/// The nodes of a world, without its maps, and the tables of what is done to the nodes of two maps.
#[derive(Drop)]
pub struct Lifting {
    /// The nodes, with the tables of unions and of nodes side by side.
    pub weaver: Weaver,
    /// The nodes with bits turned.
    pub shifts: Shifts,
    /// How the nodes that the weaver remembers are side by side.
    pub manner: Manner,
    /// What is done.
    pub step: Step,
}

// Whether two lists of names are the same.
fn same_names(left: &[Name], right: &[Name]) -> bool
    ensures { result ≡ true → left.now ≡ right.now }
{
    left == right
}

// Whether nodes are put side by side so.
fn is_manner(manner: &Manner, written: u64, closed: &[Name]) -> bool
    ensures { result ≡ true → (manner.now.written ≡ written) × (manner.now.closed.items ≡ closed.now) }
{
    manner.written == written && same_names(&manner.closed, closed)
}

impl Lifting {
    ghost use Rattle.occ_norm_frame.specs.Lifting.{IsRight};

    /// The nodes of a world, of which nothing is remembered. It takes no memory.
    pub fn new(alloc: Global, world: World) -> Lifting
        ensures world { result.weaver.world ≡ world }
        ensures right { IsRight result }
    {
        Lifting {
            weaver: Weaver::new(alloc, world),
            shifts: Shifts::new(alloc),
            manner: Manner {
                written: 0,
                closed: Vec::new(alloc),
            },
            step: Step::Unite,
        }
    }

    /// Nodes are put side by side in this manner from now on. What is remembered of another one is forgotten.
    pub fn begin(&mut self, written: u64, closed: &[Name]) -> Result<(), Memory>
        requires { IsRight self.old }
        ensures right { IsRight self.new }
        ensures world { self.new.weaver.world ≡ self.old.weaver.world }
        ensures written { OnOk result (self.new.manner.written ≡ written) }
        ensures closed { OnOk result (self.new.manner.closed.items ≡ closed.now) }
    {
        if is_manner(&self.manner, written, closed) {
            return Ok(());
        }
        let manner = Manner::new(self.weaver.alloc, written, closed)?;
        self.weaver.pairs = Memo::new(self.weaver.alloc);
        self.manner = manner;
        Ok(())
    }

    /// The map of what a step does to the nodes that two maps have at each state.
    pub fn lift(
        &mut self,
        maps: &mut Maps<NodeId>,
        step: Step,
        a: MapId,
        b: MapId,
    ) -> Result<MapId, Memory>
        requires right { IsRight self.old }
        requires a { MayHaveNodes (record self.old.weaver.world { maps = maps.old }) a }
        requires b { MayHaveNodes (record self.old.weaver.world { maps = maps.old }) b }
        ensures right { IsRight self.new }
        ensures manner { self.new.manner ≡ self.old.manner }
        ensures extends { Extends (record self.old.weaver.world { maps = maps.old }) (record self.new.weaver.world { maps = maps.new }) }
        ensures lifted { IfOk result (λ r. Lifts (record self.new.weaver.world { maps = maps.new }) a b r
            (IsLifted self.old.manner step (record self.new.weaver.world { maps = maps.new }))) }
    {
        self.step = step;
        maps.apply2(a, b, self)
    }

    /// The node that goes on as the map's node of an assignment wherever the node ends in that. Also where memory runs out, the maps
    /// are as they were.
    pub fn follow(
        &mut self,
        maps: &mut Maps<NodeId>,
        node: NodeId,
        map: MapId,
    ) -> Result<NodeId, Memory>
        requires right { IsRight self.old }
        requires node { IsNode self.old.weaver.world node }
        requires map { HasNodes (record self.old.weaver.world { maps = maps.old }) map }
        ensures right { IsRight self.new }
        ensures leads { Leads (record self.old.weaver.world { maps = maps.old }) (record self.new.weaver.world { maps = maps.new }) }
        ensures followed { IfOk result (IsFollowed (record self.old.weaver.world { maps = maps.old })
            (record self.new.weaver.world { maps = maps.new }) node map) }
    {
        let weaver = &mut self.weaver;
        mem::swap(maps, &mut weaver.world.maps);
        let followed = follow(weaver.alloc, &mut weaver.world, node, map);
        mem::swap(maps, &mut weaver.world.maps);
        followed
    }

    // The node of both, where both are there, or of the one that is.
    fn unite(&mut self, a: Option<NodeId>, b: Option<NodeId>) -> Result<Option<NodeId>, Memory>
        requires a { IfSome a (Accepts self.old) }
        requires b { IfSome b (Accepts self.old) }
        ensures goes { Goes self.old self.new }
        ensures united { IfOk result (IsEither self.new.weaver.world a b) }
    {
        match (a, b) {
            (Some(p), Some(q)) => {
                let weaver = &mut self.weaver;
                let both = union_with(weaver.alloc, &mut weaver.world, &mut weaver.unions, p, q)?;
                Ok(Some(both))
            }
            (Some(p), None) => Ok(Some(p)),
            (None, q) => Ok(q),
        }
    }

    // The node with those bits of its final states turned.
    fn shift(&mut self, a: Option<NodeId>, change: u64) -> Result<Option<NodeId>, Memory>
        requires { IfSome a (Accepts self.old) }
        ensures goes { Goes self.old self.new }
        ensures shifted { IfOk result (OnOne (IsTurned self.new.weaver.world change) a) }
    {
        let Some(p) = a else {
            return Ok(None);
        };
        let turned = shift_with(
            self.weaver.alloc,
            &mut self.weaver.world,
            &mut self.shifts,
            p,
            change,
        )?;
        Ok(Some(turned))
    }

    // The node after an event.
    fn prefix(&mut self, a: Option<NodeId>, event: Event) -> Result<Option<NodeId>, Memory>
        requires { IfSome a (Accepts self.old) }
        ensures goes { Goes self.old self.new }
        ensures prefixed { IfOk result (OnOne (IsPrefixed self.new.weaver.world event) a) }
    {
        let Some(p) = a else {
            return Ok(None);
        };
        let before = prefix_out(self.weaver.alloc, &mut self.weaver.world, event, p)?;
        Ok(Some(before))
    }

    // The node that offers what both offer.
    fn merge(&mut self, a: Option<NodeId>, b: Option<NodeId>) -> Result<Option<NodeId>, Memory>
        requires a { IfSome a (Accepts self.old) }
        requires b { IfSome b (Accepts self.old) }
        ensures goes { Goes self.old self.new }
        ensures merged { IfOk result (OnTwo (IsMerged self.new.weaver.world) a b) }
    {
        match (a, b) {
            (Some(p), Some(q)) => {
                let weaver = &mut self.weaver;
                let both = merge(weaver.alloc, &mut weaver.world, &mut weaver.unions, p, q)?;
                Ok(Some(both))
            }
            (Some(_), None) => Ok(None),
            (None, _) => Ok(None),
        }
    }

    // What the first node offers beside the second, or the first where there is no second.
    fn finish(&mut self, a: Option<NodeId>, b: Option<NodeId>) -> Result<Option<NodeId>, Memory>
        requires a { IfSome a (Accepts self.old) }
        requires b { IfSome b (Accepts self.old) }
        ensures goes { Goes self.old self.new }
        ensures finished { IfOk result (Finished self.new.weaver.world a b) }
    {
        match (a, b) {
            (Some(p), Some(q)) => {
                let weaver = &mut self.weaver;
                let both = finish(weaver.alloc, &mut weaver.world, &mut weaver.unions, p, q)?;
                Ok(Some(both))
            }
            (Some(p), None) => Ok(Some(p)),
            (None, _) => Ok(None),
        }
    }
}

impl Both<NodeId> for Lifting {
    ghost use Rattle.occ_norm_frame.specs.Lifting.{Accepts, Goes, Relates};
    ghost use Rattle.occ_norm_frame.specs.Laws.{goes_refl, goes_trans, accepts_later, relates_later};

    ghost accepts = { λ f n. Accepts f n };

    ghost relates = { λ f a b r. Relates f a b r };

    ghost leads = { λ f g. Goes f g };

    ghost leads_refl = { goes_refl };

    ghost leads_trans = { goes_trans };

    ghost accepts_later = { accepts_later };

    ghost relates_later = { relates_later };

    fn both(&mut self, a: Option<NodeId>, b: Option<NodeId>) -> Result<Option<NodeId>, Memory>
        requires a { IfSome a (Accepts self.old) }
        requires b { IfSome b (Accepts self.old) }
        ensures leads { Goes self.old self.new }
        ensures relates { IfOk result (Relates self.new a b) }
    {
        match self.step {
            Step::Unite => self.unite(a, b),
            Step::Shift(change) => self.shift(a, change),
            Step::Prefix(event) => self.prefix(a, event),
            Step::Merge => self.merge(a, b),
            Step::Finish => self.finish(a, b),
            Step::Weave => match (a, b) {
                (Some(p), Some(q)) => {
                    let both = self.weaver.weave(&self.manner, p, q)?;
                    Ok(Some(both))
                }
                (Some(_), None) => Ok(None),
                (None, _) => Ok(None),
            },
        }
    }
}
