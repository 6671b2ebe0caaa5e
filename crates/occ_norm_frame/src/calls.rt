ghost use Rattle.std.specs.Prelude.{◌≡◌, IfOk};
ghost use Rattle.occ_weave.specs.occ_mdd.Maps.{IsKnown};
ghost use Rattle.occ_follow.specs.Sequence.{HasNodes};
ghost use Rattle.occ_norm_frame.specs.Lifted.{IsEither, IsFinished, IsMerged, IsPrefixed, IsTurned, IsWovenOf, Finished, OnOne, OnTwo};
ghost use Rattle.occ_norm_frame.specs.Maps.{Extends, Lifts, MayHaveNodes};

use crate::Normaliser;
use crate::step::Step;
use occ_syntax::{Event, Memory, Name};
use occ_weave::MapId;

impl Normaliser {
    /// The map that has, at each state, the behaviours of the nodes of both maps, and no node where neither has one.
    pub fn united(&mut self, a: MapId, b: MapId) -> Result<MapId, Memory>
        requires a { MayHaveNodes self.old a }
        requires b { MayHaveNodes self.old b }
        ensures extends { Extends self.old self.new }
        ensures united { IfOk result (λ r. Lifts self.new a b r (IsEither self.new)) }
        ensures may { IfOk result (MayHaveNodes self.new) }
        ensures nodes { HasNodes self.old a → HasNodes self.old b → IfOk result (HasNodes self.new) }
    {
        self.lift(Step::Unite, a, b)
    }

    /// The map whose node at each state is this one's with those bits of all final states turned.
    pub fn shifted(&mut self, map: MapId, change: u64) -> Result<MapId, Memory>
        requires { HasNodes self.old map }
        ensures extends { Extends self.old self.new }
        ensures shifted { IfOk result (λ r. Lifts self.new map map r (λ a b. OnOne (IsTurned self.new change) a)) }
        ensures nodes { IfOk result (HasNodes self.new) }
    {
        if change == 0 {
            return Ok(map);
        }
        self.lift(Step::Shift(change), map, map)
    }

    /// The map whose node at each state is this one's after an event.
    pub fn prefixed(&mut self, map: MapId, event: Event) -> Result<MapId, Memory>
        requires { HasNodes self.old map }
        ensures extends { Extends self.old self.new }
        ensures prefixed { IfOk result (λ r. Lifts self.new map map r (λ a b. OnOne (IsPrefixed self.new event) a)) }
        ensures nodes { IfOk result (HasNodes self.new) }
    {
        self.lift(Step::Prefix(event), map, map)
    }

    /// The map whose node at each state waits for all events that the nodes of the two maps offer there.
    pub fn merged(&mut self, a: MapId, b: MapId) -> Result<MapId, Memory>
        requires a { HasNodes self.old a }
        requires b { HasNodes self.old b }
        ensures extends { Extends self.old self.new }
        ensures merged { IfOk result (λ r. Lifts self.new a b r (OnTwo (IsMerged self.new))) }
        ensures nodes { IfOk result (HasNodes self.new) }
    {
        self.lift(Step::Merge, a, b)
    }

    /// The map that has, at each state, what the one node offers beside the other: the first node alone where the second
    /// map has none.
    pub fn finished(&mut self, waiting: MapId, ready: MapId) -> Result<MapId, Memory>
        requires waiting { HasNodes self.old waiting }
        requires ready { MayHaveNodes self.old ready }
        ensures extends { Extends self.old self.new }
        ensures finished { IfOk result (λ r. Lifts self.new waiting ready r (Finished self.new)) }
        ensures nodes { IfOk result (HasNodes self.new) }
    {
        self.lift(Step::Finish, waiting, ready)
    }

    /// The map whose node at each state is those of the two maps side by side. Final states take the bits of `written` from
    /// the first, and nothing reaches the outside on the closed channels.
    pub fn woven(
        &mut self,
        written: u64,
        closed: &[Name],
        a: MapId,
        b: MapId,
    ) -> Result<MapId, Memory>
        requires a { HasNodes self.old a }
        requires b { HasNodes self.old b }
        ensures extends { Extends self.old self.new }
        ensures woven { IfOk result (λ r. Lifts self.new a b r (OnTwo (IsWovenOf self.new written closed.now))) }
        ensures nodes { IfOk result (HasNodes self.new) }
    {
        self.lifting.begin(written, closed)?;
        self.lifting.lift(&mut self.maps, Step::Weave, a, b)
    }
}
