ghost use Rattle.std.specs.Prelude.{◌≡◌, ℕ, ◌<◌, IfOk, if◌then◌else◌, false, true};
ghost use Rattle.occ_bits.specs.occ_dd.Assignment.{turned, with_bit};
ghost use Rattle.occ_bits.specs.occ_dd.Store.{IsKnown as IsSetKnown, has};
ghost use Rattle.occ_weave.specs.occ_mdd.Maps.{IsKnown, IsMap, value};
ghost use Rattle.occ_weave.specs.occ_node.declared.node.NodeId.{NodeId};
ghost use Rattle.occ_follow.specs.Sequence.{HasNodes};
ghost use Rattle.occ_norm_frame.specs.Maps.{Extends, MayHaveNodes, digit};

use crate::Normaliser;
use occ_bits::SetId;
use occ_syntax::Memory;
use occ_weave::{MapId, NodeId};

impl Normaliser {
    /// The map that has one value at every state.
    pub fn constant(&mut self, node: Option<NodeId>) -> Result<MapId, Memory>
        ensures extends { Extends self.old self.new }
        ensures map { IfOk result (λ r. IsMap self.new.maps r (λ x. node)) }
    {
        self.maps.constant(node)
    }

    /// The map that is `a` on the set and `b` elsewhere.
    pub fn choose(&mut self, set: SetId, a: MapId, b: MapId) -> Result<MapId, Memory>
        requires set { IsSetKnown self.old.store set }
        requires a { IsKnown self.old.maps a }
        requires b { IsKnown self.old.maps b }
        ensures extends { Extends self.old self.new }
        ensures map { IfOk result (λ r. IsMap self.new.maps r
            (λ x. if has self.old.store set x then value self.old.maps a x else value self.old.maps b x)) }
        ensures may { MayHaveNodes self.old a → MayHaveNodes self.old b → IfOk result (MayHaveNodes self.new) }
        ensures nodes { HasNodes self.old a → HasNodes self.old b → IfOk result (HasNodes self.new) }
    {
        let store = &mut self.lifting.weaver.world.store;
        self.maps.ite(store, set, a, b)
    }

    /// The map whose value at each state is this one's once a bit is made 0 or 1.
    pub fn cofactor(&mut self, map: MapId, bit: u32, one: bool) -> Result<MapId, Memory>
        requires bit { bit < 64 }
        requires map { IsKnown self.old.maps map }
        ensures extends { Extends self.old self.new }
        ensures map { IfOk result (λ r. IsMap self.new.maps r (λ x. value self.old.maps map (with_bit x bit (digit one)))) }
        ensures nodes { HasNodes self.old map → IfOk result (HasNodes self.new) }
    {
        let set = self.bit(bit)?;
        let turned = self.flip(map, bit)?;
        if one {
            self.choose(set, map, turned)
        } else {
            self.choose(set, turned, map)
        }
    }

    /// The map whose value at each state is this one's where a bit is turned.
    pub fn flip(&mut self, map: MapId, bit: u32) -> Result<MapId, Memory>
        requires bit { bit < 64 }
        requires map { IsKnown self.old.maps map }
        ensures extends { Extends self.old self.new }
        ensures map { IfOk result (λ r. IsMap self.new.maps r (λ x. value self.old.maps map (turned x bit))) }
        ensures nodes { HasNodes self.old map → IfOk result (HasNodes self.new) }
    {
        self.maps.flip(map, bit)
    }

    /// Whether a map depends on a bit.
    pub fn depends(&mut self, map: MapId, bit: u32) -> Result<bool, Memory>
        requires bit { bit < 64 }
        requires map { IsKnown self.old.maps map }
        ensures extends { Extends self.old self.new }
        ensures independent { IfOk result (λ answer. answer ≡ false → (x : ℕ) → value self.old.maps map (turned x bit) ≡ value self.old.maps map x) }
        ensures dependent { IfOk result (λ answer. answer ≡ true → ((x : ℕ) → value self.old.maps map (turned x bit) ≡ value self.old.maps map x) → ⊥) }
    {
        let turned = self.flip(map, bit)?;
        Ok(turned.0 != map.0)
    }
}
