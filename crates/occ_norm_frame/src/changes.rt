ghost use Rattle.std.specs.Prelude.{◌≡◌, ℕ, ◌≤◌, ◌<◌, ◌+◌, ◌-◌, ◌^◌, IfOk, bit_and, bit_xor, if◌then◌else◌};
ghost use Rattle.occ_bits.specs.occ_dd.Store.{IsKnown as IsSetKnown, has};
ghost use Rattle.occ_follow.specs.Sequence.{HasNodes};
ghost use Rattle.occ_weave.specs.occ_mdd.Maps.{IsKnown};
ghost use Rattle.occ_norm_frame.specs.Maps.{Extends};
ghost use Rattle.occ_norm_frame.specs.Changes.{IsChanged, IsFreed, IsSupport};

use crate::Normaliser;
use crate::frame::has_bit;
use occ_bits::SetId;
use occ_syntax::Memory;
use occ_weave::MapId;

/// The map where, at the states of the set, a bit of all final states is turned.
pub fn turned_on(world: &mut Normaliser, set: SetId, bit: u32, map: MapId) -> Result<MapId, Memory>
    requires set { IsSetKnown world.old.store set }
    requires bit { bit < 64 }
    requires map { HasNodes world.old map }
    ensures extends { Extends world.old world.new }
    ensures nodes { IfOk result (HasNodes world.new) }
    ensures changed { IfOk result (IsChanged world.new (λ x. if has world.old.store set x then 2 ^ bit else 0) map) }
{
    let turned = world.shifted(map, 1 << bit)?;
    world.choose(set, turned, map)
}

// The same where the bit is 1, if it is one of some bits.
fn rebased_at(world: &mut Normaliser, bits: u64, bit: u32, map: MapId) -> Result<MapId, Memory>
    requires bit { bit < 64 }
    requires map { HasNodes world.old map }
    ensures extends { Extends world.old world.new }
    ensures nodes { IfOk result (HasNodes world.new) }
    ensures changed { IfOk result (IsChanged world.new (λ x. bit_and x (bit_and bits (2 ^ bit))) map) }
{
    if !has_bit(bits, bit) {
        return Ok(map);
    }
    let set = world.bit(bit)?;
    turned_on(world, set, bit, map)
}

// Those of some bits that don't stand below a bit.
fn not_below(bits: u64, bit: u32) -> u64
    requires { bit < 64 }
    ensures { (x : ℕ) → bit_xor (bit_and x (bit_and bits (2 ^ bit - 1))) (bit_and x result) ≡ bit_and x bits }
{
    bits ^ (bits & ((1 << bit) - 1))
}

/// One more than the highest bit on which a map depends, or 0 where it depends on none.
pub fn depth(world: &mut Normaliser, map: MapId) -> Result<u32, Memory>
    requires { IsKnown world.old.maps map }
    ensures { Extends world.old world.new }
{
    for place in 0..64 {
        let bit = 63 - place;
        let matters = world.depends(map, bit)?;
        if matters {
            return Ok(bit + 1);
        }
    }
    Ok(0)
}

/// Whether a map has a node of its own for each fourth assignment of its bits, or of so many bits.
pub fn is_full(world: &mut Normaliser, bits: u32, map: MapId) -> Result<bool, Memory>
    requires { IsKnown world.old.maps map }
    ensures { Extends world.old world.new }
{
    let deep = depth(world, map)?.max(bits).max(2);
    if 24 < deep {
        return Ok(false);
    }
    let nodes = world.node_count(map)?;
    Ok(nodes >> (deep - 2) > 0)
}

// Whether turning each state once by all of some bits, from a bit on, takes less time than turning the map for each bit by
// itself: so where it has about as many nodes as there are states, or half as many and more with each bit. `before` is how
// many it had before the last bit, and becomes how many it has.
fn is_quicker_at_once(
    world: &mut Normaliser,
    bits: u64,
    bit: u32,
    before: &mut usize,
    map: MapId,
) -> Result<bool, Memory>
    requires bit { bit < 64 }
    requires map { IsKnown world.old.maps map }
    ensures { Extends world.old world.new }
{
    if !has_bit(bits, bit) || bits.count_ones() < 4 {
        return Ok(false);
    }
    let highest = 64_u32.saturating_sub(bits.leading_zeros());
    let deep = depth(world, map)?.max(highest).max(2);
    if 24 < deep {
        return Ok(false);
    }
    let nodes = world.node_count(map)?;
    let was = *before;
    *before = nodes;
    let grows = 0 < was && was / 2 <= nodes / 3;
    let many = if grows { deep - 2 } else { deep - 1 };
    Ok(nodes >> many > 0)
}

// Turns in the final states of each state those of some bits that are 1 in the state.
#[derive(Clone, Copy)]
struct Turning {
    bits: u64,
}

impl Turning {
    // The map where some bits of all final states are turned, and those of the bits below `left` that are 1 in the state:
    // each state's node is turned once, by all of them together.
    fn turned_by(
        &self,
        world: &mut Normaliser,
        left: u32,
        change: u64,
        map: MapId,
    ) -> Result<MapId, Memory>
        requires left { left ≤ 64 }
        requires map { HasNodes world.old map }
        ensures extends { Extends world.old world.new }
        ensures nodes { IfOk result (HasNodes world.new) }
        ensures changed { IfOk result (IsChanged world.new
            (λ x. bit_xor change (bit_and x (bit_and self.now.bits (2 ^ left - 1)))) map) }
    {
        if left == 0 {
            return world.shifted(map, change);
        }
        let bit = left - 1;
        if !has_bit(self.bits, bit) {
            return self.turned_by(world, bit, change, map);
        }
        let zero = world.cofactor(map, bit, false)?;
        let one = world.cofactor(map, bit, true)?;
        let low = self.turned_by(world, bit, change, zero)?;
        let high = self.turned_by(world, bit, change ^ (1 << bit), one)?;
        let set = world.bit(bit)?;
        world.choose(set, high, low)
    }
}

/// The map where each of some bits is turned in all final states of the states in which it is 1: what was a change of these
/// bits is then their final value, and what was their final value a change.
// Bit by bit while the map is small, since many states can have one node then; each state by all that are left once it is large.
pub fn rebased(world: &mut Normaliser, bits: u64, map: MapId) -> Result<MapId, Memory>
    requires { HasNodes world.old map }
    ensures extends { Extends world.old world.new }
    ensures nodes { IfOk result (HasNodes world.new) }
    ensures changed { IfOk result (IsChanged world.new (λ x. bit_and x bits) map) }
{
    let mut rebased = map;
    let mut before = 0;
    for bit in 0..64 {
        let rest = not_below(bits, bit);
        let together = is_quicker_at_once(world, rest, bit, &mut before, rebased)?;
        if together {
            let turning = Turning { bits: rest };
            return turning.turned_by(world, 64, 0, rebased);
        }
        let next = rebased_at(world, bits, bit, rebased)?;
        rebased = next;
    }
    Ok(rebased)
}

// The map in which a bit has any value.
fn freed_at(world: &mut Normaliser, bit: u32, map: MapId) -> Result<MapId, Memory>
    requires bit { bit < 64 }
    requires map { HasNodes world.old map }
    ensures extends { Extends world.old world.new }
    ensures nodes { IfOk result (HasNodes world.new) }
    ensures freed { IfOk result (IsFreed world.new bit (bit + 1) map) }
{
    let matters = world.depends(map, bit)?;
    if !matters {
        return Ok(map);
    }
    let zero = world.cofactor(map, bit, false)?;
    let one = world.cofactor(map, bit, true)?;
    world.united(zero, one)
}

/// The map in which the bits from `first` on, up to the bit `end`, have any values.
pub fn freed(world: &mut Normaliser, first: u32, end: u32, map: MapId) -> Result<MapId, Memory>
    requires order { first ≤ end }
    requires end { end ≤ 24 }
    requires map { HasNodes world.old map }
    ensures extends { Extends world.old world.new }
    ensures nodes { IfOk result (HasNodes world.new) }
    ensures freed { IfOk result (IsFreed world.new first end map) }
{
    let mut freed = map;
    for bit in first..end {
        let next = freed_at(world, bit, freed)?;
        freed = next;
    }
    Ok(freed)
}

/// Those of the lowest bits, so many, on which a map depends.
pub fn support(world: &mut Normaliser, count: u32, map: MapId) -> Result<u64, Memory>
    requires count { count ≤ 24 }
    requires map { HasNodes world.old map }
    ensures extends { Extends world.old world.new }
    ensures support { IfOk result (IsSupport world.new count map) }
{
    let mut bits: u64 = 0;
    for bit in 0..count {
        let matters = world.depends(map, bit)?;
        bits |= u64::from(matters) << bit;
    }
    Ok(bits)
}
