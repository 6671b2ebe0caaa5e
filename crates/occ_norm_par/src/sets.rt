ghost use Rattle.std.specs.Prelude.{◌≡◌, ◌==◌, ℕ, ◌+◌, ◌<◌, ◌≤◌, ◌&&◌, ◌||◌, if◌then◌else◌, not, true, length, IfOk, IfSome};
ghost use Rattle.std.specs.Int.{bit_at};
ghost use Rattle.std.specs.List.{All};
ghost use Rattle.occ_norm_frame.specs.occ_bits.Words.{digit};
ghost use Rattle.occ_norm_frame.specs.occ_dd.Store.{IsKnown, IsSet, Keeps, has};
ghost use Rattle.occ_norm_frame.specs.occ_dd.Assignment.{with_bit};
ghost use Rattle.occ_norm_par.specs.States.{AreStates, HasFreed, HasThose, set_at};

use occ_norm_frame::{SetId, Store, has_bit};
use occ_syntax::Memory;

// Some states, and those that differ from one of them in this bit alone, if it is among some bits.
fn freed_at(store: &mut Store, bits: u64, bit: u32, set: SetId) -> Result<SetId, Memory>
    requires bit { bit < 64 }
    requires set { IsKnown store.old set }
    ensures keeps { Keeps store.old store.new }
    ensures set { IfOk result (λ r. IsSet store.new r (λ x. if bit_at bits bit == 1
        then has store.old set (with_bit x bit 0) || has store.old set (with_bit x bit 1) else has store.old set x)) }
{
    if !has_bit(bits, bit) {
        return Ok(set);
    }
    store.exists(set, bit)
}

/// Some states, and those that differ from one of them in some of the lowest bits alone, so many.
pub fn freed(store: &mut Store, count: u32, bits: u64, from: SetId) -> Result<SetId, Memory>
    requires count { count ≤ 64 }
    requires from { AreStates store.old count from }
    ensures keeps { Keeps store.old store.new }
    ensures states { IfOk result (AreStates store.new count) }
    ensures freed { IfOk result (HasFreed store.new count bits from) }
{
    let mut freed = from;
    for bit in 0..count {
        let next = freed_at(store, bits, bit, freed)?;
        freed = next;
    }
    Ok(freed)
}

// Whether the states of one set are all in another one or none of them is, if either is so.
fn value_in(store: &mut Store, from: SetId, ones: SetId) -> Result<Option<bool>, Memory>
    requires from { IsKnown store.old from }
    requires ones { IsKnown store.old ones }
    ensures keeps { Keeps store.old store.new }
    ensures value { IfOk result (λ r. IfSome r (λ b. (x : ℕ) → has store.old from x ≡ true → has store.old ones x ≡ b)) }
{
    let inside = store.subset(from, ones)?;
    if inside {
        return Ok(Some(true));
    }
    let others = store.not(ones)?;
    let outside = store.subset(from, others)?;
    if outside {
        return Ok(Some(false));
    }
    Ok(None)
}

// The states of a set in which a bit has that value.
fn having(store: &mut Store, set: SetId, bit: u32, value: bool) -> Result<SetId, Memory>
    requires bit { bit < 64 }
    requires set { IsKnown store.old set }
    ensures keeps { Keeps store.old store.new }
    ensures set { IfOk result (λ r. IsSet store.new r
        (λ x. has store.old set x && (if value then bit_at x bit == 1 else not (bit_at x bit == 1)))) }
{
    let ones = store.bit(bit)?;
    if value {
        return store.and(set, ones);
    }
    let zeros = store.not(ones)?;
    store.and(set, zeros)
}

// The states that may follow those of a set, where a bit becomes 1 in the states of `ones` alone: of `to` those in which the bit is
// what it becomes from each state of `from`, and all where that isn't one value.
#[tactic(auto, using(crate::proofs::Freeing::having_states, crate::proofs::Freeing::having_those))]
fn narrowed(
    store: &mut Store,
    from: SetId,
    ones: SetId,
    bit: u32,
    to: SetId,
) -> Result<SetId, Memory>
    requires bit { bit < 64 }
    requires from { IsKnown store.old from }
    requires ones { IsKnown store.old ones }
    requires to { IsKnown store.old to }
    ensures keeps { Keeps store.old store.new }
    ensures known { IfOk result (IsKnown store.new) }
    ensures states { (n : ℕ) → bit < n → AreStates store.old n to → IfOk result (AreStates store.new n) }
    ensures those { IfOk result (HasThose store.new (λ x y. bit_at y bit ≡ digit store.new ones x) from to) }
{
    let value = value_in(store, from, ones)?;
    match value {
        Some(value) => having(store, to, bit, value),
        None => Ok(to),
    }
}

/// The states of the second set that have, from a bit on, digits as they can be in states of the first.
pub fn narrowed_from(
    store: &mut Store,
    first: u32,
    digits: &[SetId],
    from: SetId,
    to: SetId,
) -> Result<SetId, Memory>
    requires first { first + length digits.now ≤ 64 }
    requires digits { All (IsKnown store.old) digits.now }
    requires from { IsKnown store.old from }
    requires to { IsKnown store.old to }
    ensures keeps { Keeps store.old store.new }
    ensures states { (n : ℕ) → first + length digits.now ≤ n → AreStates store.old n to → IfOk result (AreStates store.new n) }
    ensures those { IfOk result (HasThose store.new (λ x y. (i : ℕ) → i < length digits.now
        → bit_at y (first + i) ≡ digit store.new (set_at digits.now i) x) from to) }
{
    let mut those = to;
    for place in 0..digits.len() {
        let next = narrowed(store, from, digits[place], first + place as u32, those)?;
        those = next;
    }
    Ok(those)
}
