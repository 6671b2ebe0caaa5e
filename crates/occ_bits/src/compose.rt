ghost use Rattle.std.specs.Prelude.{◌≡◌, ℕ, ◌<◌, ◌≤◌, ◌==◌, true, length, IfOk, if◌then◌else◌};
ghost use Rattle.occ_dd.specs.Assignment.{with_bit};
ghost use Rattle.occ_dd.specs.Store.{IsKnown, IsSet, Keeps, has};
ghost use Rattle.occ_bits.specs.Digits.{AreDigits, IsComposed, IsEither, IsIdentity, KeepComposed};

use occ_dd::{Call, Memo, Memory, SetId, Store};
use std::alloc::Global;

/// The digits that leave each assignment as it is.
pub fn identity(alloc: Global, store: &mut Store) -> Result<Vec<SetId>, Memory>
    ensures keeps { Keeps store.old store.new }
    ensures identity { IfOk result (λ r. IsIdentity store.new r.items) }
{
    let mut digits = Vec::new(alloc);
    for bit in 0..64 {
        let set = store.bit(bit)?;
        digits.push(set)?;
    }
    Ok(digits)
}

// The assignments that are members of a set once a bit is made 0 or 1.
fn fixed(store: &mut Store, set: SetId, bit: u32, one: bool) -> Result<SetId, Memory>
    requires bit { bit < 64 }
    requires set { IsKnown store.old set }
    ensures keeps { Keeps store.old store.new }
    ensures set { IfOk result (λ r. IsSet store.new r (λ x. has store.old set (with_bit x bit (if one then 1 else 0)))) }
{
    let there = store.bit(bit)?;
    let turned = store.flip(set, bit)?;
    if one {
        store.ite(there, set, turned)
    } else {
        store.ite(there, turned, set)
    }
}

// The assignments from which the first digits, so many, lead into a set.
fn composed(
    store: &mut Store,
    digits: &[SetId],
    left: usize,
    set: SetId,
    memo: &mut Memo,
) -> Result<SetId, Memory>
    requires digits { AreDigits store.old digits.now }
    requires left { left ≤ 64 }
    requires set { IsKnown store.old set }
    requires memo { KeepComposed store.old digits.now memo.old }
    ensures keeps { Keeps store.old store.new }
    ensures memo { KeepComposed store.new digits.now memo.new }
    ensures composed { IfOk result (IsComposed store.new digits.now left set) }
{
    if left == 0 {
        return Ok(set);
    }
    let call = Call {
        first: left,
        second: set.0,
        third: 0,
    };
    if let Some(known) = memo.get(call) {
        return Ok(SetId(known));
    }
    let place = left - 1;
    let bit = place as u32;
    let zero = fixed(store, set, bit, false)?;
    let one = fixed(store, set, bit, true)?;
    let low = composed(store, digits, place, zero, memo)?;
    let high = composed(store, digits, place, one, memo)?;
    let made = store.ite(digits[place], high, low)?;
    memo.insert(call, made.0)?;
    Ok(made)
}

/// The assignments from which digits lead into a set. What is made on the way is remembered for these digits.
pub fn leading(
    store: &mut Store,
    digits: &[SetId],
    set: SetId,
    memo: &mut Memo,
) -> Result<SetId, Memory>
    requires digits { AreDigits store.old digits.now }
    requires set { IsKnown store.old set }
    requires memo { KeepComposed store.old digits.now memo.old }
    ensures keeps { Keeps store.old store.new }
    ensures memo { KeepComposed store.new digits.now memo.new }
    ensures composed { IfOk result (IsComposed store.new digits.now 64 set) }
{
    composed(store, digits, 64, set, memo)
}

/// The digits that lead where the one list leads from members of a set, and where the other leads from others.
pub fn either(
    alloc: Global,
    store: &mut Store,
    set: SetId,
    yes: &[SetId],
    no: &[SetId],
) -> Result<Vec<SetId>, Memory>
    requires set { IsKnown store.old set }
    requires yes { AreDigits store.old yes.now }
    requires no { AreDigits store.old no.now }
    ensures keeps { Keeps store.old store.new }
    ensures either { IfOk result (λ r. IsEither store.new set yes.now no.now r.items) }
{
    let mut digits = Vec::new(alloc);
    for place in 0..yes.len() {
        let digit = store.ite(set, yes[place], no[place])?;
        digits.push(digit)?;
    }
    Ok(digits)
}
