ghost use Rattle.std.specs.Prelude.{◌≡◌, ◌+◌, ◌-◌, ◌%◌, ◌^◌, ◌==◌, ◌≤◌, ℕ, not, nat_lt, nat_le, bit_and, bit_or, bit_xor, length, IfOk};
ghost use Rattle.std.specs.List.{All};
ghost use Rattle.occ_dd.specs.Store.{IsKnown, IsSet, Keeps};
ghost use Rattle.occ_syntax.specs.Eval.{applied};
ghost use Rattle.occ_bits.specs.Words.{IsWord, number_at};
ghost use Rattle.occ_bits.specs.Circuits.{IsAdded, IsTaken, IsDifference, HasBits, digits_of, row_at};

use crate::digits::{Digits, single};
use occ_dd::{Memory, SetId, Store};
use occ_syntax::Op;
use std::alloc::Global;

// Truth tables. Of the three inputs of eight rows, the first two are the digits of the operands, and the last is what
// the lower digits hand on.

/// The sum of three digits, and the difference of a digit and two others: whether an odd number of them is 1.
const SUM: [bool; 8] = [false, true, true, false, true, false, false, true];
/// The carry of a sum of three digits: whether two of them are 1.
const CARRY: [bool; 8] = [false, false, false, true, false, true, true, true];
/// The borrow of a difference: whether the first digit is less than the other two together.
const BORROW: [bool; 8] = [false, false, true, false, true, false, true, true];
/// Whether two digits differ, or lower ones did.
const APART: [bool; 8] = [false, true, true, false, true, true, true, true];

const AND: [bool; 4] = [false, false, false, true];

const OR: [bool; 4] = [false, true, true, true];

const XOR: [bool; 4] = [false, true, true, false];

// Whether a row of the tables is that of the full adder, or of the full subtractor.
macro_rules! is_sum {
    ($row:literal) => {
        SUM[$row] as usize + 2 * CARRY[$row] as usize == ($row & 1) + ($row >> 1 & 1) + ($row >> 2)
    };
}

macro_rules! is_difference {
    ($row:literal) => {
        SUM[$row] as usize + ($row >> 1 & 1) + ($row >> 2) == ($row & 1) + 2 * BORROW[$row] as usize
    };
}

const _: () = prove!(is_sum!(0) && is_sum!(1) && is_sum!(2) && is_sum!(3));

const _: () = prove!(is_sum!(4) && is_sum!(5) && is_sum!(6) && is_sum!(7));

const _: () = prove!(
    is_difference!(0) && is_difference!(1) && is_difference!(2) && is_difference!(3)
);

const _: () = prove!(
    is_difference!(4) && is_difference!(5) && is_difference!(6) && is_difference!(7)
);

/// What the operator makes of two words of one length.
pub(crate) fn apply(
    alloc: Global,
    store: &mut Store,
    op: Op,
    left: &[SetId],
    right: &[SetId],
) -> Result<Digits, Memory>
    requires left { All (IsKnown store.old) left.now }
    requires right { All (IsKnown store.old) right.now }
    requires same { length left.now ≡ length right.now }
    requires few { length left.now ≤ 8 }
    ensures keeps { Keeps store.old store.new }
    ensures word { IfOk result (λ word. IsWord store.new (digits_of op (length left.now)) word
        (λ x. applied op (length left.now) (number_at store.old left.now x) (number_at store.old right.now x))) }
{
    match op {
        Op::Plus => plus(alloc, store, left, right),
        Op::Minus => minus(alloc, store, left, right),
        Op::And | Op::BitAnd => gates(alloc, store, &AND, left, right),
        Op::Or | Op::BitOr => gates(alloc, store, &OR, left, right),
        Op::BitXor => gates(alloc, store, &XOR, left, right),
        Op::Equal => Ok(single(alloc, equal(store, left, right)?)),
        Op::Differ => Ok(single(alloc, differ(store, left, right)?)),
        Op::Less => Ok(single(alloc, less(alloc, store, left, right)?)),
        Op::Greater => Ok(single(alloc, less(alloc, store, right, left)?)),
        Op::AtMost => Ok(single(alloc, at_most(alloc, store, left, right)?)),
        Op::AtLeast => Ok(single(alloc, at_most(alloc, store, right, left)?)),
    }
}

/// The sum of three digits, and its carry.
fn add_digits(
    store: &mut Store,
    left: SetId,
    right: SetId,
    carry: SetId,
) -> Result<(SetId, SetId), Memory>
    requires left { IsKnown store.old left }
    requires right { IsKnown store.old right }
    requires carry { IsKnown store.old carry }
    ensures keeps { Keeps store.old store.new }
    ensures added { IfOk result (λ r. IsAdded store.old store.new left right carry r.0 r.1) }
{
    let inputs = [left, right, carry];
    let sum = store.truth(&SUM, &inputs)?;
    let next = store.truth(&CARRY, &inputs)?;
    Ok((sum, next))
}

/// The difference of a digit and two others, and its borrow.
fn take_digits(
    store: &mut Store,
    left: SetId,
    right: SetId,
    borrow: SetId,
) -> Result<(SetId, SetId), Memory>
    requires left { IsKnown store.old left }
    requires right { IsKnown store.old right }
    requires borrow { IsKnown store.old borrow }
    ensures keeps { Keeps store.old store.new }
    ensures taken { IfOk result (λ r. IsTaken store.old store.new left right borrow r.0 r.1) }
{
    let inputs = [left, right, borrow];
    let difference = store.truth(&SUM, &inputs)?;
    let next = store.truth(&BORROW, &inputs)?;
    Ok((difference, next))
}

/// The sum, modulo two to the length.
fn plus(alloc: Global, store: &mut Store, left: &[SetId], right: &[SetId]) -> Result<Digits, Memory>
    requires left { All (IsKnown store.old) left.now }
    requires right { All (IsKnown store.old) right.now }
    requires same { length left.now ≡ length right.now }
    requires few { length left.now ≤ 8 }
    ensures keeps { Keeps store.old store.new }
    ensures sum { IfOk result (λ word. IsWord store.new (length left.now) word
        (λ x. (number_at store.old left.now x + number_at store.old right.now x) % 2 ^ length left.now)) }
{
    let mut sum = Digits::new(alloc);
    let mut carry = store.empty();
    for k in 0..left.len() {
        let (digit, next) = add_digits(store, left[k], right[k], carry)?;
        sum.push(digit);
        carry = next;
    }
    Ok(sum)
}

/// The difference, modulo two to the length, and its last borrow: whether the first word is less.
fn subtract(
    alloc: Global,
    store: &mut Store,
    left: &[SetId],
    right: &[SetId],
) -> Result<(Digits, SetId), Memory>
    requires left { All (IsKnown store.old) left.now }
    requires right { All (IsKnown store.old) right.now }
    requires same { length left.now ≡ length right.now }
    requires few { length left.now ≤ 8 }
    ensures keeps { Keeps store.old store.new }
    ensures difference { IfOk result (λ r. IsDifference store.old store.new left.now right.now r.0 r.1) }
{
    let mut difference = Digits::new(alloc);
    let mut borrow = store.empty();
    for k in 0..left.len() {
        let (digit, next) = take_digits(store, left[k], right[k], borrow)?;
        difference.push(digit);
        borrow = next;
    }
    Ok((difference, borrow))
}

/// The difference, modulo two to the length.
fn minus(
    alloc: Global,
    store: &mut Store,
    left: &[SetId],
    right: &[SetId],
) -> Result<Digits, Memory>
    requires left { All (IsKnown store.old) left.now }
    requires right { All (IsKnown store.old) right.now }
    requires same { length left.now ≡ length right.now }
    requires few { length left.now ≤ 8 }
    ensures keeps { Keeps store.old store.new }
    ensures difference { IfOk result (λ word. IsWord store.new (length left.now) word
        (λ x. (number_at store.old left.now x + (2 ^ length left.now - number_at store.old right.now x)) % 2 ^ length left.now)) }
{
    let (difference, _) = subtract(alloc, store, left, right)?;
    Ok(difference)
}

/// Where the first word is less than the second: the last borrow of their difference.
fn less(alloc: Global, store: &mut Store, left: &[SetId], right: &[SetId]) -> Result<SetId, Memory>
    requires left { All (IsKnown store.old) left.now }
    requires right { All (IsKnown store.old) right.now }
    requires same { length left.now ≡ length right.now }
    requires few { length left.now ≤ 8 }
    ensures keeps { Keeps store.old store.new }
    ensures less { IfOk result (λ r. IsSet store.new r
        (λ x. nat_lt (number_at store.old left.now x) (number_at store.old right.now x))) }
{
    let (_, borrow) = subtract(alloc, store, left, right)?;
    Ok(borrow)
}

/// Where the first word is at most the second.
fn at_most(
    alloc: Global,
    store: &mut Store,
    left: &[SetId],
    right: &[SetId],
) -> Result<SetId, Memory>
    requires left { All (IsKnown store.old) left.now }
    requires right { All (IsKnown store.old) right.now }
    requires same { length left.now ≡ length right.now }
    requires few { length left.now ≤ 8 }
    ensures keeps { Keeps store.old store.new }
    ensures at_most { IfOk result (λ r. IsSet store.new r
        (λ x. nat_le (number_at store.old left.now x) (number_at store.old right.now x))) }
{
    let greater = less(alloc, store, right, left)?;
    store.not(greater)
}

/// Where two words differ.
pub(crate) fn differ(store: &mut Store, left: &[SetId], right: &[SetId]) -> Result<SetId, Memory>
    requires left { All (IsKnown store.old) left.now }
    requires right { All (IsKnown store.old) right.now }
    requires same { length left.now ≡ length right.now }
    requires few { length left.now ≤ 8 }
    ensures keeps { Keeps store.old store.new }
    ensures differ { IfOk result (λ r. IsSet store.new r
        (λ x. not (number_at store.old left.now x == number_at store.old right.now x))) }
{
    let mut apart = store.empty();
    for k in 0..left.len() {
        apart = store.truth(&APART, &[left[k], right[k], apart])?;
    }
    Ok(apart)
}

/// Where two words are equal.
pub(crate) fn equal(store: &mut Store, left: &[SetId], right: &[SetId]) -> Result<SetId, Memory>
    requires left { All (IsKnown store.old) left.now }
    requires right { All (IsKnown store.old) right.now }
    requires same { length left.now ≡ length right.now }
    requires few { length left.now ≤ 8 }
    ensures keeps { Keeps store.old store.new }
    ensures equal { IfOk result (λ r. IsSet store.new r
        (λ x. number_at store.old left.now x == number_at store.old right.now x)) }
{
    let apart = differ(store, left, right)?;
    store.not(apart)
}

/// A table of four rows at each two digits of two words.
fn gates(
    alloc: Global,
    store: &mut Store,
    rows: &[bool; 4],
    left: &[SetId],
    right: &[SetId],
) -> Result<Digits, Memory>
    requires left { All (IsKnown store.old) left.now }
    requires right { All (IsKnown store.old) right.now }
    requires same { length left.now ≡ length right.now }
    requires few { length left.now ≤ 8 }
    ensures keeps { Keeps store.old store.new }
    ensures gates { IfOk result (λ word. HasBits store.new (length left.now) word
        (row_at store.old rows.now left.now right.now)) }
{
    let mut word = Digits::new(alloc);
    for k in 0..left.len() {
        let digit = store.truth(rows, &[left[k], right[k]])?;
        word.push(digit);
    }
    Ok(word)
}

/// Each digit turned.
pub(crate) fn flip(alloc: Global, store: &mut Store, digits: &[SetId]) -> Result<Digits, Memory>
    requires digits { All (IsKnown store.old) digits.now }
    requires few { length digits.now ≤ 8 }
    ensures keeps { Keeps store.old store.new }
    ensures flipped { IfOk result (λ word. IsWord store.new (length digits.now) word
        (λ x. 2 ^ length digits.now - 1 - number_at store.old digits.now x)) }
{
    let mut word = Digits::new(alloc);
    for digit in digits {
        let turned = store.not(*digit)?;
        word.push(turned);
    }
    Ok(word)
}
