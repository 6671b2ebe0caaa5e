ghost use Rattle.std.specs.Prelude.{◌≡◌, ◌+◌, ◌/◌, ◌%◌, ◌^◌, ◌<◌, ◌≤◌, [], ◌∷◌, ◌++◌, length, IfOk, IsSome};
ghost use Rattle.occ_dd.specs.Store.{IsKnown, Keeps};
ghost use Rattle.occ_syntax.specs.Eval.{bits_in};
ghost use Rattle.occ_syntax.specs.Scopes.{variable_width};
ghost use Rattle.occ_bits.specs.Layout.{IsLayout, environment_in, state_of};
ghost use Rattle.occ_bits.specs.Words.{IsWord};

use crate::layout::find;
use occ_dd::{Memory, Name, SetId, Store, Width};
use smallvec::SmallVec;
use std::alloc::Global;
use std::marker::Model;

/// The digits of a word while it is made, the lowest first: at most 8, which stand in the value itself.
#[derive(Drop)]
pub(crate) struct Digits {
    sets: SmallVec<SetId, 8>,
}

impl Model for Digits {
    ghost use Rattle.std.specs.Prelude.{List, ◌≡◌, ◌≤◌, length};
    ghost use Rattle.occ_dd.specs.declared.set.SetId.{SetId};

    ghost Value = { List SetId };

    ghost view = { λ digits. digits.sets.items };

    ghost invariant = { λ digits. (digits.sets.capacity ≡ 8) × (length digits.sets.items ≤ 8) };
}

impl Digits {
    /// No digits yet.
    pub(crate) fn new(alloc: Global) -> Digits
        ensures { result ≡ [] }
    {
        Digits {
            sets: SmallVec::new(alloc),
        }
    }

    /// Adds the next digit.
    pub(crate) fn push(&mut self, digit: SetId)
        requires { length self.old < 8 }
        ensures { self.new ≡ self.old ++ digit ∷ [] }
    {
        self.sets.push_reserved(digit);
    }

    /// The digits so far.
    pub(crate) fn sets(&self) -> &[SetId]
        ensures sets { result.now ≡ self.now }
        ensures few { length self.now ≤ 8 }
    {
        self.sets.as_slice()
    }
}

/// The binary digits of a value that depends on the assignment, from 1 to 8: for each digit, the lowest first, the set
/// of the assignments in which it is 1.
#[derive(Drop)]
pub struct WordBits {
    digits: Digits,
}

impl Model for WordBits {
    ghost use Rattle.std.specs.Prelude.{List, ◌≤◌, length};
    ghost use Rattle.occ_dd.specs.declared.set.SetId.{SetId};

    ghost Value = { List SetId };

    ghost view = { λ word. word.digits };

    ghost invariant = { λ word. (1 ≤ length word.digits) × (length word.digits ≤ 8) };
}

impl WordBits {
    pub(crate) fn new(digits: Digits) -> WordBits
        requires least { 1 ≤ length digits }
        requires most { length digits ≤ 8 }
        ensures { result ≡ digits }
    {
        WordBits { digits }
    }

    /// The sets of the digits, the lowest first. It takes no memory.
    pub fn bits(&self) -> &[SetId]
        ensures bits { result.now ≡ self.now }
        ensures least { 1 ≤ length self.now }
        ensures most { length self.now ≤ 8 }
    {
        self.digits.sets()
    }
}

/// A word of one digit.
pub(crate) fn single(alloc: Global, digit: SetId) -> Digits
    ensures { result ≡ digit ∷ [] }
{
    let mut word = Digits::new(alloc);
    word.push(digit);
    word
}

/// A numeral: each digit is 1 everywhere or nowhere.
pub(crate) fn numeral(alloc: Global, store: &Store, bits: u8, value: u8) -> Digits
    requires bits { bits ≤ 8 }
    requires value { value < 2 ^ bits }
    ensures { IsWord store.now bits result (λ x. value) }
{
    let mut word = Digits::new(alloc);
    for k in 0..bits {
        let digit = if (value >> k) & 1 == 1 {
            store.full()
        } else {
            store.empty()
        };
        word.push(digit);
    }
    word
}

/// The value of a variable: its bits.
pub(crate) fn variable(
    alloc: Global,
    store: &mut Store,
    entries: &[(Name, Width, u32)],
    name: Name,
) -> Result<Digits, Memory>
    requires laid { IsLayout entries.now }
    requires known { IsSome (variable_width (environment_in entries.now) name.0) }
    ensures keeps { Keeps store.old store.new }
    ensures word { IfOk result (λ word. IsWord store.new (bits_in (variable_width (environment_in entries.now) name.0))
        word (λ x. state_of entries.now x name.0)) }
{
    match find(entries, name) {
        Some((width, first)) => bits_from(alloc, store, first, width.bits()),
        None => unreachable!(),
    }
}

/// Some bits in a row as a word.
fn bits_from(alloc: Global, store: &mut Store, first: u32, count: u8) -> Result<Digits, Memory>
    requires within { first + count ≤ 64 }
    requires few { count ≤ 8 }
    ensures keeps { Keeps store.old store.new }
    ensures word { IfOk result (λ word. IsWord store.new count word (λ x. x / 2 ^ first % 2 ^ count)) }
{
    let mut word = Digits::new(alloc);
    for k in 0..u32::from(count) {
        let digit = store.bit(first + k)?;
        word.push(digit);
    }
    Ok(word)
}
