//! Rows of digits, counted.

ghost use Rattle.std.specs.Prelude.{◌≡◌, ◌+◌, ◌++◌, [], OnOk};
ghost use Rattle.std.specs.List.{AllByRecursion, AllByRecursion-prop};
ghost use Rattle.occ_derive_search.specs.Rows.{IsDigit, IsDigit-prop, carried, rank};

use crate::DIGITS;
use occ_syntax::Memory;
use std::alloc::Global;

/// Makes the next row of a row, but for a digit behind it: whether one comes there.
fn advance(digits: &mut [u8]) -> bool
    requires { AllByRecursion IsDigit digits.old }
    ensures next { rank (digits.new ++ carried result) ≡ rank digits.old + 1 }
    ensures small { AllByRecursion IsDigit digits.new }
{
    for digit in digits.iter_mut() {
        if *digit < DIGITS - 1 {
            *digit += 1;
            return false;
        }
        *digit = 0;
    }
    true
}

/// A row of digits, the lowest first. All rows come one after the other, the short ones first.
#[derive(Drop)]
pub(crate) struct Counter {
    digits: Vec<u8>,
    ghost small: { AllByRecursion IsDigit digits.items } by { AllByRecursion-prop IsDigit IsDigit-prop digits.items },
}

impl Counter {
    /// The row without digits.
    pub(crate) fn new(alloc: Global) -> Counter
        ensures { result.digits.items ≡ [] }
    {
        Counter {
            digits: Vec::new(alloc),
        }
    }

    /// The digits.
    pub(crate) fn digits(&self) -> &[u8]
        ensures { result.now ≡ self.now.digits.items }
    {
        self.digits.as_slice()
    }

    /// Goes to the next row.
    pub(crate) fn next(&mut self) -> Result<(), Memory>
        ensures { OnOk result (rank self.new.digits.items ≡ rank self.old.digits.items + 1) }
    {
        if advance(self.digits.as_mut_slice()) {
            self.digits.push(0)?;
        }
        Ok(())
    }
}
