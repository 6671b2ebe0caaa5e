//! Where the numbers of the elements of arrays come from.

ghost use Rattle.std.specs.Prelude.{◌≡◌, ◌<◌, ℕ, List, length, OnOk, IfOk};
ghost use Rattle.occ_parse_forms.specs.occ_lex.Symbols.{Extends};
ghost use Rattle.occ_parse_unroll.specs.Elements.{with_element};
ghost use Rattle.occ_parse_unroll.specs.Numbers.{element_number};

use crate::naming::element;
use occ_syntax::{Memory, Name, Names};
use std::alloc::Global;

/// A source of the numbers of the elements of arrays. It may bring texts into a table of names, and never takes one out.
pub trait Numbering {
    /// Whether the arrays have to be in the table.
    ghost asks: { Self → Type 0 };

    /// The number of an array's element, in each table that goes on from the one behind the question.
    ghost number: { Self → List (List ℕ) → ℕ → ℕ → ℕ };

    /// The table behind the question.
    ghost brings: { Self → List (List ℕ) → ℕ → ℕ → List (List ℕ) };

    /// Where memory comes from.
    fn alloc(&self) -> Global;

    /// The number of an array's element.
    fn element(&self, names: &mut Names, array: Name, k: u16) -> Result<Name, Memory>
        requires { asks self.now → array.0 < length names.old }
        ensures number { IfOk result (λ name. (t : List (List ℕ)) → Extends names.new t → name.0 ≡ number self.now t array.0 k) }
        ensures table { OnOk result (names.new ≡ brings self.now names.old array.0 k) }
        ensures extends { Extends names.old names.new };
}

/// The elements of a program: the text of each is in the table of names from then on, and its number is that of its text.
#[derive(Drop)]
pub struct InTable {
    /// Where memory comes from.
    pub alloc: Global,
}

impl Numbering for InTable {
    ghost asks = { λ source. Unit {0} };

    ghost number = { λ source. element_number };

    ghost brings = { λ source. with_element };

    fn alloc(&self) -> Global {
        self.alloc
    }

    fn element(&self, names: &mut Names, array: Name, k: u16) -> Result<Name, Memory> {
        element(self.alloc, names, array, k)
    }
}
