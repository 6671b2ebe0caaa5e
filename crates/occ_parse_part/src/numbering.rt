//! The names of elements as a source of numbers.

ghost use Rattle.occ_parse_part.specs.Seen.{seen};

use crate::elements::Elements;
use occ_parse::Numbering;
use occ_syntax::{Memory, Name, Names};
use std::alloc::Global;

/// Elements that have names: nothing is brought into a table.
#[derive(Drop)]
pub struct Known<'a> {
    /// Where memory comes from.
    pub alloc: Global,
    /// The names of the elements.
    pub elements: &'a Elements,
}

impl Numbering for Known<'_> {
    ghost asks = { λ source. ⊥ };

    ghost number = { λ source texts. (seen source.elements.now).number };

    ghost brings = { λ source texts x k. texts };

    fn alloc(&self) -> Global {
        self.alloc
    }

    fn element(&self, _names: &mut Names, array: Name, k: u16) -> Result<Name, Memory> {
        Ok(self.elements.number(array, k))
    }
}
