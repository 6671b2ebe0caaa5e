ghost use Rattle.std.specs.Prelude.{◌≡◌, ◌≤◌, ◌+◌, ◌∷◌, [], drop, min, OnOk};
ghost use Rattle.occ_parse_rules.specs.Places.{index_at};
ghost use Rattle.occ_parse_unroll.specs.Present.{present, values_of};

use occ_parse_forms::{Index, Times};
use occ_syntax::{Memory, Name};
use std::alloc::Global;
use std::marker::Model;

/// A replicator's index in one of its copies, the one of that number from 0 on: its value is the base and the number
/// together.
#[derive(Clone, Copy, Debug, PartialEq, Eq)]
pub struct Present {
    pub index: Name,
    pub base: u8,
    pub copy: u8,
}

impl Present {
    fn value(self) -> u16
        ensures value { result ≡ self.base + self.copy }
        ensures few { result ≤ 510 }
    {
        u16::from(self.base) + u16::from(self.copy)
    }
}

/// The values of the indices of the replicators round a copy, seen as a list with the innermost first.
#[derive(Debug, Drop)]
pub struct Values {
    list: Vec<Present>,
}

impl Model for Values {
    ghost use Rattle.std.specs.Prelude.{List};
    ghost use Rattle.std.proofs.Common.{reverse};
    ghost use Rattle.occ_parse_unroll.specs.declared.values.Present.{Present};

    ghost Value = { List Present };

    ghost view = { λ values. reverse values.list.items };
}

#[tactic(auto, using(occ_parse_scopes::proofs::Newest::newest_first, occ_parse_scopes::proofs::Newest::newest_left))]
impl Values {
    /// No values. It takes no memory.
    pub fn new(alloc: Global) -> Values
        ensures { result ≡ [] }
    {
        Values {
            list: Vec::new(alloc),
        }
    }

    /// Goes into the copy of that number.
    pub fn enter(&mut self, times: Times, copy: u8) -> Result<(), Memory>
        ensures { OnOk result (self.new ≡ present times copy ∷ self.old) }
    {
        self.list.push(Present {
            index: times.index,
            base: times.base,
            copy,
        })?;
        Ok(())
    }

    /// Goes out of the innermost copy. It takes no memory.
    pub fn leave(&mut self)
        ensures { self.new ≡ drop 1 self.old }
    {
        let _innermost = self.list.pop();
    }

    /// The value of an index, and 0 where it has none.
    fn value(&self, name: Name) -> u16
        ensures value { result ≡ values_of self.now name.0 }
        ensures few { result ≤ 510 }
    {
        let mut k = self.list.len();
        while k > 0 {
            k -= 1;
            let p = self.list[k];
            if name == p.index {
                return p.value();
            }
        }
        0
    }

    /// The place that an index gives; None where it is below 0. It takes no memory.
    pub fn at(&self, index: Index) -> Option<u16>
        ensures { result ≡ index_at (values_of self.now) index }
    {
        match index {
            Index::Number(k) => Some(u16::from(k)),
            Index::Name(i) => Some(self.value(i)),
            Index::Plus(i, k) => Some(self.value(i) + u16::from(k)),
            Index::Minus(i, k) => self.value(i).checked_sub(u16::from(k)),
        }
    }

    /// The value of an index that stands as an operand, as a byte.
    pub fn operand(&self, name: Name) -> u8
        ensures { result ≡ min (values_of self.now name.0) 255 }
    {
        self.value(name).min(255) as u8
    }
}
