//! The names of the elements of arrays.

ghost use Rattle.std.specs.Prelude.{◌≡◌, ◌≤◌, length, OnOk};
ghost use Rattle.occ_parse_part.specs.Elements.{named_row, names_found, no_elements, with_row};
ghost use Rattle.occ_parse_part.specs.Seen.{seen};

use indexmap::IndexMap;
use occ_parse_forms::Declared;
use occ_syntax::{Memory, Name};
use std::alloc::Global;

/// The names of the elements of arrays, to be looked up by array and place, and by name.
#[derive(Drop)]
pub struct Elements {
    rows: IndexMap<Name, Vec<Name>>,
    places: IndexMap<Name, Declared>,
}

/// Notes that the names of a row are the elements of an array, from the first on.
fn note_row(places: &mut IndexMap<Name, Declared>, array: Name, row: &[Name]) -> Result<(), Memory>
    requires { length row.now ≤ 256 }
    ensures { OnOk result (names_found places.new.entries ≡ named_row array 0 row.now (names_found places.old.entries)) }
{
    for (k, name) in row.iter().enumerate() {
        places.insert(*name, Declared::Element(array, k as u8))?;
    }
    Ok(())
}

impl Elements {
    /// No elements. It takes no memory.
    pub fn new(alloc: Global) -> Elements
        ensures { seen result ≡ no_elements }
    {
        Elements {
            rows: IndexMap::new(alloc),
            places: IndexMap::new(alloc),
        }
    }

    /// Adds the elements of an array, from the first on.
    pub fn add(&mut self, array: Name, row: Vec<Name>) -> Result<(), Memory>
        requires { length row.items ≤ 256 }
        ensures { OnOk result (seen self.new ≡ with_row (seen self.old) array row.items) }
    {
        note_row(&mut self.places, array, row.as_slice())?;
        self.rows.insert(array, row)?;
        Ok(())
    }

    /// The name of the element of an array at a place, and 0 where it isn't there. It takes no memory.
    pub fn number(&self, array: Name, k: u16) -> Name
        ensures { result.0 ≡ (seen self.now).number array.0 k }
    {
        match self.rows.get(&array) {
            Some(row) => match row.get(k as usize) {
                Some(name) => *name,
                None => Name(0),
            },
            None => Name(0),
        }
    }

    /// What a name is: an element, or else a name by itself. It takes no memory.
    pub fn declared(&self, name: Name) -> Declared
        ensures { result ≡ (seen self.now).named name.0 }
    {
        match self.places.get(&name) {
            Some(declared) => *declared,
            None => Declared::Plain(name),
        }
    }
}
