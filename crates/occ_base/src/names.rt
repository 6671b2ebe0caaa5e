ghost use Rattle.std.specs.Prelude.{◌≡◌, ℕ, ◌<◌, length, List, OnOk, OnErr, IfOk, slice_get, Some, []};
ghost use Rattle.occ_base.specs.Names.{IsDistinct, IsNaming, place_of, with_text};

use crate::Memory;
use indexmap::IndexSet;
use std::alloc::Global;
use std::marker::Model;

/// A name, known by its place in a name table.
#[derive(Clone, Copy, Debug, PartialEq, Eq, PartialOrd, Ord, Hash)]
pub struct Name(pub usize);

/// A table of names: each text stands in it once, and a name is the text's place, from 0.
#[derive(Drop)]
pub struct Names {
    texts: IndexSet<Vec<u8>>,
    alloc: Global,
}

impl Model for Names {
    ghost use Rattle.std.specs.Prelude.{List, ℕ, map};

    ghost Value = { List (List ℕ) };

    ghost use Rattle.occ_base.specs.Names.{IsDistinct};

    ghost view = { λ names. map (λ text. text.items) names.texts.keys };

    ghost invariant = { λ names. IsDistinct (map (λ text. text.items) names.texts.keys) };
}

impl Names {
    /// A table without names. It takes no memory.
    pub fn new(alloc: Global) -> Names
        ensures { result ≡ [] }
    {
        Names {
            texts: IndexSet::new(alloc),
            alloc,
        }
    }

    /// The name of a text: the number that it has, or a new one where it isn't in the table yet.
    /// Where memory runs out, the table is as before.
    pub fn intern(&mut self, text: &[u8]) -> Result<Name, Memory>
        ensures number { IfOk result (λ name. name.0 ≡ place_of self.old text.now) }
        ensures table { OnOk result (self.new ≡ with_text self.old text.now) }
        ensures err { OnErr result (self.new ≡ self.old) }
    {
        if let Some(place) = self.texts.get_index_of(text) {
            return Ok(Name(place));
        }
        let copy = Vec::from_slice(self.alloc, text)?;
        let (place, _) = self.texts.insert_full(copy)?;
        Ok(Name(place))
    }

    /// The text of a name that the table gave. It takes no memory.
    pub fn text(&self, name: Name) -> &[u8]
        requires { name.0 < length self.now }
        ensures text { slice_get self.now name.0 ≡ Some result.now }
        ensures distinct { IsDistinct self.now }
    {
        match self.texts.get_index(name.0) {
            Some(text) => text.as_slice(),
            None => unreachable!(),
        }
    }
}

/// One text has one name, and one name one text, whatever is interned in between.
pub fn one_text_one_name()
    ensures { (texts : List (List ℕ)) (text : List ℕ) → IsNaming texts text }
{}
