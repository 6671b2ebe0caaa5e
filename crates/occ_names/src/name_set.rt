ghost use Rattle.std.specs.Prelude.{◌≡◌, ◌==◌, [], OnOk, OnErr, length, take, position};
ghost use Rattle.occ_syntax.specs.Names.{is_in};
ghost use Rattle.occ_syntax.specs.View.{numbers};
ghost use Rattle.occ_names.specs.Once.{same_number, with_one, with_all};
ghost use Rattle.occ_names.specs.Mentions.{number_in};

use indexmap::IndexSet;
use occ_syntax::{Memory, Name};
use std::alloc::Global;
use std::marker::Model;

/// A set of names. It keeps them in the order in which they came.
#[derive(Drop)]
pub struct NameSet {
    names: IndexSet<Name>,
}

impl Model for NameSet {
    ghost use Rattle.std.specs.Prelude.{List, ℕ};
    ghost use Rattle.occ_syntax.specs.View.{numbers};

    ghost Value = { List ℕ };

    ghost view = { λ set. numbers set.names.keys };
}

impl NameSet {
    /// The set without names. It takes no memory.
    pub fn new(alloc: Global) -> NameSet
        ensures { result ≡ [] }
    {
        NameSet {
            names: IndexSet::new(alloc),
        }
    }

    /// Puts a name last, if it isn't in the set yet. Where memory runs out, the set is as before.
    pub fn insert(&mut self, name: Name) -> Result<(), Memory>
        ensures ok { OnOk result (self.new ≡ with_one same_number self.old name.0) }
        ensures err { OnErr result (self.new ≡ self.old) }
    {
        self.names.insert(name)?;
        Ok(())
    }

    /// Puts a name last, if there is one and it isn't in the set yet. Where memory runs out, the set is as before.
    pub fn insert_any(&mut self, name: Option<Name>) -> Result<(), Memory>
        ensures ok { OnOk result (self.new ≡ with_all same_number self.old (number_in name)) }
        ensures err { OnErr result (self.new ≡ self.old) }
    {
        match name {
            Some(name) => self.insert(name),
            None => Ok(()),
        }
    }

    /// Whether a name is in the set. It takes no memory.
    pub fn contains(&self, name: Name) -> bool
        ensures { result ≡ is_in self.now name.0 }
    {
        self.names.contains(&name)
    }

    /// The place of a name in the order, from 0; None where it isn't in the set. It takes no memory.
    pub fn place(&self, name: Name) -> Option<usize>
        ensures { result ≡ position (λ x. name.0 == x) self.now }
    {
        self.names.get_index_of(&name)
    }

    /// How many names there are. It takes no memory.
    pub fn len(&self) -> usize
        ensures { result ≡ length self.now }
    {
        self.names.len()
    }

    /// Keeps so many names, those that came first.
    pub fn truncate(&mut self, len: usize)
        ensures { self.new ≡ take len self.old }
    {
        self.names.truncate(len);
    }

    /// The names in order. It takes no memory.
    pub fn names(&self) -> &[Name]
        ensures { numbers result.now ≡ self.now }
    {
        self.names.as_slice()
    }
}
