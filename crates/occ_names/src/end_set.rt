ghost use Rattle.std.specs.Prelude.{◌≡◌, [], OnOk, OnErr};
ghost use Rattle.occ_names.specs.Once.{has, with_one, with_all};
ghost use Rattle.occ_names.specs.Mentions.{end_number, end_numbers, end_in, same_end};

use indexmap::IndexSet;
use occ_syntax::{Dir, Memory, Name};
use std::alloc::Global;
use std::marker::Model;

/// A set of channel ends. It keeps them in the order in which they came.
#[derive(Drop)]
pub struct EndSet {
    ends: IndexSet<(Name, Dir)>,
}

impl Model for EndSet {
    ghost use Rattle.std.specs.Prelude.{List, ℕ};
    ghost use Rattle.occ_syntax.specs.occ_base.declared.event.Dir.{Dir};
    ghost use Rattle.occ_names.specs.Mentions.{end_numbers};

    ghost Value = { List (ℕ × Dir) };

    ghost view = { λ set. end_numbers set.ends.keys };
}

impl EndSet {
    /// The set without ends. It takes no memory.
    pub fn new(alloc: Global) -> EndSet
        ensures { result ≡ [] }
    {
        EndSet {
            ends: IndexSet::new(alloc),
        }
    }

    /// Puts an end last, if it isn't in the set yet. Where memory runs out, the set is as before.
    pub fn insert(&mut self, end: (Name, Dir)) -> Result<(), Memory>
        ensures ok { OnOk result (self.new ≡ with_one same_end self.old (end_number end)) }
        ensures err { OnErr result (self.new ≡ self.old) }
    {
        self.ends.insert(end)?;
        Ok(())
    }

    /// Puts an end last, if there is one and it isn't in the set yet. Where memory runs out, the set is as before.
    pub fn insert_any(&mut self, end: Option<(Name, Dir)>) -> Result<(), Memory>
        ensures ok { OnOk result (self.new ≡ with_all same_end self.old (end_in end)) }
        ensures err { OnErr result (self.new ≡ self.old) }
    {
        match end {
            Some(end) => self.insert(end),
            None => Ok(()),
        }
    }

    /// Whether an end is in the set. It takes no memory.
    pub fn contains(&self, end: (Name, Dir)) -> bool
        ensures { result ≡ has same_end self.now (end_number end) }
    {
        self.ends.contains(&end)
    }

    /// The ends in order. It takes no memory.
    pub fn ends(&self) -> &[(Name, Dir)]
        ensures { end_numbers result.now ≡ self.now }
    {
        self.ends.as_slice()
    }
}
