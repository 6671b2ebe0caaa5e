//! Whether the names or ends of one list are all in a set.

ghost use Rattle.std.specs.Prelude.{◌≡◌, ℕ, IfOk, IsTrue, true};
ghost use Rattle.occ_syntax.specs.occ_base.declared.event.Dir.{Dir};
ghost use Rattle.occ_names.specs.Mentions.{end_numbers, same_end};
ghost use Rattle.occ_names.specs.Once.{has};
ghost use Rattle.occ_syntax.specs.Names.{is_in};
ghost use Rattle.occ_syntax.specs.View.{numbers};

use occ_names::{EndSet, NameSet};
use occ_syntax::{Dir, Memory, Name};
use std::alloc::Global;

/// The set of the names of a list.
pub fn name_set(alloc: Global, names: &[Name]) -> Result<NameSet, Memory>
    ensures { IfOk result (λ set. (x : ℕ) → is_in set x ≡ is_in (numbers names.now) x) }
{
    let mut set = NameSet::new(alloc);
    for name in names {
        set.insert(*name)?;
    }
    Ok(set)
}

/// The set of the ends of a list.
pub fn end_set(alloc: Global, ends: &[(Name, Dir)]) -> Result<EndSet, Memory>
    ensures { IfOk result (λ set. (e : ℕ × Dir) → has same_end set e ≡ has same_end (end_numbers ends.now) e) }
{
    let mut set = EndSet::new(alloc);
    for end in ends {
        set.insert(*end)?;
    }
    Ok(set)
}

/// Whether all names of a list are in a set. It takes no memory.
pub fn has_names(set: &NameSet, names: &[Name]) -> bool
    ensures { IsTrue result → (x : ℕ) → is_in (numbers names.now) x ≡ true → is_in set.now x ≡ true }
{
    for name in names {
        if !set.contains(*name) {
            return false;
        }
    }
    true
}

/// Whether all ends of a list are in a set. It takes no memory.
pub fn has_ends(set: &EndSet, ends: &[(Name, Dir)]) -> bool
    ensures { IsTrue result → (e : ℕ × Dir) → has same_end (end_numbers ends.now) e ≡ true → has same_end set.now e ≡ true }
{
    for end in ends {
        if !set.contains(*end) {
            return false;
        }
    }
    true
}
