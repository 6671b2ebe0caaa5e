ghost use Rattle.std.specs.Prelude.{◌≡◌, ℕ, ◌==◌, ◌||◌, ◌&&◌, OnOk};
ghost use Rattle.occ_syntax.specs.occ_base.declared.event.Dir.{Dir};
ghost use Rattle.occ_syntax.specs.Names.{is_in};
ghost use Rattle.occ_syntax.specs.View.{numbers};
ghost use Rattle.occ_names.specs.Once.{has};
ghost use Rattle.occ_names.specs.Mentions.{end_number, end_numbers, same_end};

use occ_names::{EndSet, NameSet};
use occ_syntax::{Dir, Memory, Name};

/// Puts the names of a list into a set.
pub fn add_names(set: &mut NameSet, names: &[Name]) -> Result<(), Memory>
    ensures { OnOk result ((x : ℕ) → is_in set.new x ≡ (is_in set.old x || is_in (numbers names.now) x)) }
{
    for name in names {
        set.insert(*name)?;
    }
    Ok(())
}

/// Puts the names of a list that another set has into a set.
pub fn share_names(set: &mut NameSet, names: &[Name], others: &NameSet) -> Result<(), Memory>
    ensures { OnOk result ((x : ℕ) → is_in set.new x ≡ (is_in set.old x || (is_in (numbers names.now) x && is_in others.now x))) }
{
    for name in names {
        share_name(set, *name, others)?;
    }
    Ok(())
}

fn share_name(set: &mut NameSet, name: Name, others: &NameSet) -> Result<(), Memory>
    ensures { OnOk result ((x : ℕ) → is_in set.new x ≡ (is_in set.old x || ((x == name.0) && is_in others.now x))) }
{
    if others.contains(name) {
        return set.insert(name);
    }
    Ok(())
}

/// Puts the ends of a list into a set.
pub fn add_ends(set: &mut EndSet, ends: &[(Name, Dir)]) -> Result<(), Memory>
    ensures { OnOk result ((c : ℕ) (d : Dir) → has same_end set.new (c, d) ≡ (has same_end set.old (c, d) || has same_end (end_numbers ends.now) (c, d))) }
{
    for end in ends {
        set.insert(*end)?;
    }
    Ok(())
}

/// Puts the ends of a list that another set has into a set.
pub fn share_ends(set: &mut EndSet, ends: &[(Name, Dir)], others: &EndSet) -> Result<(), Memory>
    ensures { OnOk result ((c : ℕ) (d : Dir) → has same_end set.new (c, d) ≡ (has same_end set.old (c, d) || (has same_end (end_numbers ends.now) (c, d) && has same_end others.now (c, d)))) }
{
    for end in ends {
        share_end(set, *end, others)?;
    }
    Ok(())
}

fn share_end(set: &mut EndSet, end: (Name, Dir), others: &EndSet) -> Result<(), Memory>
    ensures { OnOk result ((c : ℕ) (d : Dir) → has same_end set.new (c, d) ≡ (has same_end set.old (c, d) || (same_end (c, d) (end_number end) && has same_end others.now (c, d)))) }
{
    if others.contains(end) {
        return set.insert(end);
    }
    Ok(())
}
