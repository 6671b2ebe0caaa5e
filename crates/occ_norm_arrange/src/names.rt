ghost use Rattle.std.specs.Prelude.{◌≡◌, OnOk};
ghost use Rattle.std.specs.List.{list_any};
ghost use Rattle.occ_syntax.specs.Names.{is_in};
ghost use Rattle.occ_syntax.specs.View.{numbers};
ghost use Rattle.occ_norm_arrange.specs.Notes.{Notes};

use occ_names::NameSet;
use occ_syntax::{Memory, Name};

/// Whether some names have one in common with a set.
pub fn has_any(names: &[Name], set: &NameSet) -> bool
    ensures { result ≡ list_any (λ name. is_in set.now name.0) names.now }
{
    names.iter().any(|name| set.contains(*name))
}

/// Adds names to a set.
pub fn note_all(set: &mut NameSet, names: &[Name]) -> Result<(), Memory>
    ensures { OnOk result (Notes set.old (λ x. is_in (numbers names.now) x) set.new) }
{
    for name in names {
        set.insert(*name)?;
    }
    Ok(())
}
