//! Whether a part names, writes and uses no more than another one.

ghost use Rattle.std.specs.Prelude.{◌≡◌, ℕ, IfOk, IsTrue, true};
ghost use Rattle.occ_syntax.specs.occ_base.declared.event.Dir.{Dir};
ghost use Rattle.occ_syntax.specs.Names.{free as is_free, uses_end, written as is_written};
ghost use Rattle.occ_syntax.specs.View.{tree};
ghost use Rattle.occ_usage.specs.Local.{UsesNoMore};

use crate::sets::{end_set, has_ends, has_names, name_set};
use occ_names::{ends, free, written};
use occ_syntax::{Memory, Proc};
use std::alloc::Global;

/// Whether each free name of a part is free in another one.
fn names_no_more(alloc: Global, part: &Proc, other: &Proc) -> Result<bool, Memory>
    ensures { IfOk result (λ none. IsTrue none → (x : ℕ) → is_free (tree part.now) x ≡ true → is_free (tree other.now) x ≡ true) }
{
    let names = free(alloc, part)?;
    let others = free(alloc, other)?;
    let set = name_set(alloc, others.as_slice())?;
    Ok(has_names(&set, names.as_slice()))
}

/// Whether each variable that a part writes is written in another one.
fn writes_no_more(alloc: Global, part: &Proc, other: &Proc) -> Result<bool, Memory>
    ensures { IfOk result (λ none. IsTrue none → (x : ℕ) → is_written (tree part.now) x ≡ true → is_written (tree other.now) x ≡ true) }
{
    let names = written(alloc, part)?;
    let others = written(alloc, other)?;
    let set = name_set(alloc, others.as_slice())?;
    Ok(has_names(&set, names.as_slice()))
}

/// Whether each channel end that a part uses is used in another one.
fn ends_no_more(alloc: Global, part: &Proc, other: &Proc) -> Result<bool, Memory>
    ensures { IfOk result (λ none. IsTrue none → (c : ℕ) (d : Dir) → uses_end (tree part.now) c d ≡ true
        → uses_end (tree other.now) c d ≡ true) }
{
    let used = ends(alloc, part)?;
    let others = ends(alloc, other)?;
    let set = end_set(alloc, others.as_slice())?;
    Ok(has_ends(&set, used.as_slice()))
}

/// Whether a part names, writes and uses no more than another one. It costs the size of the two.
pub fn uses_no_more(alloc: Global, part: &Proc, other: &Proc) -> Result<bool, Memory>
    ensures { IfOk result (λ none. IsTrue none → UsesNoMore (tree part.now) (tree other.now)) }
{
    if !names_no_more(alloc, part, other)? {
        return Ok(false);
    }
    if !writes_no_more(alloc, part, other)? {
        return Ok(false);
    }
    ends_no_more(alloc, part, other)
}
