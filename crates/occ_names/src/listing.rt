ghost use Rattle.std.specs.Prelude.{◌≡◌, ℕ, IfOk, true};
ghost use Rattle.occ_syntax.specs.occ_base.declared.event.Dir.{Dir};
ghost use Rattle.occ_syntax.specs.Names.{is_in, free as is_free, written as is_written, uses_end};
ghost use Rattle.occ_syntax.specs.View.{numbers, tree};
ghost use Rattle.occ_names.specs.Once.{firsts, has, is_distinct, same_number};
ghost use Rattle.occ_names.specs.Mentions.{free_names, written_names, used_ends, same_end, end_numbers};

use crate::collect::mentions;
use crate::{EndSet, NameSet};
use occ_syntax::{Dir, Memory, Name, Proc};
use std::alloc::Global;

/// The names that stand free in a part, of variables and of channels, each once, in the order in which they first stand
/// in its text: variables before values in an assignment, the channel before what passes, a condition before what it
/// guards.
pub fn free(alloc: Global, part: &Proc) -> Result<Vec<Name>, Memory>
    ensures order { IfOk result (λ names. numbers names.items ≡ firsts same_number (free_names (tree part.now))) }
    ensures members { IfOk result (λ names. (x : ℕ) → is_in (numbers names.items) x ≡ is_free (tree part.now) x) }
    ensures once { IfOk result (λ names. is_distinct same_number (numbers names.items) ≡ true) }
{
    let mentions = mentions(alloc, part)?;
    let mut found = NameSet::new(alloc);
    for mention in mentions.items() {
        found.insert_any(mention.used())?;
    }
    Ok(Vec::from_slice(alloc, found.names())?)
}

/// The free variables that a part assigns or inputs, each once, in the order in which it first does so.
pub fn written(alloc: Global, part: &Proc) -> Result<Vec<Name>, Memory>
    ensures order { IfOk result (λ names. numbers names.items ≡ firsts same_number (written_names (tree part.now))) }
    ensures members { IfOk result (λ names. (x : ℕ) → is_in (numbers names.items) x ≡ is_written (tree part.now) x) }
    ensures once { IfOk result (λ names. is_distinct same_number (numbers names.items) ≡ true) }
{
    let mentions = mentions(alloc, part)?;
    let mut found = NameSet::new(alloc);
    for mention in mentions.items() {
        found.insert_any(mention.written())?;
    }
    Ok(Vec::from_slice(alloc, found.names())?)
}

/// The ends of free channels that a part uses, each a channel with a direction, each once, in the order in which it first
/// uses them.
pub fn ends(alloc: Global, part: &Proc) -> Result<Vec<(Name, Dir)>, Memory>
    ensures order { IfOk result (λ ends. end_numbers ends.items ≡ firsts same_end (used_ends (tree part.now))) }
    ensures members { IfOk result (λ ends. (c : ℕ) (d : Dir) → has same_end (end_numbers ends.items) (c, d) ≡ uses_end (tree part.now) c d) }
    ensures once { IfOk result (λ ends. is_distinct same_end (end_numbers ends.items) ≡ true) }
{
    let mentions = mentions(alloc, part)?;
    let mut found = EndSet::new(alloc);
    for mention in mentions.items() {
        found.insert_any(mention.end())?;
    }
    Ok(Vec::from_slice(alloc, found.ends())?)
}
