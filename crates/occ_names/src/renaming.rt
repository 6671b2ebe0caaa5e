ghost use Rattle.std.specs.Prelude.{◌≡◌, IfOk};
ghost use Rattle.occ_syntax.specs.View.{tree};
ghost use Rattle.occ_names.specs.Captures.{captures as captures_in, is_captured, IsRenaming};
ghost use Rattle.occ_names.specs.declared.renaming.RenameFault.TheVariants as fault;

use crate::collect::mentions;
use crate::mention::Mention;
use crate::replace::Replace;
use occ_syntax::{Memory, Name, Proc};
use std::alloc::Global;
use thiserror::Error;

/// Why a name can't be put in the place of another.
#[derive(Clone, Copy, Debug, PartialEq, Eq, Error)]
pub enum RenameFault {
    /// The new name stands in the part already, or the part declares the old one.
    #[error("the name would be captured")]
    Capture,
    /// Want of memory.
    #[error("out of memory")]
    Memory,
}

impl From<Memory> for RenameFault {
    ghost from_gives = { λ _ e. e ≡ fault.Memory };

    fn from(_cause: Memory) -> RenameFault {
        RenameFault::Memory
    }
}

/// The part with a new name wherever an old one stands free. `Capture` comes exactly where the new name stands anywhere in
/// the part, free or declared, or the part declares the old one.
pub fn rename(alloc: Global, part: &Proc, old: Name, new: Name) -> Result<Proc, RenameFault>
    ensures { IsRenaming (tree part.now) old.0 new.0 result }
{
    if captures(alloc, part, old, new)? {
        return Err(RenameFault::Capture);
    }
    let replace = Replace { old, new };
    Ok(replace.part(alloc, part)?)
}

fn captures(alloc: Global, part: &Proc, old: Name, new: Name) -> Result<bool, Memory>
    ensures { IfOk result (λ test. test ≡ captures_in (tree part.now) old.0 new.0) }
{
    let mentions = mentions(alloc, part)?;
    for mention in mentions.items() {
        if is_capture(*mention, old, new) {
            return Ok(true);
        }
    }
    Ok(false)
}

fn is_capture(mention: Mention, old: Name, new: Name) -> bool
    ensures { result ≡ is_captured old.0 new.0 mention }
{
    match mention {
        Mention::Read(name) | Mention::Write(name) | Mention::End(name, _) => name == new,
        Mention::Declare(name) => name == new || name == old,
    }
}
