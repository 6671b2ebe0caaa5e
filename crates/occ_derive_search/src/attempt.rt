//! One row of digits, read as steps.

ghost use Rattle.std.specs.Prelude.{IfOk};
ghost use Rattle.occ_derive_search.specs.Attempts.{IsAttempt};
ghost use Rattle.occ_syntax.specs.View.{tree};

use crate::{follow, steps_of};
use occ_engine::{Accepted, Outcome};
use occ_syntax::{Memory, Proc, same_proc};
use std::alloc::Global;

/// The derivation that a row of digits spells, where it leads from an accepted program to that body. None where it spells none.
pub(crate) fn attempt(
    alloc: Global,
    accepted: &Accepted,
    body: &Proc,
    code: &[u8],
) -> Result<Option<Outcome>, Memory>
    ensures { IfOk result (IsAttempt accepted.now.program (tree body.now) code.now) }
{
    let steps = steps_of(alloc, code)?;
    let Some(to) = follow(alloc, accepted, steps.items())? else {
        return Ok(None);
    };
    if same_proc(&to.body, body) {
        Ok(Some(Outcome { steps, to }))
    } else {
        Ok(None)
    }
}
