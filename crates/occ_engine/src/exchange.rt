//! A part put into a program, where it may be.

ghost use Rattle.std.specs.Prelude.{◌≡◌, IfOk, IsSome};
ghost use Rattle.occ_engine.specs.Exchanged.{IsExchange};
ghost use Rattle.occ_script_write.specs.occ_meaning.Context.{part_at};
ghost use Rattle.occ_script_write.specs.occ_script_lines.Places.{scope_list};
ghost use Rattle.occ_syntax.specs.View.{tree};
ghost use Rattle.occ_law_any.specs.occ_usage.Accepted.{KeepsRules};

use occ_law_any::keeps_exchanged;
use occ_script_write::{Path, line_tokens, replace};
use occ_syntax::{Memory, Proc, Program, Scope};
use std::alloc::Global;

/// The most tokens that a line of a text may have.
const MOST_TOKENS: u64 = 4_096;

/// A program with a part put in, the part that stood there, and a copy of the new one.
#[derive(Drop)]
pub(crate) struct Exchange {
    pub(crate) whole: Program,
    pub(crate) old: Proc,
    pub(crate) new: Proc,
}

/// The program with a part put in at a path, in the scope there. None where it may not be put in: a line of it would be too long, or
/// the whole would break a rule.
pub(crate) fn exchanged(
    alloc: Global,
    program: Program,
    scope: &Scope,
    path: &Path,
    part: Proc,
) -> Result<Option<Exchange>, Memory>
    requires rules { KeepsRules program }
    requires there { IsSome (part_at path.now (tree program.body)) }
    requires scope { scope.now ≡ scope_list path.now program.params (tree program.body) }
    ensures { IfOk result (IsExchange program path.now (tree part)) }
{
    if line_tokens(&part) > MOST_TOKENS {
        return Ok(None);
    }
    let new = part.copy(alloc)?;
    let (whole, old) = replace(alloc, program, path, part)?;
    if keeps_exchanged(alloc, scope, &old, &new, &whole)? {
        Ok(Some(Exchange { whole, old, new }))
    } else {
        Ok(None)
    }
}
