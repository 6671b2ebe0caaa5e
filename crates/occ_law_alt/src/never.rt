ghost use Rattle.std.specs.Prelude.{◌≡◌, IfOk, true};
ghost use Rattle.occ_syntax.specs.Scopes.{environment};
ghost use Rattle.occ_syntax.specs.Types.{scope_kept, types_kept};
ghost use Rattle.occ_syntax.specs.View.{tree};
ghost use Rattle.occ_law_shape.specs.occ_law.Choice.{AltFalse};
ghost use Rattle.occ_law_shape.specs.Answer.{IsAnswer};

use crate::lacking::lacking;
use occ_law_shape::{Store, is_never, law_case};
use occ_syntax::{Memory, Proc, Scope};
use std::alloc::Global;

/// ALT(gs, B, hs) = ALT(gs, hs), where the condition of B is FALSE in every state. The error is out of memory.
pub(crate) fn alt_false(
    alloc: Global,
    store: &mut Store,
    scope: &Scope,
    left: &Proc,
    right: &Proc,
) -> Result<bool, Memory>
    requires scope { scope_kept scope.now ≡ true }
    requires left { types_kept (tree left.now) (environment scope.now) ≡ true }
    ensures { IfOk result (IsAnswer (AltFalse scope.now) (tree left.now) (tree right.now)) }
{
    law_case!(left, Alt(alternatives); right, Alt(others) => match lacking(alternatives, others) {
        Some(branch) => is_never(alloc, store, scope, &branch.0.condition),
        None => Ok(false),
    })
}
