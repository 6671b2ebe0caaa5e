ghost use Rattle.std.specs.Prelude.{◌≡◌, IfOk, true};
ghost use Rattle.occ_syntax.specs.Scopes.{environment};
ghost use Rattle.occ_syntax.specs.Types.{scope_kept};
ghost use Rattle.occ_syntax.specs.Usage.{Keeps};
ghost use Rattle.occ_syntax.specs.View.{tree};
ghost use Rattle.occ_law_shape.specs.occ_law.Parallel.{ParIf};
ghost use Rattle.occ_law_shape.specs.Answer.{IsAnswer};

use crate::pairs::two_in_par;
use crate::running::Beside;
use occ_law_shape::{Store, are_choice_pieces, choices_of, is_exhaustive};
use occ_syntax::{Memory, Proc, Scope};
use std::alloc::Global;

/// PAR(IF(b1 P1, .., bn Pn), Q) = IF(b1 PAR(P1, Q), .., bn PAR(Pn, Q)), where in every state some condition is TRUE
pub(crate) fn par_if(
    alloc: Global,
    store: &mut Store,
    scope: &Scope,
    left: &Proc,
    right: &Proc,
) -> Result<bool, Memory>
    requires scope { scope_kept scope.now ≡ true }
    requires left { Keeps (environment scope.now) (tree left.now) }
    ensures { IfOk result (IsAnswer (ParIf scope.now) (tree left.now) (tree right.now)) }
{
    let Some((first, second)) = two_in_par(left) else {
        return Ok(false);
    };
    let Some(choices) = choices_of(first) else {
        return Ok(false);
    };
    let Some(others) = choices_of(right) else {
        return Ok(false);
    };
    let are_pieces = are_choice_pieces(alloc, &Beside::Behind(second), choices, others)?;
    if !are_pieces {
        return Ok(false);
    }
    is_exhaustive(alloc, store, scope, choices)
}
