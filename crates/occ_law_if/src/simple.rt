ghost use Rattle.std.specs.Prelude.{◌≡◌, ◌↔◌, IfOk, IsTrue, true};
ghost use Rattle.occ_syntax.specs.Scopes.{environment};
ghost use Rattle.occ_syntax.specs.Tree.{and_case, no_case, stop, truth};
ghost use Rattle.occ_syntax.specs.Types.{scope_kept, types_kept};
ghost use Rattle.occ_syntax.specs.View.{cases, tree};
ghost use Rattle.occ_law_shape.specs.occ_law.Choice.{IfCopy, IfCut, IfElseStop, IfNone, IfTrue};
ghost use Rattle.occ_law_shape.specs.Answer.{IsAnswer};

use crate::choices::{are_copies, behind, divided};
use occ_law_shape::{Store, is_always, is_exhaustive, is_stop, is_truth, law_case, shape};
use occ_syntax::{Expr, Memory, Proc, Scope, same_proc};
use std::alloc::Global;

/// IF() = STOP
pub(crate) fn if_none(left: &Proc, right: &Proc) -> Result<bool, Memory>
    ensures { IfOk result (IsAnswer IfNone (tree left.now) (tree right.now)) }
{
    law_case!(left, If(choices); right, Stop => Ok(choices.is_empty()))
}

/// IF(b P, ds) = P, where b is TRUE in every state
pub(crate) fn if_true(
    alloc: Global,
    store: &mut Store,
    scope: &Scope,
    left: &Proc,
    right: &Proc,
) -> Result<bool, Memory>
    requires scope { scope_kept scope.now ≡ true }
    requires left { types_kept (tree left.now) (environment scope.now) ≡ true }
    ensures { IfOk result (IsAnswer (IfTrue scope.now) (tree left.now) (tree right.now)) }
{
    shape!(left, If(choices) => match divided(choices) {
        Some(first) => {
            if !same_proc(first.process, right) {
                return Ok(false);
            }
            is_always(alloc, store, scope, first.condition)
        }
        None => Ok(false),
    })
}

/// IF(cs, TRUE STOP) = IF(cs)
pub(crate) fn if_else_stop(left: &Proc, right: &Proc) -> Result<bool, Memory>
    ensures { IfOk result (IsAnswer IfElseStop (tree left.now) (tree right.now)) }
{
    law_case!(left, If(choices); right, If(others) => match behind(others, choices) {
        Some(rest) => Ok(is_else_stop(rest)),
        None => Ok(false),
    })
}

/// Whether the one choice of a list is TRUE STOP.
fn is_else_stop(choices: &[(Expr, Proc)]) -> bool
    ensures { IsTrue result ↔ (cases choices.now ≡ and_case (truth true) stop no_case) }
{
    match divided(choices) {
        Some(first) => {
            if !first.behind.is_empty() {
                return false;
            }
            if !is_truth(first.condition) {
                return false;
            }
            is_stop(first.process)
        }
        None => false,
    }
}

/// IF(cs, ds) = IF(cs), where in every state some condition of cs is TRUE. No other place than the whole right side serves.
pub(crate) fn if_cut(
    alloc: Global,
    store: &mut Store,
    scope: &Scope,
    left: &Proc,
    right: &Proc,
) -> Result<bool, Memory>
    requires scope { scope_kept scope.now ≡ true }
    requires right { types_kept (tree right.now) (environment scope.now) ≡ true }
    ensures { IfOk result (IsAnswer (IfCut scope.now) (tree left.now) (tree right.now)) }
{
    law_case!(left, If(choices); right, If(others) => match behind(others, choices) {
        Some(_) => is_exhaustive(alloc, store, scope, others),
        None => Ok(false),
    })
}

/// P = IF(b1 P, .., bn P), where in every state some condition is TRUE
pub(crate) fn if_copy(
    alloc: Global,
    store: &mut Store,
    scope: &Scope,
    left: &Proc,
    right: &Proc,
) -> Result<bool, Memory>
    requires scope { scope_kept scope.now ≡ true }
    requires right { types_kept (tree right.now) (environment scope.now) ≡ true }
    ensures { IfOk result (IsAnswer (IfCopy scope.now) (tree left.now) (tree right.now)) }
{
    shape!(right, If(choices) => {
        if !are_copies(choices, left) {
            return Ok(false);
        }
        is_exhaustive(alloc, store, scope, choices)
    })
}
