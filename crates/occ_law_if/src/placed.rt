ghost use Rattle.std.specs.Prelude.{◌≡◌, ◌↔◌, IfOk, IsTrue, true};
ghost use Rattle.occ_syntax.specs.Scopes.{environment};
ghost use Rattle.occ_syntax.specs.Tree.{and_case, operation, stop};
ghost use Rattle.occ_syntax.specs.declared.expr.Op.TheVariants.{Or};
ghost use Rattle.occ_syntax.specs.Types.{cases_kept, scope_kept, types_kept};
ghost use Rattle.occ_syntax.specs.View.{cases, exp, tree};
ghost use Rattle.occ_law_shape.specs.occ_law.Choice.{IfFalse, IfMerge, IfNest, IfSwap, each_case_under};
ghost use Rattle.occ_law_shape.specs.occ_law.Lists.{all_cases};
ghost use Rattle.occ_law_shape.specs.Answer.{IsAnswer};
ghost use Rattle.occ_law_if.specs.Fronts.{IsBehindUnder, IsLedBy};
ghost use Rattle.occ_law_if.specs.Places.{FalseHere, MergeHere, NestHere, SwapHere, no_false_at_end, no_merge_at_end, no_nest_at_end, no_swap_at_end};

use crate::choices::{Front, divided, is_operation, led};
use crate::places::{ChoicePlace, Here, somewhere};
use occ_law_shape::{Form, Store, exclude_each_other, is_never, is_stop, law_case, opened};
use occ_syntax::{Expr, Memory, Op, Proc, Scope, same_choices, same_expr, same_proc};
use std::alloc::Global;

/// A choice that is never taken, which leaves. Of equal ones in a row any one may leave.
#[derive(Clone, Copy)]
struct Never<'a> {
    scope: &'a Scope,
}

impl ChoicePlace for Never<'_> {
    ghost is_ready = { λ place cs ds. (scope_kept place.scope.now ≡ true)
        × (cases_kept cs (environment place.scope.now) ≡ true) };

    ghost joins = { λ place. FalseHere place.scope.now };

    fn holds(&self, alloc: Global, store: &mut Store, here: &Here<'_>) -> Result<bool, Memory> {
        let Some(first) = divided(here.rest) else {
            return Ok(false);
        };
        if !same_choices(first.behind, here.others) {
            return Ok(false);
        }
        is_never(alloc, store, self.scope, first.condition)
    }

    ghost starts = { λ place front us h. no_false_at_end place.scope.now front us h };
}

/// An IF in a choice, whose choices go into the list.
#[derive(Clone, Copy)]
struct Nested;

impl ChoicePlace for Nested {
    ghost is_ready = { λ _ _ _. Unit {0} };

    ghost joins = { λ _. NestHere };

    fn holds(&self, _alloc: Global, _store: &mut Store, here: &Here<'_>) -> Result<bool, Memory> {
        let Some(first) = divided(here.rest) else {
            return Ok(false);
        };
        match opened(first.process) {
            Form::If(inner) => Ok(is_nested(&first, inner, here.others)),
            _ => Ok(false),
        }
    }

    ghost starts = { λ _ front us h. no_nest_at_end front us h };
}

/// Whether a list has the choices of an IF in a choice, each asking for the choice's condition as well, then that condition
/// with STOP, and then what stands behind the choice.
fn is_nested(first: &Front<'_>, inner: &[(Expr, Proc)], others: &[(Expr, Proc)]) -> bool
    ensures { IsTrue result ↔ (cases others.now ≡ all_cases (each_case_under (exp first.now.condition.now) (cases inner.now))
        (and_case (exp first.now.condition.now) stop (cases first.now.behind.now))) }
{
    let Some(rest) = behind_under(first.condition, inner, others) else {
        return false;
    };
    let Some(last) = divided(rest) else {
        return false;
    };
    if !same_expr(last.condition, first.condition) {
        return false;
    }
    if !is_stop(last.process) {
        return false;
    }
    same_choices(first.behind, last.behind)
}

/// What stands in a list behind the choices of another, each asking for a condition as well; None exactly where it doesn't
/// begin so.
fn behind_under<'a>(
    condition: &Expr,
    inner: &[(Expr, Proc)],
    others: &'a [(Expr, Proc)],
) -> Option<&'a [(Expr, Proc)]>
    ensures { IsBehindUnder (exp condition.now) (cases inner.now) (cases others.now) result }
{
    let mut front = inner;
    let mut rest = others;
    while let [choice, more @ ..] = front {
        let [other, other_more @ ..] = rest else {
            return None;
        };
        if !is_operation(&other.0, Op::And, condition, &choice.0) {
            return None;
        }
        if !same_proc(&choice.1, &other.1) {
            return None;
        }
        front = more;
        rest = other_more;
    }
    Some(rest)
}

/// Two choices that change places.
#[derive(Clone, Copy)]
struct Swapped<'a> {
    scope: &'a Scope,
}

impl ChoicePlace for Swapped<'_> {
    ghost is_ready = { λ place cs ds. (scope_kept place.scope.now ≡ true)
        × (cases_kept cs (environment place.scope.now) ≡ true) };

    ghost joins = { λ place. SwapHere place.scope.now };

    fn holds(&self, alloc: Global, store: &mut Store, here: &Here<'_>) -> Result<bool, Memory> {
        let Some(first) = divided(here.rest) else {
            return Ok(false);
        };
        let Some(second) = divided(first.behind) else {
            return Ok(false);
        };
        if !is_turned(&first, &second, here.others) {
            return Ok(false);
        }
        exclude_each_other(alloc, store, self.scope, first.condition, second.condition)
    }

    ghost starts = { λ place front us h. no_swap_at_end place.scope.now front us h };
}

/// Whether a list has the second choice, then the first one, and then what stands behind the second.
fn is_turned(first: &Front<'_>, second: &Front<'_>, others: &[(Expr, Proc)]) -> bool
    ensures { IsTrue result ↔ (cases others.now ≡ and_case (exp second.now.condition.now) (tree second.now.process.now)
        (and_case (exp first.now.condition.now) (tree first.now.process.now) (cases second.now.behind.now))) }
{
    let Some(rest) = led(others, second.condition, second.process) else {
        return false;
    };
    let Some(behind_both) = led(rest, first.condition, first.process) else {
        return false;
    };
    same_choices(second.behind, behind_both)
}

/// Two choices of one process, which become one.
#[derive(Clone, Copy)]
struct Merged;

impl ChoicePlace for Merged {
    ghost is_ready = { λ _ _ _. Unit {0} };

    ghost joins = { λ _. MergeHere };

    fn holds(&self, _alloc: Global, _store: &mut Store, here: &Here<'_>) -> Result<bool, Memory> {
        let Some(first) = divided(here.rest) else {
            return Ok(false);
        };
        let Some(second) = led_by(first.behind, first.process) else {
            return Ok(false);
        };
        Ok(is_merged(&first, &second, here.others))
    }

    ghost starts = { λ _ front us h. no_merge_at_end front us h };
}

/// The first choice of a list, where it has this process; None exactly where it hasn't.
fn led_by<'a>(choices: &'a [(Expr, Proc)], process: &Proc) -> Option<Front<'a>>
    ensures { IsLedBy (tree process.now) (cases choices.now) result }
{
    let Some(first) = divided(choices) else {
        return None;
    };
    if !same_proc(first.process, process) {
        return None;
    }
    Some(first)
}

/// Whether a list has one choice, of the first one's process under either condition, and then what stands behind the second.
fn is_merged(first: &Front<'_>, second: &Front<'_>, others: &[(Expr, Proc)]) -> bool
    ensures { IsTrue result ↔ (cases others.now
        ≡ and_case (operation Or (exp first.now.condition.now) (exp second.now.condition.now)) (tree first.now.process.now) (cases second.now.behind.now)) }
{
    let Some(joined) = led_by(others, first.process) else {
        return false;
    };
    if !is_operation(joined.condition, Op::Or, first.condition, second.condition) {
        return false;
    }
    same_choices(second.behind, joined.behind)
}

/// IF(cs, b P, ds) = IF(cs, ds), where b is FALSE in every state
pub(crate) fn if_false(
    alloc: Global,
    store: &mut Store,
    scope: &Scope,
    left: &Proc,
    right: &Proc,
) -> Result<bool, Memory>
    requires scope { scope_kept scope.now ≡ true }
    requires left { types_kept (tree left.now) (environment scope.now) ≡ true }
    ensures { IfOk result (IsAnswer (IfFalse scope.now) (tree left.now) (tree right.now)) }
{
    law_case!(left, If(choices); right, If(others) => {
        somewhere(alloc, store, &Never { scope }, choices, others)
    })
}

/// IF(cs, b IF(b1 P1, .., bn Pn), ds) = IF(cs, b AND b1 P1, .., b AND bn Pn, b STOP, ds)
pub(crate) fn if_nest(
    alloc: Global,
    store: &mut Store,
    left: &Proc,
    right: &Proc,
) -> Result<bool, Memory>
    ensures { IfOk result (IsAnswer IfNest (tree left.now) (tree right.now)) }
{
    law_case!(left, If(choices); right, If(others) => {
        somewhere(alloc, store, &Nested, choices, others)
    })
}

/// IF(cs, b P, b' Q, ds) = IF(cs, b' Q, b P, ds), where b and b' are TRUE together in no state
pub(crate) fn if_swap(
    alloc: Global,
    store: &mut Store,
    scope: &Scope,
    left: &Proc,
    right: &Proc,
) -> Result<bool, Memory>
    requires scope { scope_kept scope.now ≡ true }
    requires left { types_kept (tree left.now) (environment scope.now) ≡ true }
    ensures { IfOk result (IsAnswer (IfSwap scope.now) (tree left.now) (tree right.now)) }
{
    law_case!(left, If(choices); right, If(others) => {
        somewhere(alloc, store, &Swapped { scope }, choices, others)
    })
}

/// IF(cs, b P, b' P, ds) = IF(cs, b OR b' P, ds)
pub(crate) fn if_merge(
    alloc: Global,
    store: &mut Store,
    left: &Proc,
    right: &Proc,
) -> Result<bool, Memory>
    ensures { IfOk result (IsAnswer IfMerge (tree left.now) (tree right.now)) }
{
    law_case!(left, If(choices); right, If(others) => {
        somewhere(alloc, store, &Merged, choices, others)
    })
}
