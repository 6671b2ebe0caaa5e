ghost use Rattle.std.specs.Prelude.{◌≡◌, ◌↔◌, IfOk, IsTrue, true};
ghost use Rattle.occ_syntax.specs.Scopes.{environment};
ghost use Rattle.occ_syntax.specs.Tree.{seq};
ghost use Rattle.occ_syntax.specs.Types.{all_types_kept, cases_kept, scope_kept, types_kept};
ghost use Rattle.occ_syntax.specs.View.{tree, trees};
ghost use Rattle.occ_law_shape.specs.occ_law.Choice.{IfUnder};
ghost use Rattle.occ_law_shape.specs.Answer.{IsAnswer};
ghost use Rattle.occ_law_if.specs.Places.{UnderHere, no_under_at_end};
ghost use Rattle.occ_law_if.specs.Processes.{AssignmentsEqual, ProcessesEqual};

use crate::choices::divided;
use crate::places::{ChoicePlace, Here, somewhere};
use occ_law_shape::{
    Equality, Form, Store, Where, branches_equal, each_equal, law_case, opened, shape,
};
use occ_syntax::{Memory, Proc, Scope, same_choices, same_expr, same_names, same_procs};
use std::alloc::Global;

/// A choice whose process changes in expressions alone, which are equal where the choice is taken.
#[derive(Clone, Copy)]
struct Under<'a> {
    scope: &'a Scope,
}

impl ChoicePlace for Under<'_> {
    ghost is_ready = { λ place cs ds. (scope_kept place.scope.now ≡ true)
        × (cases_kept cs (environment place.scope.now) ≡ true)
        × (cases_kept ds (environment place.scope.now) ≡ true) };

    ghost joins = { λ place. UnderHere place.scope.now };

    fn holds(&self, alloc: Global, store: &mut Store, here: &Here<'_>) -> Result<bool, Memory> {
        let Some(first) = divided(here.rest) else {
            return Ok(false);
        };
        let Some(other) = divided(here.others) else {
            return Ok(false);
        };
        if !same_expr(first.condition, other.condition) {
            return Ok(false);
        }
        if !same_choices(first.behind, other.behind) {
            return Ok(false);
        }
        let taken = Where {
            scope: self.scope,
            condition: first.condition,
            before: here.before,
        };
        processes_equal(alloc, store, &taken, first.process, other.process)
    }

    ghost starts = { λ place front us h. no_under_at_end place.scope.now front us h };
}

/// Whether two processes differ in expressions alone, which are equal place by place.
fn processes_equal<E: Equality>(
    alloc: Global,
    store: &mut Store,
    equality: &E,
    left: &Proc,
    right: &Proc,
) -> Result<bool, Memory>
    requires ready { E.is_ready equality.now }
    requires left { types_kept (tree left.now) (E.environment equality.now) ≡ true }
    requires right { types_kept (tree right.now) (E.environment equality.now) ≡ true }
    ensures { IfOk result (λ answer. IsTrue answer ↔ ProcessesEqual (E.equals equality.now) (tree left.now) (tree right.now)) }
{
    match opened(left) {
        Form::Assign(_, _) => assignments_equal(alloc, store, equality, left, right),
        Form::Seq(parts) => shape!(right, Seq(others) => {
            beginnings_equal(alloc, store, equality, parts, others)
        }),
        Form::Alt(alternatives) => shape!(right, Alt(others) => {
            branches_equal(alloc, store, equality, alternatives, others)
        }),
        _ => Ok(false),
    }
}

/// Whether two processes are assignments to the same variables, whose right sides are equal place by place.
fn assignments_equal<E: Equality>(
    alloc: Global,
    store: &mut Store,
    equality: &E,
    left: &Proc,
    right: &Proc,
) -> Result<bool, Memory>
    requires ready { E.is_ready equality.now }
    requires left { types_kept (tree left.now) (E.environment equality.now) ≡ true }
    requires right { types_kept (tree right.now) (E.environment equality.now) ≡ true }
    ensures { IfOk result (λ answer. IsTrue answer ↔ AssignmentsEqual (E.equals equality.now) (tree left.now) (tree right.now)) }
{
    law_case!(left, Assign(vars, values); right, Assign(other_vars, others) => {
        if !same_names(vars, other_vars) {
            return Ok(false);
        }
        each_equal(alloc, store, equality, values, others)
    })
}

/// Whether two SEQs begin with such assignments, and are the same behind them.
fn beginnings_equal<E: Equality>(
    alloc: Global,
    store: &mut Store,
    equality: &E,
    parts: &[Proc],
    others: &[Proc],
) -> Result<bool, Memory>
    requires ready { E.is_ready equality.now }
    requires left { all_types_kept (trees parts.now) (E.environment equality.now) ≡ true }
    requires right { all_types_kept (trees others.now) (E.environment equality.now) ≡ true }
    ensures { IfOk result (λ answer. IsTrue answer
        ↔ ProcessesEqual (E.equals equality.now) (seq (trees parts.now)) (seq (trees others.now))) }
{
    let [first, rest @ ..] = parts else {
        return Ok(false);
    };
    let [other, other_rest @ ..] = others else {
        return Ok(false);
    };
    if !same_procs(rest, other_rest) {
        return Ok(false);
    }
    assignments_equal(alloc, store, equality, first, other)
}

/// IF(cs, b P, ds) = IF(cs, b Q, ds), where P and Q differ in expressions alone, each equal to the one in its place in every
/// state in which b is TRUE and all conditions of cs are FALSE
pub(crate) fn if_under(
    alloc: Global,
    store: &mut Store,
    scope: &Scope,
    left: &Proc,
    right: &Proc,
) -> Result<bool, Memory>
    requires scope { scope_kept scope.now ≡ true }
    requires left { types_kept (tree left.now) (environment scope.now) ≡ true }
    requires right { types_kept (tree right.now) (environment scope.now) ≡ true }
    ensures { IfOk result (IsAnswer (IfUnder scope.now) (tree left.now) (tree right.now)) }
{
    law_case!(left, If(choices); right, If(others) => {
        somewhere(alloc, store, &Under { scope }, choices, others)
    })
}
