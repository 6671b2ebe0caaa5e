ghost use Rattle.std.specs.Prelude.{◌≡◌, ◌↔◌, IfOk, IsTrue, true};
ghost use Rattle.occ_syntax.specs.Types.{branches_kept, cases_kept, waiting_kept};
ghost use Rattle.occ_syntax.specs.View.{branches, cases, exp, exps, tree, waiting};
ghost use Rattle.occ_law.specs.States.{BranchesEqual, CasesEqual, EachEqual, WaitingEqual};
ghost use Rattle.occ_law_shape.specs.Types.{agree_each, is_guard};

use crate::Equality;
use occ_law::Store;
use occ_syntax::{Expr, Guard, Memory, Proc, Wait, same_proc};
use std::alloc::Global;

/// Whether two lists of expressions are as long as each other, and equal place by place. Expressions in one place have one
/// type.
pub fn each_equal<E: Equality>(
    alloc: Global,
    store: &mut Store,
    equality: &E,
    left: &[Expr],
    right: &[Expr],
) -> Result<bool, Memory>
    requires ready { E.is_ready equality.now }
    requires types { agree_each (E.environment equality.now) (exps left.now) (exps right.now) ≡ true }
    ensures { IfOk result (λ answer. IsTrue answer ↔ EachEqual (E.equals equality.now) (exps left.now) (exps right.now)) }
{
    let mut rest = left;
    let mut other_rest = right;
    while let [expr, more @ ..] = rest {
        let [other, other_more @ ..] = other_rest else {
            return Ok(false);
        };
        let is_equal = equality.holds(alloc, store, expr, other)?;
        if !is_equal {
            return Ok(false);
        }
        rest = more;
        other_rest = other_more;
    }
    Ok(other_rest.is_empty())
}

/// Whether two lists of choices differ in their conditions alone, which are equal place by place.
pub fn cases_equal<E: Equality>(
    alloc: Global,
    store: &mut Store,
    equality: &E,
    left: &[(Expr, Proc)],
    right: &[(Expr, Proc)],
) -> Result<bool, Memory>
    requires ready { E.is_ready equality.now }
    requires left { cases_kept (cases left.now) (E.environment equality.now) ≡ true }
    requires right { cases_kept (cases right.now) (E.environment equality.now) ≡ true }
    ensures { IfOk result (λ answer. IsTrue answer ↔ CasesEqual (E.equals equality.now) (cases left.now) (cases right.now)) }
{
    let mut rest = left;
    let mut other_rest = right;
    while let [choice, more @ ..] = rest {
        let [other, other_more @ ..] = other_rest else {
            return Ok(false);
        };
        if !same_proc(&choice.1, &other.1) {
            return Ok(false);
        }
        let is_equal = equality.holds(alloc, store, &choice.0, &other.0)?;
        if !is_equal {
            return Ok(false);
        }
        rest = more;
        other_rest = other_more;
    }
    Ok(other_rest.is_empty())
}

/// Whether two lists of branches differ in their conditions and the values of their outputs alone, which are equal place by
/// place.
pub fn branches_equal<E: Equality>(
    alloc: Global,
    store: &mut Store,
    equality: &E,
    left: &[(Guard, Proc)],
    right: &[(Guard, Proc)],
) -> Result<bool, Memory>
    requires ready { E.is_ready equality.now }
    requires left { branches_kept (branches left.now) (E.environment equality.now) ≡ true }
    requires right { branches_kept (branches right.now) (E.environment equality.now) ≡ true }
    ensures { IfOk result (λ answer. IsTrue answer
        ↔ BranchesEqual (E.equals equality.now) (branches left.now) (branches right.now)) }
{
    let mut rest = left;
    let mut other_rest = right;
    while let [branch, more @ ..] = rest {
        let [other, other_more @ ..] = other_rest else {
            return Ok(false);
        };
        let is_equal = branch_equal(alloc, store, equality, branch, other)?;
        if !is_equal {
            return Ok(false);
        }
        rest = more;
        other_rest = other_more;
    }
    Ok(other_rest.is_empty())
}

fn branch_equal<E: Equality>(
    alloc: Global,
    store: &mut Store,
    equality: &E,
    left: &(Guard, Proc),
    right: &(Guard, Proc),
) -> Result<bool, Memory>
    requires ready { E.is_ready equality.now }
    requires left { is_guard (E.environment equality.now) (exp left.now.0.condition) (waiting left.now.0.wait) ≡ true }
    requires right { is_guard (E.environment equality.now) (exp right.now.0.condition) (waiting right.now.0.wait) ≡ true }
    ensures { IfOk result (λ answer. IsTrue answer
        ↔ (E.equals equality.now (exp left.now.0.condition) (exp right.now.0.condition)
        × WaitingEqual (E.equals equality.now) (waiting left.now.0.wait) (waiting right.now.0.wait)
        × (tree left.now.1 ≡ tree right.now.1))) }
{
    if !same_proc(&left.1, &right.1) {
        return Ok(false);
    }
    let are_equal = equality.holds(alloc, store, &left.0.condition, &right.0.condition)?;
    if !are_equal {
        return Ok(false);
    }
    waits_equal(alloc, store, equality, &left.0.wait, &right.0.wait)
}

fn waits_equal<E: Equality>(
    alloc: Global,
    store: &mut Store,
    equality: &E,
    left: &Wait,
    right: &Wait,
) -> Result<bool, Memory>
    requires ready { E.is_ready equality.now }
    requires left { waiting_kept (E.environment equality.now) (waiting left.now) ≡ true }
    requires right { waiting_kept (E.environment equality.now) (waiting right.now) ≡ true }
    ensures { IfOk result (λ answer. IsTrue answer ↔ WaitingEqual (E.equals equality.now) (waiting left.now) (waiting right.now)) }
{
    match left {
        Wait::Skip => Ok(matches!(right, Wait::Skip)),
        Wait::Get { chan, var } => match right {
            Wait::Get { chan: c, var: v } => Ok(chan == c && var == v),
            _ => Ok(false),
        },
        Wait::Put { chan, value } => match right {
            Wait::Put { chan: c, value: v } => {
                if chan != c {
                    return Ok(false);
                }
                equality.holds(alloc, store, value, v)
            }
            _ => Ok(false),
        },
    }
}
