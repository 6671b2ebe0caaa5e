ghost use Rattle.std.specs.Prelude.{◌≡◌, ◌↔◌, IfOk, IsTrue, true};
ghost use Rattle.occ_syntax.specs.Tree.{truth};
ghost use Rattle.occ_syntax.specs.View.{exp, waiting, tree, branches, cases};
ghost use Rattle.occ_law_shape.specs.occ_law.Choice.{AltCase};
ghost use Rattle.occ_law_shape.specs.Answer.{IsAnswer};
ghost use Rattle.occ_law_alt.specs.Fronts.{IsHalved};
ghost use Rattle.occ_law_alt.specs.Places.{CaseAt, CaseHere};

use crate::fronts::after;
use occ_law_shape::{Form, is_truth, law_case, opened};
use occ_syntax::{Expr, Guard, Memory, Proc, same_branches, same_expr, same_proc, same_wait};

/// ALT(gs, B, hs) = IF(b ALT(gs, B', hs), TRUE ALT(gs, hs)), where b is the condition of B, and B' is B with the
/// condition TRUE
pub(crate) fn alt_case(left: &Proc, right: &Proc) -> Result<bool, Memory>
    ensures { IfOk result (IsAnswer AltCase (tree left.now) (tree right.now)) }
{
    law_case!(left, Alt(alternatives); right, If(choices) => match halves(choices) {
        Some((condition, with, without)) => Ok(is_case(condition, alternatives, with, without)),
        None => Ok(false),
    })
}

/// The condition of the first of two choices, with the branches of the ALTs under both, where the second condition is
/// TRUE; None exactly where it isn't so.
fn halves(choices: &[(Expr, Proc)]) -> Option<(&Expr, &[(Guard, Proc)], &[(Guard, Proc)])>
    ensures { IsHalved (cases choices.now) result }
{
    if choices.len() != 2 {
        return None;
    }
    let first = &choices[0];
    let second = &choices[1];
    if !is_truth(&second.0) {
        return None;
    }
    match opened(&first.1) {
        Form::Alt(with) => match opened(&second.1) {
            Form::Alt(without) => Some((&first.0, with, without)),
            _ => None,
        },
        _ => None,
    }
}

/// Whether three lists are equal up to a branch of that condition, which the second list has with the condition TRUE, and
/// which the third one lacks.
fn is_case(
    condition: &Expr,
    all: &[(Guard, Proc)],
    with: &[(Guard, Proc)],
    without: &[(Guard, Proc)],
) -> bool
    ensures { IsTrue result ↔ CaseAt (exp condition.now) (branches all.now) (branches with.now) (branches without.now) }
{
    let mut rest = all;
    let mut second_rest = with;
    let mut third_rest = without;
    while !is_case_here(condition, rest, second_rest, third_rest) {
        let [branch, more @ ..] = rest else {
            return false;
        };
        let Some(second_more) = after(branch, second_rest) else {
            return false;
        };
        let Some(third_more) = after(branch, third_rest) else {
            return false;
        };
        rest = more;
        second_rest = second_more;
        third_rest = third_more;
    }
    true
}

/// Whether that branch is the first one.
fn is_case_here(
    condition: &Expr,
    all: &[(Guard, Proc)],
    with: &[(Guard, Proc)],
    without: &[(Guard, Proc)],
) -> bool
    ensures { IsTrue result ↔ CaseHere (exp condition.now) (branches all.now) (branches with.now) (branches without.now) }
{
    let [branch, rest @ ..] = all else {
        return false;
    };
    let [other, other_rest @ ..] = with else {
        return false;
    };
    same_expr(&branch.0.condition, condition)
        && is_with_truth(other, branch)
        && same_branches(rest, without)
        && same_branches(other_rest, without)
}

/// Whether a branch is another one with the condition TRUE.
fn is_with_truth(branch: &(Guard, Proc), other: &(Guard, Proc)) -> bool
    ensures { IsTrue result ↔ ((exp branch.now.0.condition ≡ truth true)
        × (waiting branch.now.0.wait ≡ waiting other.now.0.wait)
        × (tree branch.now.1 ≡ tree other.now.1)) }
{
    is_truth(&branch.0.condition)
        && same_wait(&branch.0.wait, &other.0.wait)
        && same_proc(&branch.1, &other.1)
}
