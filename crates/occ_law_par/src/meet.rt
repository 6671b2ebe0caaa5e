ghost use Rattle.std.specs.Prelude.{◌≡◌, ◌↔◌, IsTrue, [], ◌∷◌};
ghost use Rattle.occ_syntax.specs.declared.expr.Op.TheVariants.{And};
ghost use Rattle.occ_syntax.specs.Tree.{assign, operation, ready};
ghost use Rattle.occ_syntax.specs.View.{exp, waiting, tree, branches};
ghost use Rattle.occ_law_shape.specs.occ_law.Parallel.{both_go, meeting, meetings, meetings_of};
ghost use Rattle.occ_law_par.specs.Expand.{IsPassed, IsRest};

use crate::pairs::{is_par_of, two_in_seq};
use occ_law_shape::{Form, opened};
use occ_syntax::{Expr, Guard, Name, Op, Proc, Wait, same_expr, same_exprs, same_names};
use std::slice;

/// Whether branches are those in which each branch of one list meets each of another.
pub(crate) fn are_meetings(
    firsts: &[(Guard, Proc)],
    seconds: &[(Guard, Proc)],
    others: &[(Guard, Proc)],
) -> bool
    ensures { IsTrue result ↔ (branches others.now ≡ meetings (branches firsts.now) (branches seconds.now)) }
{
    let mut front = firsts;
    let mut rest = others;
    while let [first, more @ ..] = front {
        let Some(further) = behind_meetings(first, seconds, rest) else {
            return false;
        };
        rest = further;
        front = more;
    }
    rest.is_empty()
}

/// What stands in a list behind the branches in which one branch meets each of another list; None exactly where the list
/// doesn't begin with these.
fn behind_meetings<'a>(
    first: &(Guard, Proc),
    seconds: &[(Guard, Proc)],
    others: &'a [(Guard, Proc)],
) -> Option<&'a [(Guard, Proc)]>
    ensures { IsRest (meetings_of (exp first.now.0.condition) (waiting first.now.0.wait) (tree first.now.1) (branches seconds.now))
        (branches others.now) result }
{
    let mut front = seconds;
    let mut rest = others;
    while let [second, more @ ..] = front {
        rest = behind_meeting(first, second, rest)?;
        front = more;
    }
    Some(rest)
}

/// What stands in a list behind the branch in which two branches meet, where they do; None exactly where they do and the
/// list doesn't begin with that branch.
fn behind_meeting<'a>(
    first: &(Guard, Proc),
    second: &(Guard, Proc),
    others: &'a [(Guard, Proc)],
) -> Option<&'a [(Guard, Proc)]>
    ensures { IsRest (meeting (exp first.now.0.condition) (waiting first.now.0.wait) (tree first.now.1)
        (exp second.now.0.condition) (waiting second.now.0.wait) (tree second.now.1)) (branches others.now) result }
{
    let Some((var, value)) = passed(&first.0.wait, &second.0.wait) else {
        return Some(others);
    };
    let [other, rest @ ..] = others else {
        return None;
    };
    if !is_unseen(&other.0, &first.0.condition, &second.0.condition) {
        return None;
    }
    if !goes_on_with(&other.1, var, value, &first.1, &second.1) {
        return None;
    }
    Some(rest)
}

/// The variable and the value that two guards pass, where one outputs on the channel from which the other inputs; None
/// exactly where they don't.
fn passed<'a>(first: &'a Wait, second: &'a Wait) -> Option<(Name, &'a Expr)>
    ensures { IsPassed (waiting first.now) (waiting second.now) result }
{
    match first {
        Wait::Skip => None,
        Wait::Get { chan, var } => match second {
            Wait::Put { chan: other, value } => {
                if chan == other {
                    Some((*var, value))
                } else {
                    None
                }
            }
            _ => None,
        },
        Wait::Put { chan, value } => match second {
            Wait::Get { chan: other, var } => {
                if chan == other {
                    Some((*var, value))
                } else {
                    None
                }
            }
            _ => None,
        },
    }
}

/// Whether a guard waits for nothing, under two conditions.
fn is_unseen(guard: &Guard, first: &Expr, second: &Expr) -> bool
    ensures { IsTrue result ↔ ((exp guard.now.condition ≡ operation And (exp first.now) (exp second.now)) × (waiting guard.now.wait ≡ ready)) }
{
    is_conjunction(&guard.condition, first, second) && matches!(guard.wait, Wait::Skip)
}

/// Whether an expression is `first AND second`.
fn is_conjunction(whole: &Expr, first: &Expr, second: &Expr) -> bool
    ensures { IsTrue result ↔ (exp whole.now ≡ operation And (exp first.now) (exp second.now)) }
{
    match whole {
        Expr::Two(op, left, right) => {
            matches!(op, Op::And) && same_expr(left, first) && same_expr(right, second)
        }
        _ => false,
    }
}

/// Whether a process passes a value to a variable and goes on with the PAR of two.
fn goes_on_with(whole: &Proc, var: Name, value: &Expr, first: &Proc, second: &Proc) -> bool
    ensures { IsTrue result ↔ (tree whole.now ≡ both_go var.0 (exp value.now) (tree first.now) (tree second.now)) }
{
    match two_in_seq(whole) {
        Some((passing, rest)) => passes(passing, var, value) && is_par_of(rest, first, second),
        None => false,
    }
}

/// Whether a process assigns a value to a variable, and nothing else.
fn passes(part: &Proc, var: Name, value: &Expr) -> bool
    ensures { IsTrue result ↔ (tree part.now ≡ assign (var.0 ∷ []) (exp value.now ∷ [])) }
{
    match opened(part) {
        Form::Assign(vars, values) => {
            same_names(vars, slice::from_ref(&var)) && same_exprs(values, slice::from_ref(value))
        }
        _ => false,
    }
}
