ghost use Rattle.std.specs.Prelude.{◌≡◌, ◌↔◌, IsTrue};
ghost use Rattle.occ_syntax.specs.Tree.{operation};
ghost use Rattle.occ_syntax.specs.View.{cases, exp, tree};
ghost use Rattle.occ_law_shape.specs.occ_law.Choice.{copies};
ghost use Rattle.occ_law_shape.specs.occ_law.Lists.{conditions};
ghost use Rattle.occ_law_if.specs.Fronts.{IsBehind, IsFront, IsLed};

use occ_syntax::{Expr, Op, Proc, same_expr, same_proc};

/// The first choice of a list, and those behind it.
#[derive(Clone, Copy)]
pub(crate) struct Front<'a> {
    pub(crate) condition: &'a Expr,
    pub(crate) process: &'a Proc,
    pub(crate) behind: &'a [(Expr, Proc)],
}

/// The first choice and those behind it; None exactly where there is none.
pub(crate) fn divided(choices: &[(Expr, Proc)]) -> Option<Front<'_>>
    ensures { IsFront (cases choices.now) result }
{
    let [first, behind @ ..] = choices else {
        return None;
    };
    Some(Front {
        condition: &first.0,
        process: &first.1,
        behind,
    })
}

/// What stands in a list behind its first choice, where that has this condition and this process; None exactly where it hasn't.
pub(crate) fn led<'a>(
    choices: &'a [(Expr, Proc)],
    condition: &Expr,
    process: &Proc,
) -> Option<&'a [(Expr, Proc)]>
    ensures { IsLed (exp condition.now) (tree process.now) (cases choices.now) result }
{
    let Some(first) = divided(choices) else {
        return None;
    };
    if !same_expr(first.condition, condition) {
        return None;
    }
    if !same_proc(first.process, process) {
        return None;
    }
    Some(first.behind)
}

/// What stands in a list behind the choices of another, where it begins with these; None exactly where it doesn't.
pub(crate) fn behind<'a>(
    first: &[(Expr, Proc)],
    all: &'a [(Expr, Proc)],
) -> Option<&'a [(Expr, Proc)]>
    ensures { IsBehind (cases first.now) (cases all.now) result }
{
    let mut front = first;
    let mut rest = all;
    while let [choice, more @ ..] = front {
        let [other, other_more @ ..] = rest else {
            return None;
        };
        if !same_expr(&choice.0, &other.0) {
            return None;
        }
        if !same_proc(&choice.1, &other.1) {
            return None;
        }
        front = more;
        rest = other_more;
    }
    Some(rest)
}

/// Whether all choices have one process.
pub(crate) fn are_copies(choices: &[(Expr, Proc)], part: &Proc) -> bool
    ensures { IsTrue result ↔ (cases choices.now ≡ copies (conditions (cases choices.now)) (tree part.now)) }
{
    let mut rest = choices;
    while let [choice, more @ ..] = rest {
        if !same_proc(&choice.1, part) {
            return false;
        }
        rest = more;
    }
    true
}

/// Whether an expression is that operator between these two operands.
pub(crate) fn is_operation(expr: &Expr, op: Op, left: &Expr, right: &Expr) -> bool
    ensures { IsTrue result ↔ (exp expr.now ≡ operation op (exp left.now) (exp right.now)) }
{
    match expr {
        Expr::Two(other, first, second) => {
            *other == op && same_expr(first, left) && same_expr(second, right)
        }
        _ => false,
    }
}
