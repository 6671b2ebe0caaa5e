ghost use Rattle.std.specs.Prelude.{◌≡◌, IfOk, map};
ghost use Rattle.occ_syntax.specs.View.{exp, exps, numbers, waiting};
ghost use Rattle.occ_law_scope.specs.occ_meaning.Substitution.{substituted};
ghost use Rattle.occ_law_seq.specs.occ_law.Sequence.{substituted_waiting};
ghost use Rattle.occ_law_seq.specs.Assignment.{standing_for};

use occ_law_seq::Pairs;
use occ_syntax::{Expr, Exprs, Memory, Name, Wait};
use std::alloc::Global;

/// An expression with right sides in the place of their variables, all at once.
pub(crate) fn put_in(alloc: Global, pairs: &Pairs<'_>, expr: &Expr) -> Result<Expr, Memory>
    ensures { IfOk result (λ made. exp made ≡ substituted (numbers pairs.now.vars.now) (exps pairs.now.values.now) (exp expr.now)) }
{
    match expr {
        Expr::Var(name) => standing(alloc, pairs.value(*name), *name),
        Expr::Word { .. } | Expr::Bool(_) => expr.copy(alloc),
        Expr::Not(operand) => Ok(Expr::Not(Box::new(alloc, put_in(alloc, pairs, operand)?)?)),
        Expr::Flip(operand) => Ok(Expr::Flip(Box::new(alloc, put_in(alloc, pairs, operand)?)?)),
        Expr::Two(op, left, right) => {
            let left = Box::new(alloc, put_in(alloc, pairs, left)?)?;
            let right = Box::new(alloc, put_in(alloc, pairs, right)?)?;
            Ok(Expr::Two(*op, left, right))
        }
    }
}

/// What stands for a variable: its right side, or the variable where it has none.
fn standing(alloc: Global, found: Option<&Expr>, var: Name) -> Result<Expr, Memory>
    ensures { IfOk result (λ made. exp made ≡ standing_for var.0 found.entry) }
{
    match found {
        Some(value) => value.copy(alloc),
        None => Ok(Expr::Var(var)),
    }
}

/// The same of whole lists of expressions.
pub(crate) fn put_in_all(alloc: Global, pairs: &Pairs<'_>, exprs: &[Expr]) -> Result<Exprs, Memory>
    ensures { IfOk result (λ made. exps made
        ≡ map (substituted (numbers pairs.now.vars.now) (exps pairs.now.values.now)) (exps exprs.now)) }
{
    let mut made = Exprs::new(alloc);
    for expr in exprs {
        made.push(put_in(alloc, pairs, expr)?)?;
    }
    Ok(made)
}

/// What a guard waits for behind the assignment of pairs: an output's value is taken in the assigned state.
pub(crate) fn put_in_wait(alloc: Global, pairs: &Pairs<'_>, wait: &Wait) -> Result<Wait, Memory>
    ensures { IfOk result (λ made. waiting made
        ≡ substituted_waiting (numbers pairs.now.vars.now) (exps pairs.now.values.now) (waiting wait.now)) }
{
    match wait {
        Wait::Skip | Wait::Get { .. } => wait.copy(alloc),
        Wait::Put { chan, value } => Ok(Wait::Put {
            chan: *chan,
            value: put_in(alloc, pairs, value)?,
        }),
    }
}
