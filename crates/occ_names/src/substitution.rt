ghost use Rattle.std.specs.Prelude.{◌≡◌, IfOk, length, true};
ghost use Rattle.occ_syntax.specs.View.{exp, exps, numbers};
ghost use Rattle.occ_meaning.specs.Substitution.{substituted};
ghost use Rattle.occ_names.specs.Once.{is_distinct, same_number};

use crate::NameSet;
use occ_syntax::{Expr, Memory, Name};
use std::alloc::Global;

/// The expression with values in the place of variables, all at once: what a value names isn't replaced again. There are
/// as many values as variables, and no variable stands twice.
pub fn substitute(
    alloc: Global,
    expr: &Expr,
    vars: &[Name],
    values: &[Expr],
) -> Result<Expr, Memory>
    requires lengths { length vars.now ≡ length values.now }
    requires distinct { is_distinct same_number (numbers vars.now) ≡ true }
    ensures { IfOk result (λ made. exp made ≡ substituted (numbers vars.now) (exps values.now) (exp expr.now)) }
{
    let mut places = NameSet::new(alloc);
    for var in vars {
        places.insert(*var)?;
    }
    put(alloc, expr, &places, values)
}

// The expression with the values in the place of the variables that stand at the same places of the set.
fn put(alloc: Global, expr: &Expr, vars: &NameSet, values: &[Expr]) -> Result<Expr, Memory>
    requires { length vars.now ≡ length values.now }
    ensures { IfOk result (λ made. exp made ≡ substituted vars.now (exps values.now) (exp expr.now)) }
{
    match expr {
        Expr::Var(name) => match vars.place(*name) {
            Some(place) => values[place].copy(alloc),
            None => Ok(Expr::Var(*name)),
        },
        Expr::Word { bits, value } => Ok(Expr::Word {
            bits: *bits,
            value: *value,
        }),
        Expr::Bool(truth) => Ok(Expr::Bool(*truth)),
        Expr::Not(operand) => Ok(Expr::Not(Box::new(alloc, put(alloc, operand, vars, values)?)?)),
        Expr::Flip(operand) => Ok(Expr::Flip(Box::new(alloc, put(alloc, operand, vars, values)?)?)),
        Expr::Two(op, left, right) => {
            let left = Box::new(alloc, put(alloc, left, vars, values)?)?;
            let right = Box::new(alloc, put(alloc, right, vars, values)?)?;
            Ok(Expr::Two(*op, left, right))
        }
    }
}
