ghost use Rattle.std.specs.Prelude.{◌≡◌, ◌↔◌, IfOk, IsTrue};
ghost use Rattle.occ_law_shape.specs.occ_law.Lists.{assigned_without, names_without, values_without};
ghost use Rattle.occ_law_shape.specs.occ_law.Scope.{VarAssign, VarEnd};
ghost use Rattle.occ_law_scope.specs.Pairs.{AssignedWithout, EndsWithout};
ghost use Rattle.occ_law_shape.specs.Answer.{IsAnswer};
ghost use Rattle.occ_syntax.specs.Names.{some_names as is_some_named};
ghost use Rattle.occ_syntax.specs.View.{exps, numbers, tree};

use crate::declaration::Declaration;
use crate::mentions::names;
use crate::turns::turns;
use occ_law_shape::{Form, opened, shape};
use occ_syntax::{Expr, Memory, Name, Proc, same_expr, same_proc};

/// VAR x: ys := fs = the assignment of the pairs for the other variables, where no right side of these names x
pub(crate) fn var_assign(left: &Proc, right: &Proc) -> Result<bool, Memory>
    ensures { IfOk result (IsAnswer VarAssign (tree left.now) (tree right.now)) }
{
    shape!(left, Var(name, _width, body) => shape!(body, Assign(vars, values) => {
        if other_values_name(name, vars, values) {
            return Ok(false);
        }
        Ok(is_assigned_without(name, vars, values, right))
    }))
}

/// VAR x: SEQ(P, ys := fs) = VAR x: SEQ(P, the assignment of the pairs for the other variables)
pub(crate) fn var_end(left: &Proc, right: &Proc) -> Result<bool, Memory>
    ensures { IfOk result (IsAnswer VarEnd (tree left.now) (tree right.now)) }
{
    shape!(left, Var(name, width, body) => match Declaration::Var(name, width).body_of(right) {
        Some(other) => Ok(ends_without(name, body, other)),
        None => Ok(false),
    })
}

/// Whether two processes are SEQs of one process and an assignment, in the second one without the pairs for a variable.
fn ends_without(name: Name, body: &Proc, other: &Proc) -> bool
    ensures { IsTrue result ↔ EndsWithout name.0 (tree body.now) (tree other.now) }
{
    match turns(body) {
        Some((first, last)) => match turns(other) {
            Some((other_first, other_last)) => {
                same_proc(first, other_first) && is_last_without(name, last, other_last)
            }
            None => false,
        },
        None => false,
    }
}

/// Whether a process is an assignment, and the other one the assignment of its pairs for other variables.
fn is_last_without(name: Name, last: &Proc, other: &Proc) -> bool
    ensures { IsTrue result ↔ AssignedWithout name.0 (tree last.now) (tree other.now) }
{
    match opened(last) {
        Form::Assign(vars, values) => is_assigned_without(name, vars, values, other),
        _ => false,
    }
}

/// Whether a process is the assignment of the pairs for other variables, which is SKIP where there is none.
fn is_assigned_without(name: Name, vars: &[Name], values: &[Expr], whole: &Proc) -> bool
    ensures { IsTrue result ↔ (tree whole.now ≡ assigned_without name.0 (numbers vars.now) (exps values.now)) }
{
    match opened(whole) {
        Form::Skip => are_names_without(name, vars, &[]),
        Form::Assign(others, other_values) => {
            !others.is_empty()
                && are_names_without(name, vars, others)
                && are_values_without(name, vars, values, other_values)
        }
        _ => false,
    }
}

/// Whether a list of names is another one without a name.
fn are_names_without(name: Name, vars: &[Name], others: &[Name]) -> bool
    ensures { IsTrue result ↔ (numbers others.now ≡ names_without name.0 (numbers vars.now)) }
{
    let mut rest = others;
    for var in vars {
        if *var != name {
            let [other, more @ ..] = rest else {
                return false;
            };
            if other != var {
                return false;
            }
            rest = more;
        }
    }
    rest.is_empty()
}

/// Whether a list of expressions has the right sides of the pairs for other variables.
fn are_values_without(name: Name, vars: &[Name], values: &[Expr], others: &[Expr]) -> bool
    ensures { IsTrue result ↔ (exps others.now ≡ values_without name.0 (numbers vars.now) (exps values.now)) }
{
    let mut rest = others;
    for (var, value) in vars.iter().zip(values) {
        if *var != name {
            let [other, more @ ..] = rest else {
                return false;
            };
            if !same_expr(other, value) {
                return false;
            }
            rest = more;
        }
    }
    rest.is_empty()
}

/// Whether the right side of a pair for another variable names a variable.
pub fn other_values_name(name: Name, vars: &[Name], values: &[Expr]) -> bool
    ensures { result ≡ is_some_named (values_without name.0 (numbers vars.now) (exps values.now)) name.0 }
{
    for (var, value) in vars.iter().zip(values) {
        if *var != name && names(value, name) {
            return true;
        }
    }
    false
}
