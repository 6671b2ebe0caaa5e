ghost use Rattle.std.specs.Prelude.{◌≡◌, ◌↔◌, ◌⊎◌, IfOk, IsTrue, true};
ghost use Rattle.occ_law_shape.specs.occ_law.Scope.{VarAlt, VarAltInput};
ghost use Rattle.occ_law_scope.specs.Input.{AltInput, InputHere, OtherInput};
ghost use Rattle.occ_law_scope.specs.Turns.{begun as begun_with};
ghost use Rattle.occ_law_shape.specs.Answer.{IsAnswer};
ghost use Rattle.occ_syntax.specs.Scopes.{environment};
ghost use Rattle.occ_syntax.specs.Tree.{input, variable};
ghost use Rattle.occ_syntax.specs.Types.{types_kept};
ghost use Rattle.occ_syntax.specs.View.{branches, exp, tree, waiting};

use crate::choices::var_alt_under;
use crate::declaration::Declaration;
use crate::mentions::is_unused;
use crate::turns::begun;
use occ_law_shape::shape;
use occ_syntax::{
    Expr, Guard, Memory, Name, Proc, Scope, Wait, same_branch, same_branches, same_expr, same_proc,
};
use std::alloc::Global;

/// var-alt, in either of its forms.
pub(crate) fn var_alt(
    alloc: Global,
    scope: &Scope,
    left: &Proc,
    right: &Proc,
) -> Result<bool, Memory>
    requires left { types_kept (tree left.now) (environment scope.now) ≡ true }
    requires right { types_kept (tree right.now) (environment scope.now) ≡ true }
    ensures { IfOk result (IsAnswer (λ place l r. VarAlt place l r ⊎ VarAltInput (environment scope.now) place l r)
        (tree left.now) (tree right.now)) }
{
    let is_in_each = var_alt_under(alloc, left, right)?;
    if is_in_each {
        return Ok(true);
    }
    var_alt_input(alloc, scope, left, right)
}

/// VAR z: ALT(gs, b & c ? x P, hs) = VAR z: ALT(gs, b & c ? z SEQ(x := z, P), hs), where x and z differ and have one
/// width, and z isn't free in gs, b, P and hs. Where both sides keep their types, the widths are one anyway.
fn var_alt_input(alloc: Global, _scope: &Scope, left: &Proc, right: &Proc) -> Result<bool, Memory>
    requires left { types_kept (tree left.now) (environment _scope.now) ≡ true }
    requires right { types_kept (tree right.now) (environment _scope.now) ≡ true }
    ensures { IfOk result (IsAnswer (VarAltInput (environment _scope.now)) (tree left.now) (tree right.now)) }
{
    shape!(left, Var(name, width, body) => match Declaration::Var(name, width).body_of(right) {
        Some(other) => has_other_input(alloc, name, body, other),
        None => Ok(false),
    })
}

fn has_other_input(alloc: Global, name: Name, body: &Proc, other: &Proc) -> Result<bool, Memory>
    ensures { IfOk result (λ answer. IsTrue answer ↔ AltInput name.0 (tree body.now) (tree other.now)) }
{
    shape!(body, Alt(alternatives) => shape!(other, Alt(others) => {
        if !is_other_input(name, alternatives, others) {
            return Ok(false);
        }
        is_unused(alloc, name, body)
    }))
}

/// Whether two lists of branches differ in one branch alone, in which the variable takes the input for another one.
fn is_other_input(name: Name, alternatives: &[(Guard, Proc)], others: &[(Guard, Proc)]) -> bool
    ensures { IsTrue result ↔ OtherInput name.0 (branches alternatives.now) (branches others.now) }
{
    let mut rest = alternatives;
    let mut other_rest = others;
    while let [branch, more @ ..] = rest {
        let [other, other_more @ ..] = other_rest else {
            return false;
        };
        if !same_branch(branch, other) {
            return is_input_here(name, branch, other) && same_branches(more, other_more);
        }
        rest = more;
        other_rest = other_more;
    }
    false
}

/// Whether the second branch inputs into the variable what the first one inputs into another one, and then assigns it.
fn is_input_here(name: Name, branch: &(Guard, Proc), other: &(Guard, Proc)) -> bool
    ensures { IsTrue result
        ↔ ((exp branch.now.0.condition ≡ exp other.now.0.condition)
        × InputHere name.0 (waiting branch.now.0.wait) (tree branch.now.1) (waiting other.now.0.wait) (tree other.now.1)) }
{
    if !same_expr(&branch.0.condition, &other.0.condition) {
        return false;
    }
    match &branch.0.wait {
        Wait::Get { chan, var } => {
            if *var == name {
                return false;
            }
            is_input(&other.0.wait, *chan, name) && is_passed_on(*var, name, &branch.1, &other.1)
        }
        _ => false,
    }
}

fn is_input(wait: &Wait, chan: Name, var: Name) -> bool
    ensures { IsTrue result ↔ (waiting wait.now ≡ input chan.0 var.0) }
{
    match wait {
        Wait::Get { chan: c, var: v } => *c == chan && *v == var,
        _ => false,
    }
}

/// Whether a whole process is a process behind the assignment of one variable to another one.
fn is_passed_on(var: Name, from: Name, body: &Proc, whole: &Proc) -> bool
    ensures { IsTrue result ↔ (tree whole.now ≡ begun_with var.0 (variable from.0) (tree body.now)) }
{
    match begun(whole) {
        Some((name, value, rest)) => name == var
            && is_variable(value, from)
            && same_proc(rest, body),
        None => false,
    }
}

fn is_variable(expr: &Expr, name: Name) -> bool
    ensures { IsTrue result ↔ (exp expr.now ≡ variable name.0) }
{
    match expr {
        Expr::Var(other) => *other == name,
        _ => false,
    }
}
