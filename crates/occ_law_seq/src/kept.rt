ghost use Rattle.std.specs.Prelude.{◌≡◌, ◌↔◌, IsTrue};
ghost use Rattle.occ_syntax.specs.Names.{some_names};
ghost use Rattle.occ_syntax.specs.View.{exp, exps, numbers, tree, waiting};
ghost use Rattle.occ_law_shape.specs.occ_law.Lists.{assigned_without, names_without, values_without};
ghost use Rattle.occ_law_shape.specs.occ_law.Sequence.{spares_input};
ghost use Rattle.occ_law_seq.specs.Kept.{IsNameRest, IsValueRest};

use crate::pairs::{Pairs, names};
use occ_law_shape::{Form, opened};
use occ_syntax::{Expr, Name, Proc, Wait, same_expr};

/// Whether a part is the assignment of the pairs for other variables than one; SKIP where there are none.
pub(crate) fn is_without(pairs: &Pairs<'_>, var: Name, part: &Proc) -> bool
    ensures { IsTrue result ↔ (tree part.now ≡ assigned_without var.0 (numbers pairs.now.vars.now) (exps pairs.now.values.now)) }
{
    match opened(part) {
        Form::Skip => are_names_without(pairs, var, &[]),
        Form::Assign(vars, values) => {
            !vars.is_empty()
                && are_names_without(pairs, var, vars)
                && are_values_without(pairs, var, values)
        }
        _ => false,
    }
}

/// Whether names are the variables of the pairs but for one.
fn are_names_without(pairs: &Pairs<'_>, var: Name, names: &[Name]) -> bool
    ensures { IsTrue result ↔ (numbers names.now ≡ names_without var.0 (numbers pairs.now.vars.now)) }
{
    let mut vars = pairs.vars;
    let mut rest = names;
    while let [name, more @ ..] = vars {
        let Some(name_rest) = behind_name(var, *name, rest) else {
            return false;
        };
        vars = more;
        rest = name_rest;
    }
    rest.is_empty()
}

/// What stands in a list of names behind a name, which only the variable `var` may lack.
fn behind_name<'a>(var: Name, name: Name, names: &'a [Name]) -> Option<&'a [Name]>
    ensures { IsNameRest var.0 name.0 names.now result }
{
    if var == name {
        return Some(names);
    }
    let [first, rest @ ..] = names else {
        return None;
    };
    if *first == name { Some(rest) } else { None }
}

/// Whether expressions are the right sides of the pairs but for those of one variable.
fn are_values_without(pairs: &Pairs<'_>, var: Name, exprs: &[Expr]) -> bool
    ensures { IsTrue result ↔ (exps exprs.now ≡ values_without var.0 (numbers pairs.now.vars.now) (exps pairs.now.values.now)) }
{
    let mut vars = pairs.vars;
    let mut values = pairs.values;
    let mut rest = exprs;
    while let [name, more @ ..] = vars {
        let [value, more_values @ ..] = values else {
            return rest.is_empty();
        };
        let Some(value_rest) = behind_value(var, *name, value, rest) else {
            return false;
        };
        vars = more;
        values = more_values;
        rest = value_rest;
    }
    rest.is_empty()
}

/// What stands in a list of expressions behind the right side of a variable, which only the variable `var` may lack.
fn behind_value<'a>(var: Name, name: Name, value: &Expr, exprs: &'a [Expr]) -> Option<&'a [Expr]>
    ensures { IsValueRest var.0 name.0 (exp value.now) exprs.now result }
{
    if var == name {
        return Some(exprs);
    }
    let [first, rest @ ..] = exprs else {
        return None;
    };
    if same_expr(first, value) {
        Some(rest)
    } else {
        None
    }
}

/// Whether no right side that is kept behind a guard names the variable that the guard inputs.
pub(crate) fn spares(pairs: &Pairs<'_>, wait: &Wait) -> bool
    ensures { result ≡ spares_input (numbers pairs.now.vars.now) (exps pairs.now.values.now) (waiting wait.now) }
{
    match wait {
        Wait::Get { var, .. } => !others_name(pairs, *var),
        Wait::Skip | Wait::Put { .. } => true,
    }
}

/// Whether a right side of another variable names a variable.
fn others_name(pairs: &Pairs<'_>, var: Name) -> bool
    ensures { result ≡ some_names (values_without var.0 (numbers pairs.now.vars.now) (exps pairs.now.values.now)) var.0 }
{
    let mut vars = pairs.vars;
    let mut values = pairs.values;
    while let [name, more @ ..] = vars {
        let [value, more_values @ ..] = values else {
            return false;
        };
        if var != *name && names(value, var) {
            return true;
        }
        vars = more;
        values = more_values;
    }
    false
}
