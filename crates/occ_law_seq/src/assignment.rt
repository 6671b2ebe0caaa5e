ghost use Rattle.std.specs.Prelude.{◌≡◌, ◌↔◌, IfOk, IsTrue};
ghost use Rattle.occ_syntax.specs.View.{exp, exps, numbers, tree};
ghost use Rattle.occ_law_shape.specs.occ_law.Lists.{PairsReordered, variables};
ghost use Rattle.occ_law_shape.specs.occ_law.Sequence.{AssignId, AssignJoin, AssignOrder, AssignPad};
ghost use Rattle.occ_law_shape.specs.Answer.{IsAnswer};
ghost use Rattle.occ_law_seq.specs.Assignment.{AreAmong, HasPair, HasPairs, IsJoined, IsPadded, assigned_then};

use crate::first::assigned_first;
use crate::pairs::{Pairs, has_name, is_variable};
use occ_law_shape::law_case;
use occ_syntax::{Expr, Memory, Name, Proc, same_expr, same_exprs, same_names};

/// xs := xs = SKIP
pub(crate) fn assign_id(left: &Proc, right: &Proc) -> Result<bool, Memory>
    ensures { IfOk result (IsAnswer AssignId (tree left.now) (tree right.now)) }
{
    law_case!(left, Assign(vars, values); right, Skip => Ok(are_variables(vars, values)))
}

/// Whether the expressions are these variables, one by one.
pub fn are_variables(vars: &[Name], values: &[Expr]) -> bool
    ensures { IsTrue result ↔ (exps values.now ≡ variables (numbers vars.now)) }
{
    let mut names = vars;
    let mut rest = values;
    while let [name, more @ ..] = names {
        let [value, more_values @ ..] = rest else {
            return false;
        };
        if !is_variable(value, *name) {
            return false;
        }
        names = more;
        rest = more_values;
    }
    rest.is_empty()
}

/// xs := es = the same pairs in any order
pub(crate) fn assign_order(left: &Proc, right: &Proc) -> Result<bool, Memory>
    requires left { HasPairs (tree left.now) }
    requires right { HasPairs (tree right.now) }
    ensures { IfOk result (IsAnswer AssignOrder (tree left.now) (tree right.now)) }
{
    law_case!(left, Assign(vars, values); right, Assign(other_vars, other_values) => {
        let others = Pairs { vars: other_vars, values: other_values };
        Ok(vars.len() == other_vars.len() && are_among(&Pairs { vars, values }, &others))
    })
}

/// Whether each of the first pairs is among the other ones.
fn are_among(pairs: &Pairs<'_>, others: &Pairs<'_>) -> bool
    ensures { IsTrue result ↔
        AreAmong (numbers pairs.now.vars.now) (exps pairs.now.values.now) (numbers others.now.vars.now) (exps others.now.values.now) }
{
    let mut vars = pairs.vars;
    let mut values = pairs.values;
    while let [var, more @ ..] = vars {
        let [value, more_values @ ..] = values else {
            return false;
        };
        if !has_pair(others, *var, value) {
            return false;
        }
        vars = more;
        values = more_values;
    }
    true
}

/// Whether a variable has a right side among the pairs.
fn has_pair(pairs: &Pairs<'_>, var: Name, value: &Expr) -> bool
    ensures { IsTrue result ↔ HasPair (numbers pairs.now.vars.now) (exps pairs.now.values.now) var.0 (exp value.now) }
{
    let mut vars = pairs.vars;
    let mut values = pairs.values;
    while let [name, more @ ..] = vars {
        let [other, more_values @ ..] = values else {
            return false;
        };
        if *name == var && same_expr(other, value) {
            return true;
        }
        vars = more;
        values = more_values;
    }
    false
}

/// xs := es = xs, y := es, y, where y isn't in xs
pub(crate) fn assign_pad(left: &Proc, right: &Proc) -> Result<bool, Memory>
    ensures { IfOk result (IsAnswer AssignPad (tree left.now) (tree right.now)) }
{
    law_case!(left, Assign(vars, values); right, Assign(other_vars, other_values) => {
        let padded = Pairs { vars: other_vars, values: other_values };
        Ok(is_padded(&Pairs { vars, values }, &padded))
    })
}

/// Whether the second pairs are the first ones and last a variable beside itself, which isn't among the first ones.
fn is_padded(pairs: &Pairs<'_>, padded: &Pairs<'_>) -> bool
    ensures { IsTrue result ↔
        IsPadded (numbers pairs.now.vars.now) (exps pairs.now.values.now) (numbers padded.now.vars.now) (exps padded.now.values.now) }
{
    let Some((pad, vars)) = padded.vars.split_last() else {
        return false;
    };
    let Some((value, values)) = padded.values.split_last() else {
        return false;
    };
    is_variable(value, *pad)
        && !has_name(pairs.vars, *pad)
        && same_names(vars, pairs.vars)
        && same_exprs(values, pairs.values)
}

/// SEQ(xs := es, xs := fs) = xs := fs[es/xs]
pub(crate) fn assign_join(left: &Proc, right: &Proc) -> Result<bool, Memory>
    ensures { IfOk result (IsAnswer AssignJoin (tree left.now) (tree right.now)) }
{
    match assigned_first(left) {
        Some((pairs, second)) => joined(&pairs, second, right),
        None => Ok(false),
    }
}

fn joined(pairs: &Pairs<'_>, second: &Proc, right: &Proc) -> Result<bool, Memory>
    ensures { IfOk result
        (IsAnswer AssignJoin (assigned_then (numbers pairs.now.vars.now) (exps pairs.now.values.now) (tree second.now)) (tree right.now)) }
{
    law_case!(second, Assign(vars, values); right, Assign(other_vars, other_values) => {
        let others = Pairs { vars: other_vars, values: other_values };
        Ok(is_joined(pairs, &Pairs { vars, values }, &others))
    })
}

/// Whether the second pairs are for the same variables, and the last ones are these with the first pairs put in.
fn is_joined(pairs: &Pairs<'_>, second: &Pairs<'_>, others: &Pairs<'_>) -> bool
    ensures { IsTrue result ↔ IsJoined (numbers pairs.now.vars.now) (exps pairs.now.values.now)
        (numbers second.now.vars.now) (exps second.now.values.now) (numbers others.now.vars.now) (exps others.now.values.now) }
{
    same_names(second.vars, pairs.vars)
        && same_names(others.vars, pairs.vars)
        && pairs.give_all(second.values, others.values)
}
