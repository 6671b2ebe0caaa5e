ghost use Rattle.std.specs.Prelude.{◌≡◌, IfOk, []};
ghost use Rattle.occ_law_seq.specs.occ_law.Instances.{IsOnly};
ghost use Rattle.occ_law_seq.specs.occ_law.Lists.{assigned_without, names_without, values_without};
ghost use Rattle.occ_law_seq.specs.occ_law.Scope.{VarAssign, VarEnd};
ghost use Rattle.occ_syntax.specs.View.{exps, numbers, tree};

use occ_law_scope::other_values_name;
use occ_law_seq::{in_turn, pair};
use occ_syntax::{Expr, Exprs, Kind, Memory, Name, NameList, Proc};
use std::alloc::Global;

/// VAR x: ys := fs = the assignment of the pairs for the other variables, where no right side of these names x
pub(crate) fn var_assign(alloc: Global, left: &Proc) -> Result<Option<Proc>, Memory>
    ensures { IfOk result (IsOnly (VarAssign []) (tree left.now)) }
{
    form!(left, Var(name, _width, body) => form!(body, Assign(vars, values) => {
        if other_values_name(name, vars, values) {
            return Ok(None);
        }
        Ok(Some(other_pairs(alloc, name, vars, values)?))
    }))
}

/// VAR x: SEQ(P, ys := fs) = VAR x: SEQ(P, the assignment of the pairs for the other variables)
pub(crate) fn var_end(alloc: Global, left: &Proc) -> Result<Option<Proc>, Memory>
    ensures { IfOk result (IsOnly (VarEnd []) (tree left.now)) }
{
    form!(left, Var(name, width, body) => form!(body, Seq(parts) => match pair(parts) {
        Some((first, last)) => form!(last, Assign(vars, values) => {
            let end = other_pairs(alloc, name, vars, values)?;
            let whole = in_turn(alloc, first.copy(alloc)?, end)?;
            Ok(Some(whole.declare(alloc, name, Kind::Var(width))?))
        }),
        None => Ok(None),
    }))
}

/// The assignment of the pairs for other variables, which is SKIP where there is none.
fn other_pairs(alloc: Global, name: Name, vars: &[Name], values: &[Expr]) -> Result<Proc, Memory>
    ensures { IfOk result (λ made. tree made ≡ assigned_without name.0 (numbers vars.now) (exps values.now)) }
{
    let others = other_names(alloc, name, vars)?;
    if others.items().is_empty() {
        return Ok(Proc::Skip);
    }
    let values = other_values(alloc, name, vars, values)?;
    Ok(Proc::Assign {
        vars: others,
        values,
    })
}

/// A list of names without one of them.
fn other_names(alloc: Global, name: Name, vars: &[Name]) -> Result<NameList, Memory>
    ensures { IfOk result (λ made. numbers made ≡ names_without name.0 (numbers vars.now)) }
{
    let mut made = NameList::new(alloc);
    for var in vars {
        if *var != name {
            made.push(*var)?;
        }
    }
    Ok(made)
}

/// The right sides of the pairs for other variables.
fn other_values(alloc: Global, name: Name, vars: &[Name], values: &[Expr]) -> Result<Exprs, Memory>
    ensures { IfOk result (λ made. exps made ≡ values_without name.0 (numbers vars.now) (exps values.now)) }
{
    let mut made = Exprs::new(alloc);
    for (var, value) in vars.iter().zip(values) {
        if *var != name {
            made.push(value.copy(alloc)?)?;
        }
    }
    Ok(made)
}
