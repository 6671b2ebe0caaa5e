ghost use Rattle.std.specs.Prelude.{◌≡◌, IfOk};
ghost use Rattle.occ_syntax.specs.View.{exps, numbers, tree, waiting};
ghost use Rattle.occ_law_seq.specs.occ_law.Lists.{assigned_without, assignment, names_without, values_without};
ghost use Rattle.occ_law_seq.specs.occ_law.Sequence.{assigned_behind};

use crate::made::{assigned, assignment_of};
use occ_law_seq::Pairs;
use occ_syntax::{Exprs, Memory, Name, NameList, Proc, Wait};
use std::alloc::Global;

/// The assignment that is made up for behind a guard: without the pair for a variable that the guard inputs.
pub(crate) fn made_up_for(alloc: Global, pairs: &Pairs<'_>, wait: &Wait) -> Result<Proc, Memory>
    ensures { IfOk result (λ part. tree part
        ≡ assigned_behind (numbers pairs.now.vars.now) (exps pairs.now.values.now) (waiting wait.now)) }
{
    match wait {
        Wait::Skip | Wait::Put { .. } => assigned(alloc, pairs),
        Wait::Get { var, .. } => assigned_but_for(alloc, pairs, *var),
    }
}

/// The assignment of the pairs for other variables than one.
fn assigned_but_for(alloc: Global, pairs: &Pairs<'_>, var: Name) -> Result<Proc, Memory>
    ensures { IfOk result (λ part. tree part ≡ assigned_without var.0 (numbers pairs.now.vars.now) (exps pairs.now.values.now)) }
{
    let vars = kept_vars(alloc, pairs.vars, var)?;
    let values = kept_values(alloc, pairs, var)?;
    Ok(assigned_if_any(vars, values))
}

/// The assignment of values to variables; SKIP where there is none.
#[tactic(auto, unfolding(crate::specs::tree))]
fn assigned_if_any(vars: NameList, values: Exprs) -> Proc
    ensures { tree result ≡ assignment (numbers vars) (exps values) }
{
    if vars.items().is_empty() {
        return Proc::Skip;
    }
    assignment_of(vars, values)
}

/// The variables but for one.
fn kept_vars(alloc: Global, vars: &[Name], var: Name) -> Result<NameList, Memory>
    ensures { IfOk result (λ kept. numbers kept ≡ names_without var.0 (numbers vars.now)) }
{
    let mut kept = NameList::new(alloc);
    let mut rest = vars;
    while let [name, more @ ..] = rest {
        if var != *name {
            kept.push(*name)?;
        }
        rest = more;
    }
    Ok(kept)
}

/// The right sides of the pairs for other variables than one.
fn kept_values(alloc: Global, pairs: &Pairs<'_>, var: Name) -> Result<Exprs, Memory>
    ensures { IfOk result (λ kept. exps kept ≡ values_without var.0 (numbers pairs.now.vars.now) (exps pairs.now.values.now)) }
{
    let mut kept = Exprs::new(alloc);
    let mut vars = pairs.vars;
    let mut values = pairs.values;
    while let [name, more @ ..] = vars {
        let [value, more_values @ ..] = values else {
            return Ok(kept);
        };
        if var != *name {
            kept.push(value.copy(alloc)?)?;
        }
        vars = more;
        values = more_values;
    }
    Ok(kept)
}
