ghost use Rattle.std.specs.Prelude.{◌≡◌, IfOk, OnOk};
ghost use Rattle.occ_syntax.specs.Tree.{and_branch, and_case, assign, no_branch, no_case, seq};
ghost use Rattle.occ_syntax.specs.View.{branches, cases, exp, exps, in_alternatives, in_choices, in_procs, numbers, tree, trees, waiting};
ghost use Rattle.occ_law_scope.specs.occ_meaning.Parallel.{all_of, one};
ghost use Rattle.occ_law_seq.specs.occ_law.Lists.{all_branches, all_cases};

use occ_law_seq::{Pairs, add_copies, seq_of};
use occ_syntax::{Alternatives, Choices, Expr, Exprs, Guard, Memory, Name, NameList, Proc, Procs};
use std::alloc::Global;

/// The assignment of values to variables.
#[tactic(auto, unfolding(crate::specs::tree))]
pub(crate) fn assignment_of(vars: NameList, values: Exprs) -> Proc
    ensures { tree result ≡ assign (numbers vars) (exps values) }
{
    Proc::Assign { vars, values }
}

/// Adds a part.
pub(crate) fn add(made: &mut Procs, part: Proc) -> Result<(), Memory>
    ensures { OnOk result (trees (in_procs made.new) ≡ all_of (trees (in_procs made.old)) (one (tree part))) }
{
    made.push(part)?;
    Ok(())
}

/// A list of copies of parts.
pub(crate) fn copied(alloc: Global, parts: &[Proc]) -> Result<Procs, Memory>
    ensures { IfOk result (λ made. trees (in_procs made) ≡ trees parts.now) }
{
    let mut made = Procs::new(alloc);
    add_copies(alloc, &mut made, parts)?;
    Ok(made)
}

/// The SEQ of parts and of copies of those behind them.
pub(crate) fn finished(alloc: Global, mut made: Procs, behind: &[Proc]) -> Result<Proc, Memory>
    ensures { IfOk result (λ part. tree part ≡ seq (all_of (trees (in_procs made)) (trees behind.now))) }
{
    add_copies(alloc, &mut made, behind)?;
    Ok(seq_of(made))
}

/// Adds a choice.
pub(crate) fn add_choice(made: &mut Choices, condition: Expr, part: Proc) -> Result<(), Memory>
    ensures { OnOk result (cases (in_choices made.new)
        ≡ all_cases (cases (in_choices made.old)) (and_case (exp condition) (tree part) no_case)) }
{
    made.push((condition, part))?;
    Ok(())
}

/// Adds an alternative.
pub(crate) fn add_branch(made: &mut Alternatives, guard: Guard, part: Proc) -> Result<(), Memory>
    ensures { OnOk result (branches (in_alternatives made.new)
        ≡ all_branches (branches (in_alternatives made.old))
        (and_branch (exp guard.condition) (waiting guard.wait) (tree part) no_branch)) }
{
    made.push((guard, part))?;
    Ok(())
}

/// A list of the same names.
pub(crate) fn copied_names(alloc: Global, names: &[Name]) -> Result<NameList, Memory>
    ensures { IfOk result (λ made. numbers made ≡ numbers names.now) }
{
    let mut made = NameList::new(alloc);
    for name in names {
        made.push(*name)?;
    }
    Ok(made)
}

/// A list of copies of expressions.
fn copied_values(alloc: Global, values: &[Expr]) -> Result<Exprs, Memory>
    ensures { IfOk result (λ made. exps made ≡ exps values.now) }
{
    let mut made = Exprs::new(alloc);
    for value in values {
        made.push(value.copy(alloc)?)?;
    }
    Ok(made)
}

/// The assignment of pairs.
pub(crate) fn assigned(alloc: Global, pairs: &Pairs<'_>) -> Result<Proc, Memory>
    ensures { IfOk result (λ part. tree part ≡ assign (numbers pairs.now.vars.now) (exps pairs.now.values.now)) }
{
    let vars = copied_names(alloc, pairs.vars)?;
    let values = copied_values(alloc, pairs.values)?;
    Ok(assignment_of(vars, values))
}
