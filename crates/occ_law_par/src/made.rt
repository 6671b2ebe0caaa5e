ghost use Rattle.std.specs.Prelude.{◌≡◌, [], ◌∷◌, IfOk};
ghost use Rattle.occ_syntax.specs.Tree.{assign, par};
ghost use Rattle.occ_syntax.specs.View.{cases, exp, in_choices, tree};
ghost use Rattle.occ_law_shape.specs.occ_meaning.Parallel.{two};
ghost use Rattle.occ_law_shape.specs.occ_law.Parallel.{both_go, each_case_beside};

use occ_law_shape::{in_turn, list_of_two, par_of};
use occ_syntax::{Choices, Expr, Exprs, List, Memory, Name, Proc};
use std::alloc::Global;

/// The PAR of two processes.
pub(crate) fn beside(alloc: Global, first: Proc, second: Proc) -> Result<Proc, Memory>
    ensures { IfOk result (λ whole. tree whole ≡ par (two (tree first) (tree second))) }
{
    let parts = list_of_two(alloc, first, second)?;
    Ok(par_of(parts))
}

/// Copies of choices, each process with another one beside it.
pub(crate) fn choices_beside(
    alloc: Global,
    choices: &[(Expr, Proc)],
    second: &Proc,
) -> Result<Choices, Memory>
    ensures { IfOk result (λ made. cases (in_choices made) ≡ each_case_beside (cases choices.now) (tree second.now)) }
{
    let mut made = Choices::new(alloc);
    let mut rest = choices;
    while let [choice, more @ ..] = rest {
        let condition = choice.0.copy(alloc)?;
        let one = choice.1.copy(alloc)?;
        let other = second.copy(alloc)?;
        let whole = beside(alloc, one, other)?;
        made.push((condition, whole))?;
        rest = more;
    }
    Ok(made)
}

/// The assignment of a value to a variable.
#[tactic(auto, unfolding(crate::specs::tree))]
fn assignment(alloc: Global, var: Name, value: &Expr) -> Result<Proc, Memory>
    ensures { IfOk result (λ part. tree part ≡ assign (var.0 ∷ []) (exp value.now ∷ [])) }
{
    let mut vars = List::new(alloc);
    vars.push(var)?;
    let mut values = Exprs::new(alloc);
    values.push(value.copy(alloc)?)?;
    Ok(Proc::Assign { vars, values })
}

/// The process that passes a value to a variable and goes on with the PAR of two.
pub(crate) fn passing(
    alloc: Global,
    var: Name,
    value: &Expr,
    first: &Proc,
    second: &Proc,
) -> Result<Proc, Memory>
    ensures { IfOk result (λ part. tree part ≡ both_go var.0 (exp value.now) (tree first.now) (tree second.now)) }
{
    let assigned = assignment(alloc, var, value)?;
    let one = first.copy(alloc)?;
    let other = second.copy(alloc)?;
    let rest = beside(alloc, one, other)?;
    Ok(in_turn(alloc, assigned, rest)?)
}
