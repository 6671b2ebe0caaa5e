ghost use Rattle.std.specs.Prelude.{◌≡◌, IfOk, OnOk};
ghost use Rattle.occ_syntax.specs.Tree.{and_case, select};
ghost use Rattle.occ_syntax.specs.View.{cases, exp, in_choices, tree};
ghost use Rattle.occ_law_shape.specs.occ_law.Choice.{each_case_under};
ghost use Rattle.occ_law_shape.specs.occ_law.Lists.{all_cases};
ghost use Rattle.occ_law_if.specs.Made.{IsPut};

use occ_law_shape::{if_of, operated};
use occ_syntax::{Choices, Expr, Memory, Op, Proc};
use std::alloc::Global;

/// Adds a choice.
pub(crate) fn add(made: &mut Choices, condition: Expr, process: Proc) -> Result<(), Memory>
    ensures { OnOk result (IsPut (and_case (exp condition) (tree process)) (cases (in_choices made.old)) (cases (in_choices made.new))) }
{
    made.push((condition, process))?;
    Ok(())
}

/// Adds a copy of a choice.
pub(crate) fn add_copy(
    alloc: Global,
    made: &mut Choices,
    condition: &Expr,
    process: &Proc,
) -> Result<(), Memory>
    ensures { OnOk result (IsPut (and_case (exp condition.now) (tree process.now))
        (cases (in_choices made.old)) (cases (in_choices made.new))) }
{
    let same = condition.copy(alloc)?;
    let part = process.copy(alloc)?;
    add(made, same, part)?;
    Ok(())
}

/// Adds copies of choices.
fn add_copies(alloc: Global, made: &mut Choices, choices: &[(Expr, Proc)]) -> Result<(), Memory>
    ensures { OnOk result (IsPut (all_cases (cases choices.now)) (cases (in_choices made.old)) (cases (in_choices made.new))) }
{
    let mut rest = choices;
    while let [choice, more @ ..] = rest {
        add_copy(alloc, made, &choice.0, &choice.1)?;
        rest = more;
    }
    Ok(())
}

/// Adds copies of choices, each asking for a condition as well.
pub(crate) fn add_under(
    alloc: Global,
    made: &mut Choices,
    condition: &Expr,
    choices: &[(Expr, Proc)],
) -> Result<(), Memory>
    ensures { OnOk result (IsPut (all_cases (each_case_under (exp condition.now) (cases choices.now)))
        (cases (in_choices made.old)) (cases (in_choices made.new))) }
{
    let mut rest = choices;
    while let [choice, more @ ..] = rest {
        let both = operated(alloc, Op::And, condition, &choice.0)?;
        add(made, both, choice.1.copy(alloc)?)?;
        rest = more;
    }
    Ok(())
}

/// A list of copies of choices.
pub(crate) fn copied(alloc: Global, choices: &[(Expr, Proc)]) -> Result<Choices, Memory>
    ensures { IfOk result (λ made. cases (in_choices made) ≡ cases choices.now) }
{
    let mut made = Choices::new(alloc);
    add_copies(alloc, &mut made, choices)?;
    Ok(made)
}

/// The IF of choices and of copies of those behind them.
pub(crate) fn finished(
    alloc: Global,
    mut made: Choices,
    behind: &[(Expr, Proc)],
) -> Result<Proc, Memory>
    ensures { IfOk result (λ part. tree part ≡ select (all_cases (cases (in_choices made)) (cases behind.now))) }
{
    add_copies(alloc, &mut made, behind)?;
    Ok(if_of(made))
}
