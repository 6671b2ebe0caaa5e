ghost use Rattle.std.specs.Prelude.{◌≡◌, ◌∷◌, ◌++◌, [], IfOk, IfSome};
ghost use Rattle.occ_syntax.specs.View.{in_alternatives, in_choices, in_procs, tree};
ghost use Rattle.occ_norm_arrange.specs.Arranged.{IsArranged};
ghost use Rattle.occ_norm_arrange.specs.FlatArranged.{IsBranch, IsChoice, IsPart, Pairwise};

use occ_syntax::{Alternatives, Choices, Expr, Guard, Memory, Proc, Procs};
use std::alloc::Global;

// A part as it is arranged, or a copy of it where it stays.
fn part_as(alloc: Global, part: &Proc, other: Option<Proc>) -> Result<Proc, Memory>
    requires { IfSome other (λ q. IsArranged (tree part.now) (tree q)) }
    ensures { IfOk result (λ q. IsPart part.now q) }
{
    match other {
        Some(other) => Ok(other),
        None => part.copy(alloc),
    }
}

// The same of a choice of an IF.
fn choice_as(
    alloc: Global,
    choice: &(Expr, Proc),
    other: Option<Proc>,
) -> Result<(Expr, Proc), Memory>
    requires { IfSome other (λ q. IsArranged (tree choice.now.1) (tree q)) }
    ensures { IfOk result (λ d. IsChoice choice.now d) }
{
    let condition = choice.0.copy(alloc)?;
    let part = part_as(alloc, &choice.1, other)?;
    Ok((condition, part))
}

// The same of an alternative.
fn branch_as(
    alloc: Global,
    branch: &(Guard, Proc),
    other: Option<Proc>,
) -> Result<(Guard, Proc), Memory>
    requires { IfSome other (λ q. IsArranged (tree branch.now.1) (tree q)) }
    ensures { IfOk result (λ d. IsBranch branch.now d) }
{
    let guard = branch.0.copy(alloc)?;
    let part = part_as(alloc, &branch.1, other)?;
    Ok((guard, part))
}

// Copies of parts.
fn copied_parts(alloc: Global, parts: &[Proc]) -> Result<Procs, Memory>
    ensures { IfOk result (λ r. Pairwise IsPart parts.now (in_procs r)) }
{
    let mut copies = Procs::new(alloc);
    for part in parts {
        copies.push(part_as(alloc, part, None)?)?;
    }
    Ok(copies)
}

// Those that were found, or else copies of all.
fn parts_or_copies(alloc: Global, parts: &[Proc], found: Option<Procs>) -> Result<Procs, Memory>
    requires { IfSome found (λ r. Pairwise IsPart parts.now (in_procs r)) }
    ensures { IfOk result (λ r. Pairwise IsPart parts.now (in_procs r)) }
{
    match found {
        Some(found) => Ok(found),
        None => copied_parts(alloc, parts),
    }
}

// Copies of choices.
fn copied_choices(alloc: Global, choices: &[(Expr, Proc)]) -> Result<Choices, Memory>
    ensures { IfOk result (λ r. Pairwise IsChoice choices.now (in_choices r)) }
{
    let mut copies = Choices::new(alloc);
    for choice in choices {
        copies.push(choice_as(alloc, choice, None)?)?;
    }
    Ok(copies)
}

// Those that were found, or else copies of all.
fn choices_or_copies(
    alloc: Global,
    choices: &[(Expr, Proc)],
    found: Option<Choices>,
) -> Result<Choices, Memory>
    requires { IfSome found (λ r. Pairwise IsChoice choices.now (in_choices r)) }
    ensures { IfOk result (λ r. Pairwise IsChoice choices.now (in_choices r)) }
{
    match found {
        Some(found) => Ok(found),
        None => copied_choices(alloc, choices),
    }
}

// Copies of alternatives.
fn copied_branches(alloc: Global, branches: &[(Guard, Proc)]) -> Result<Alternatives, Memory>
    ensures { IfOk result (λ r. Pairwise IsBranch branches.now (in_alternatives r)) }
{
    let mut copies = Alternatives::new(alloc);
    for branch in branches {
        copies.push(branch_as(alloc, branch, None)?)?;
    }
    Ok(copies)
}

// Those that were found, or else copies of all.
fn branches_or_copies(
    alloc: Global,
    branches: &[(Guard, Proc)],
    found: Option<Alternatives>,
) -> Result<Alternatives, Memory>
    requires { IfSome found (λ r. Pairwise IsBranch branches.now (in_alternatives r)) }
    ensures { IfOk result (λ r. Pairwise IsBranch branches.now (in_alternatives r)) }
{
    match found {
        Some(found) => Ok(found),
        None => copied_branches(alloc, branches),
    }
}

/// Some parts with one more behind them, where one of all these is arranged: found has those in front, if one of them is.
pub fn more_parts(
    alloc: Global,
    before: &[Proc],
    part: &Proc,
    found: Option<Procs>,
    other: Option<Proc>,
) -> Result<Option<Procs>, Memory>
    requires found { IfSome found (λ r. Pairwise IsPart before.now (in_procs r)) }
    requires other { IfSome other (λ q. IsArranged (tree part.now) (tree q)) }
    ensures { IfOk result (λ now. IfSome now (λ r. Pairwise IsPart (before.now ++ part.now ∷ []) (in_procs r))) }
{
    if found.is_none() && other.is_none() {
        return Ok(None);
    }
    let mut list = parts_or_copies(alloc, before, found)?;
    list.push(part_as(alloc, part, other)?)?;
    Ok(Some(list))
}

/// The same of choices.
pub fn more_choices(
    alloc: Global,
    before: &[(Expr, Proc)],
    choice: &(Expr, Proc),
    found: Option<Choices>,
    other: Option<Proc>,
) -> Result<Option<Choices>, Memory>
    requires found { IfSome found (λ r. Pairwise IsChoice before.now (in_choices r)) }
    requires other { IfSome other (λ q. IsArranged (tree choice.now.1) (tree q)) }
    ensures { IfOk result (λ now. IfSome now (λ r. Pairwise IsChoice (before.now ++ choice.now ∷ []) (in_choices r))) }
{
    if found.is_none() && other.is_none() {
        return Ok(None);
    }
    let mut list = choices_or_copies(alloc, before, found)?;
    list.push(choice_as(alloc, choice, other)?)?;
    Ok(Some(list))
}

/// The same of alternatives.
pub fn more_branches(
    alloc: Global,
    before: &[(Guard, Proc)],
    branch: &(Guard, Proc),
    found: Option<Alternatives>,
    other: Option<Proc>,
) -> Result<Option<Alternatives>, Memory>
    requires found { IfSome found (λ r. Pairwise IsBranch before.now (in_alternatives r)) }
    requires other { IfSome other (λ q. IsArranged (tree branch.now.1) (tree q)) }
    ensures { IfOk result (λ now. IfSome now (λ r. Pairwise IsBranch (before.now ++ branch.now ∷ []) (in_alternatives r))) }
{
    if found.is_none() && other.is_none() {
        return Ok(None);
    }
    let mut list = branches_or_copies(alloc, before, found)?;
    list.push(branch_as(alloc, branch, other)?)?;
    Ok(Some(list))
}
