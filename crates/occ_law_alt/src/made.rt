ghost use Rattle.std.specs.Prelude.{◌≡◌, IfOk, OnOk, true};
ghost use Rattle.occ_syntax.specs.Tree.{alt, ready, truth};
ghost use Rattle.occ_syntax.specs.View.{branches, exp, in_alternatives, tree, waiting};
ghost use Rattle.occ_law_shape.specs.occ_law.Lists.{all_branches};
ghost use Rattle.occ_law_alt.specs.Fronts.{in_front, IsSameBranch};

use occ_law_shape::alt_of;
use occ_syntax::{Alternatives, Expr, Guard, Memory, Proc, Wait};
use std::alloc::Global;

/// A branch TRUE & SKIP of a process.
pub(crate) fn skip_branch(process: Proc) -> (Guard, Proc)
    ensures condition { exp result.0.condition ≡ truth true }
    ensures wait { waiting result.0.wait ≡ ready }
    ensures process { tree result.1 ≡ tree process }
{
    let guard = Guard {
        condition: Expr::Bool(true),
        wait: Wait::Skip,
    };
    (guard, process)
}

/// A copy of a branch.
pub(crate) fn copied(alloc: Global, branch: &(Guard, Proc)) -> Result<(Guard, Proc), Memory>
    ensures { IfOk result (λ copy. IsSameBranch copy branch.now) }
{
    Ok((branch.0.copy(alloc)?, branch.1.copy(alloc)?))
}

/// Adds copies of branches at the end of a list.
pub(crate) fn add_copies(
    alloc: Global,
    made: &mut Alternatives,
    more: &[(Guard, Proc)],
) -> Result<(), Memory>
    ensures { OnOk result (branches (in_alternatives made.new) ≡ all_branches (branches (in_alternatives made.old)) (branches more.now)) }
{
    for (guard, process) in more {
        made.push((guard.copy(alloc)?, process.copy(alloc)?))?;
    }
    Ok(())
}

/// A list of copies of branches.
pub(crate) fn copies(alloc: Global, alternatives: &[(Guard, Proc)]) -> Result<Alternatives, Memory>
    ensures { IfOk result (λ made. branches (in_alternatives made) ≡ branches alternatives.now) }
{
    let mut made = Alternatives::new(alloc);
    add_copies(alloc, &mut made, alternatives)?;
    Ok(made)
}

/// The ALT of copies of branches.
pub(crate) fn alt_of_copies(alloc: Global, alternatives: &[(Guard, Proc)]) -> Result<Proc, Memory>
    ensures { IfOk result (λ part. tree part ≡ alt (branches alternatives.now)) }
{
    Ok(alt_of(copies(alloc, alternatives)?))
}

/// The ALT of copies of two lists of branches, one behind the other.
pub(crate) fn joined(
    alloc: Global,
    front: &[(Guard, Proc)],
    rest: &[(Guard, Proc)],
) -> Result<Proc, Memory>
    ensures { IfOk result (λ part. tree part ≡ alt (all_branches (branches front.now) (branches rest.now))) }
{
    let mut made = copies(alloc, front)?;
    add_copies(alloc, &mut made, rest)?;
    Ok(alt_of(made))
}

/// The ALT of copies of three lists of branches, one behind the other.
pub(crate) fn linked(
    alloc: Global,
    front: &[(Guard, Proc)],
    middle: &[(Guard, Proc)],
    rest: &[(Guard, Proc)],
) -> Result<Proc, Memory>
    ensures { IfOk result (λ part. tree part
        ≡ alt (all_branches (branches front.now) (all_branches (branches middle.now) (branches rest.now)))) }
{
    let mut made = copies(alloc, front)?;
    add_copies(alloc, &mut made, middle)?;
    add_copies(alloc, &mut made, rest)?;
    Ok(alt_of(made))
}

/// The ALT of copies of two lists of branches, with a branch between them.
pub(crate) fn around(
    alloc: Global,
    front: &[(Guard, Proc)],
    branch: (Guard, Proc),
    rest: &[(Guard, Proc)],
) -> Result<Proc, Memory>
    ensures { IfOk result (λ part. tree part ≡ alt (all_branches (branches front.now) (in_front branch (branches rest.now)))) }
{
    let mut made = copies(alloc, front)?;
    made.push(branch)?;
    add_copies(alloc, &mut made, rest)?;
    Ok(alt_of(made))
}

/// The ALT of copies of three lists of branches, with a branch behind the first of them.
pub(crate) fn exchanged(
    alloc: Global,
    front: &[(Guard, Proc)],
    branch: (Guard, Proc),
    middle: &[(Guard, Proc)],
    rest: &[(Guard, Proc)],
) -> Result<Proc, Memory>
    ensures { IfOk result (λ part. tree part
        ≡ alt (all_branches (branches front.now) (in_front branch (all_branches (branches middle.now) (branches rest.now))))) }
{
    let mut made = copies(alloc, front)?;
    made.push(branch)?;
    add_copies(alloc, &mut made, middle)?;
    add_copies(alloc, &mut made, rest)?;
    Ok(alt_of(made))
}
