ghost use Rattle.std.specs.Prelude.{◌≡◌, IfOk, OnOk};
ghost use Rattle.occ_syntax.specs.Tree.{and_branch};
ghost use Rattle.occ_syntax.specs.View.{branches, exp, in_alternatives, tree, waiting};
ghost use Rattle.occ_law_shape.specs.occ_law.Instances.{IsOnly, sizes};
ghost use Rattle.occ_law_shape.specs.occ_law.Lists.{all_branches};
ghost use Rattle.occ_law_shape.specs.occ_law.Parallel.{ParExpand, first_goes, meeting, meetings, meetings_of, second_goes};
ghost use Rattle.occ_law_par.specs.Made.{IsPassed, IsPut};

use crate::made::{beside, passing};
use crate::right_parts::two_of;
use occ_law_shape::{LawPlace as Place, alt_of, branches_of, operated};
use occ_syntax::{Alternatives, Expr, Guard, Memory, Name, Op, Proc, Wait};
use std::alloc::Global;

/// PAR(L, M), both ALTs = the ALT of the branches of L, each process with M behind it; the branches of M, each process
/// with L before it; and for each branch of L those in which it communicates with a branch of M
pub(crate) fn par_expand(alloc: Global, left: &Proc, place: Place) -> Result<Option<Proc>, Memory>
    ensures { IfOk result (IsOnly (ParExpand (sizes place)) (tree left.now)) }
{
    let Some((first, second)) = two_of(left, place) else {
        return Ok(None);
    };
    let Some(firsts) = branches_of(first) else {
        return Ok(None);
    };
    let Some(seconds) = branches_of(second) else {
        return Ok(None);
    };
    let mut made = Alternatives::new(alloc);
    add_first(alloc, &mut made, firsts, second)?;
    add_second(alloc, &mut made, first, seconds)?;
    add_meetings(alloc, &mut made, firsts, seconds)?;
    Ok(Some(alt_of(made)))
}

/// Adds a branch.
fn add(made: &mut Alternatives, guard: Guard, process: Proc) -> Result<(), Memory>
    ensures { OnOk result (IsPut (and_branch (exp guard.condition) (waiting guard.wait) (tree process))
        (branches (in_alternatives made.old)) (branches (in_alternatives made.new))) }
{
    made.push((guard, process))?;
    Ok(())
}

/// Adds a branch with a copy of a guard.
fn add_as(
    alloc: Global,
    made: &mut Alternatives,
    guard: &Guard,
    process: Proc,
) -> Result<(), Memory>
    ensures { OnOk result (IsPut (and_branch (exp guard.now.condition) (waiting guard.now.wait) (tree process))
        (branches (in_alternatives made.old)) (branches (in_alternatives made.new))) }
{
    let same = guard.copy(alloc)?;
    add(made, same, process)?;
    Ok(())
}

/// Adds the branches in which one of the first ALT goes, and the second ALT waits.
fn add_first(
    alloc: Global,
    made: &mut Alternatives,
    firsts: &[(Guard, Proc)],
    second: &Proc,
) -> Result<(), Memory>
    ensures { OnOk result (IsPut (all_branches (first_goes (branches firsts.now) (tree second.now)))
        (branches (in_alternatives made.old)) (branches (in_alternatives made.new))) }
{
    let mut rest = firsts;
    while let [branch, more @ ..] = rest {
        let one = branch.1.copy(alloc)?;
        let other = second.copy(alloc)?;
        let both = beside(alloc, one, other)?;
        add_as(alloc, made, &branch.0, both)?;
        rest = more;
    }
    Ok(())
}

/// Adds the branches in which one of the second ALT goes, and the first ALT waits.
fn add_second(
    alloc: Global,
    made: &mut Alternatives,
    first: &Proc,
    seconds: &[(Guard, Proc)],
) -> Result<(), Memory>
    ensures { OnOk result (IsPut (all_branches (second_goes (tree first.now) (branches seconds.now)))
        (branches (in_alternatives made.old)) (branches (in_alternatives made.new))) }
{
    let mut rest = seconds;
    while let [branch, more @ ..] = rest {
        let one = first.copy(alloc)?;
        let other = branch.1.copy(alloc)?;
        let both = beside(alloc, one, other)?;
        add_as(alloc, made, &branch.0, both)?;
        rest = more;
    }
    Ok(())
}

/// Adds the branches in which each branch of one list meets each of another.
fn add_meetings(
    alloc: Global,
    made: &mut Alternatives,
    firsts: &[(Guard, Proc)],
    seconds: &[(Guard, Proc)],
) -> Result<(), Memory>
    ensures { OnOk result (branches (in_alternatives made.new)
        ≡ all_branches (branches (in_alternatives made.old)) (meetings (branches firsts.now) (branches seconds.now))) }
{
    let mut rest = firsts;
    while let [first, more @ ..] = rest {
        add_meetings_of(alloc, made, first, seconds)?;
        rest = more;
    }
    Ok(())
}

/// Adds the branches in which one branch meets each of a list.
fn add_meetings_of(
    alloc: Global,
    made: &mut Alternatives,
    first: &(Guard, Proc),
    seconds: &[(Guard, Proc)],
) -> Result<(), Memory>
    ensures { OnOk result (IsPut
        (meetings_of (exp first.now.0.condition) (waiting first.now.0.wait) (tree first.now.1) (branches seconds.now))
        (branches (in_alternatives made.old)) (branches (in_alternatives made.new))) }
{
    let mut rest = seconds;
    while let [second, more @ ..] = rest {
        add_meeting(alloc, made, first, second)?;
        rest = more;
    }
    Ok(())
}

/// Adds the branch in which two branches meet, where they do.
fn add_meeting(
    alloc: Global,
    made: &mut Alternatives,
    first: &(Guard, Proc),
    second: &(Guard, Proc),
) -> Result<(), Memory>
    ensures { OnOk result (IsPut (meeting (exp first.now.0.condition) (waiting first.now.0.wait) (tree first.now.1)
        (exp second.now.0.condition) (waiting second.now.0.wait) (tree second.now.1))
        (branches (in_alternatives made.old)) (branches (in_alternatives made.new))) }
{
    let Some((var, value)) = passed(&first.0.wait, &second.0.wait) else {
        return Ok(());
    };
    let condition = operated(alloc, Op::And, &first.0.condition, &second.0.condition)?;
    let guard = Guard {
        condition,
        wait: Wait::Skip,
    };
    let process = passing(alloc, var, value, &first.1, &second.1)?;
    add(made, guard, process)?;
    Ok(())
}

/// The variable and the value that two guards pass, where one outputs on the channel from which the other inputs; None
/// exactly where they don't.
fn passed<'a>(first: &'a Wait, second: &'a Wait) -> Option<(Name, &'a Expr)>
    ensures { IsPassed (waiting first.now) (waiting second.now) result }
{
    match first {
        Wait::Skip => None,
        Wait::Get { chan, var } => match second {
            Wait::Put { chan: other, value } => {
                if chan == other {
                    Some((*var, value))
                } else {
                    None
                }
            }
            _ => None,
        },
        Wait::Put { chan, value } => match second {
            Wait::Get { chan: other, var } => {
                if chan == other {
                    Some((*var, value))
                } else {
                    None
                }
            }
            _ => None,
        },
    }
}
