ghost use Rattle.occ_syntax.specs.Tree.{and_branch};
ghost use Rattle.occ_syntax.specs.View.{exp, waiting, tree, branches};
ghost use Rattle.occ_law_shape.specs.occ_law.Lists.{all_branches};
ghost use Rattle.occ_law_shape.specs.occ_law.Parallel.{ParExpand};
ghost use Rattle.occ_law_shape.specs.Answer.{IsAnswer};
ghost use Rattle.occ_law_par.specs.Expand.{IsAlt, IsRest, each_beside, run_beside};

use crate::meet::are_meetings;
use crate::pairs::two_in_par;
use crate::running::{Beside, runs_beside};
use occ_law_shape::{Form, opened};
use occ_syntax::{Guard, Proc, same_expr, same_wait};

/// PAR(L, M), both ALTs = the ALT of the branches of L, each process with M behind it; the branches of M, each process
/// with L before it; and for each branch of L those in which it communicates with a branch of M
pub(crate) fn par_expand(left: &Proc, right: &Proc) -> bool
    ensures { IsAnswer ParExpand (tree left.now) (tree right.now) result }
{
    let Some((first, second)) = two_in_par(left) else {
        return false;
    };
    let Some(firsts) = alternatives(first) else {
        return false;
    };
    let Some(seconds) = alternatives(second) else {
        return false;
    };
    let Some(others) = alternatives(right) else {
        return false;
    };
    let Some(further) = behind_beside(Beside::Behind(second), firsts, others) else {
        return false;
    };
    let Some(last) = behind_beside(Beside::Before(first), seconds, further) else {
        return false;
    };
    are_meetings(firsts, seconds, last)
}

/// The branches of an ALT; None exactly where the process isn't one.
fn alternatives(part: &Proc) -> Option<&[(Guard, Proc)]>
    ensures { IsAlt (tree part.now) result }
{
    match opened(part) {
        Form::Alt(alternatives) => Some(alternatives),
        _ => None,
    }
}

/// What stands in a list of branches behind those of another list, each process with what runs beside it; None exactly
/// where the list doesn't begin with these.
fn behind_beside<'a>(
    beside: Beside<'_>,
    alternatives: &[(Guard, Proc)],
    others: &'a [(Guard, Proc)],
) -> Option<&'a [(Guard, Proc)]>
    ensures { IsRest (all_branches (each_beside beside.entry (branches alternatives.now))) (branches others.now) result }
{
    let mut front = alternatives;
    let mut rest = others;
    while let [branch, more @ ..] = front {
        rest = behind_branch(beside, branch, rest)?;
        front = more;
    }
    Some(rest)
}

/// What stands in a list of branches behind that branch, its process with what runs beside it; None exactly where the
/// list doesn't begin with it.
fn behind_branch<'a>(
    beside: Beside<'_>,
    branch: &(Guard, Proc),
    others: &'a [(Guard, Proc)],
) -> Option<&'a [(Guard, Proc)]>
    ensures { IsRest (and_branch (exp branch.now.0.condition) (waiting branch.now.0.wait) (run_beside beside.entry (tree branch.now.1)))
        (branches others.now) result }
{
    let [other, rest @ ..] = others else {
        return None;
    };
    if !same_expr(&other.0.condition, &branch.0.condition) {
        return None;
    }
    if !same_wait(&other.0.wait, &branch.0.wait) {
        return None;
    }
    if !runs_beside(beside, &branch.1, &other.1) {
        return None;
    }
    Some(rest)
}
