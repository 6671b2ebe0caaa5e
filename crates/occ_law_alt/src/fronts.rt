ghost use Rattle.std.specs.Prelude.{◌≡◌, ◌↔◌, IsTrue};
ghost use Rattle.occ_syntax.specs.View.{exp, waiting, tree, branches};
ghost use Rattle.occ_law_shape.specs.occ_law.Lists.{all_branches};
ghost use Rattle.occ_law_alt.specs.Fronts.{BeginsWithAlt, BeginsWithSkip, EndsWithAlt, IsAfter, IsBehind};

use crate::guards::is_skip;
use occ_law_shape::{Form, opened};
use occ_syntax::{Guard, Proc, same_branch, same_branches};

/// What stands in a list behind its first branch, where that is this one; None exactly where it isn't.
pub(crate) fn after<'a>(
    branch: &(Guard, Proc),
    all: &'a [(Guard, Proc)],
) -> Option<&'a [(Guard, Proc)]>
    ensures { IsAfter branch.now (branches all.now) result }
{
    let [first, rest @ ..] = all else {
        return None;
    };
    if same_branch(first, branch) {
        Some(rest)
    } else {
        None
    }
}

/// What stands in a list behind the branches of another, where it begins with these; None exactly where it doesn't.
pub fn behind<'a>(first: &[(Guard, Proc)], all: &'a [(Guard, Proc)]) -> Option<&'a [(Guard, Proc)]>
    ensures { IsBehind (branches first.now) (branches all.now) result }
{
    let mut front = first;
    let mut rest = all;
    while let [branch, more @ ..] = front {
        match after(branch, rest) {
            Some(found) => {
                front = more;
                rest = found;
            }
            None => return None,
        }
    }
    Some(rest)
}

/// Whether a list is two others, one behind the other.
pub(crate) fn is_joined(
    whole: &[(Guard, Proc)],
    front: &[(Guard, Proc)],
    rest: &[(Guard, Proc)],
) -> bool
    ensures { IsTrue result ↔ (branches whole.now ≡ all_branches (branches front.now) (branches rest.now)) }
{
    match behind(front, whole) {
        Some(found) => same_branches(found, rest),
        None => false,
    }
}

/// The process of a list's first branch and the rest, where that branch has the guard TRUE & SKIP; None exactly where
/// it hasn't.
pub fn skip_first(all: &[(Guard, Proc)]) -> Option<(&Proc, &[(Guard, Proc)])>
    ensures { BeginsWithSkip (branches all.now) result }
{
    let [first, rest @ ..] = all else {
        return None;
    };
    if is_skip(&first.0) {
        Some((&first.1, rest))
    } else {
        None
    }
}

/// The branches of the ALT under a list's first guard and the rest, where that guard is TRUE & SKIP and an ALT stands
/// under it; None exactly where it isn't so.
pub fn alt_first(all: &[(Guard, Proc)]) -> Option<(&[(Guard, Proc)], &[(Guard, Proc)])>
    ensures { BeginsWithAlt (branches all.now) result }
{
    match skip_first(all) {
        Some((process, rest)) => match opened(process) {
            Form::Alt(inner) => Some((inner, rest)),
            _ => None,
        },
        None => None,
    }
}

/// The branches in front of a list's last guard, and those of the ALT under it, where that guard is TRUE & SKIP and an
/// ALT stands under it; None exactly where it isn't so.
pub(crate) fn alt_last(all: &[(Guard, Proc)]) -> Option<(&[(Guard, Proc)], &[(Guard, Proc)])>
    ensures { EndsWithAlt (branches all.now) result }
{
    let Some((last, front)) = all.split_last() else {
        return None;
    };
    if !is_skip(&last.0) {
        return None;
    }
    match opened(&last.1) {
        Form::Alt(inner) => Some((front, inner)),
        _ => None,
    }
}
