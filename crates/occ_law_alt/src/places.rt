ghost use Rattle.std.specs.Prelude.{◌≡◌, ◌↔◌, IsTrue, true};
ghost use Rattle.occ_syntax.specs.Tree.{truth};
ghost use Rattle.occ_syntax.specs.View.{exp, waiting, tree, branches};
ghost use Rattle.occ_law_shape.specs.occ_law.Choice.{is_event as waits};
ghost use Rattle.occ_law_alt.specs.Fronts.{IsChoice, IsSkipPair};
ghost use Rattle.occ_law_alt.specs.Places.{FlatHere, IsChosen, IsSplit, SameHere, SplitHere, TwiceHere};

use crate::fronts::{after, alt_first, is_joined, skip_first};
use crate::guards::{has_skip, is_event};
use crate::lacking::lacks;
use crate::search::BranchPlace;
use occ_law_shape::{Form, is_truth, opened};
use occ_syntax::{Guard, Proc, same_branches, same_guard, same_proc};

/// An ALT in an ALT, whose branches take its place.
#[derive(Clone, Copy)]
pub(crate) struct Flat;

impl BranchPlace for Flat {
    ghost joins = { λ _. FlatHere };

    fn holds(&self, alternatives: &[(Guard, Proc)], others: &[(Guard, Proc)]) -> bool {
        match alt_first(alternatives) {
            Some((inner, rest)) => has_skip(inner) && is_joined(others, inner, rest),
            None => false,
        }
    }
}

/// A branch that moves into the ALT behind it, whose first branch has the same guard.
#[derive(Clone, Copy)]
pub(crate) struct Split;

impl BranchPlace for Split {
    ghost joins = { λ _. SplitHere };

    fn holds(&self, alternatives: &[(Guard, Proc)], others: &[(Guard, Proc)]) -> bool {
        let [branch, behind @ ..] = alternatives else {
            return false;
        };
        match alt_first(behind) {
            Some((inner, rest)) => match alt_first(others) {
                Some((whole, other_rest)) => is_split(branch, inner, whole)
                    && same_branches(rest, other_rest),
                None => false,
            },
            None => false,
        }
    }
}

/// Whether a branch waits for an event with the condition TRUE, the first of some others has the same guard, and a list is
/// these with the branch in front.
fn is_split(branch: &(Guard, Proc), inner: &[(Guard, Proc)], whole: &[(Guard, Proc)]) -> bool
    ensures { IsTrue result ↔ IsSplit branch.now (branches inner.now) (branches whole.now) }
{
    let [next, ..] = inner else {
        return false;
    };
    let Some(found) = after(branch, whole) else {
        return false;
    };
    is_plain_event(&branch.0) && same_guard(&next.0, &branch.0) && same_branches(found, inner)
}

/// Whether a guard waits for an input or an output, with the condition TRUE.
pub fn is_plain_event(guard: &Guard) -> bool
    ensures { IsTrue result ↔ ((exp guard.now.condition ≡ truth true) × (waits (waiting guard.now.wait) ≡ true)) }
{
    is_truth(&guard.condition) && is_event(&guard.wait)
}

/// A branch that stays, while an equal one behind it leaves.
#[derive(Clone, Copy)]
pub(crate) struct Twice;

impl BranchPlace for Twice {
    ghost joins = { λ _. TwiceHere };

    fn holds(&self, alternatives: &[(Guard, Proc)], others: &[(Guard, Proc)]) -> bool {
        let [branch, behind @ ..] = alternatives else {
            return false;
        };
        match after(branch, others) {
            Some(found) => lacks(&branch.0, &branch.1, behind, found),
            None => false,
        }
    }
}

/// A branch that chooses between its own process and the process of one with the same guard behind it, which leaves.
#[derive(Clone, Copy)]
pub(crate) struct Same;

impl BranchPlace for Same {
    ghost joins = { λ _. SameHere };

    fn holds(&self, alternatives: &[(Guard, Proc)], others: &[(Guard, Proc)]) -> bool {
        let [branch, behind @ ..] = alternatives else {
            return false;
        };
        let [other, other_behind @ ..] = others else {
            return false;
        };
        match chosen(branch, other) {
            Some(process) => lacks(&branch.0, process, behind, other_behind),
            None => false,
        }
    }
}

/// The process that a branch lets its choice be for besides the process of a given branch, where both wait for one event
/// under one condition; None exactly where it is no such choice.
fn chosen<'a>(branch: &(Guard, Proc), other: &'a (Guard, Proc)) -> Option<&'a Proc>
    ensures { IsChosen branch.now other.now result }
{
    if !is_event(&branch.0.wait) {
        return None;
    }
    if !same_guard(&other.0, &branch.0) {
        return None;
    }
    match choice(&other.1) {
        Some((first, second)) if same_proc(first, &branch.1) => Some(second),
        _ => None,
    }
}

/// The two processes between which an ALT chooses by two guards TRUE & SKIP; None exactly where a process is no such ALT.
fn choice(part: &Proc) -> Option<(&Proc, &Proc)>
    ensures { IsChoice (tree part.now) result }
{
    match opened(part) {
        Form::Alt(alternatives) => skip_pair(alternatives),
        _ => None,
    }
}

/// The two processes of a list of two branches, both with the guard TRUE & SKIP; None exactly where it isn't so.
fn skip_pair(alternatives: &[(Guard, Proc)]) -> Option<(&Proc, &Proc)>
    ensures { IsSkipPair (branches alternatives.now) result }
{
    match skip_first(alternatives) {
        Some((first, rest)) => match skip_first(rest) {
            Some((second, more)) => {
                if more.is_empty() {
                    Some((first, second))
                } else {
                    None
                }
            }
            None => None,
        },
        None => None,
    }
}
