ghost use Rattle.std.specs.Prelude.{◌≡◌, ◌↔◌, IfOk, IsTrue, true};
ghost use Rattle.occ_syntax.specs.Tree.{Branches};
ghost use Rattle.occ_syntax.specs.View.{tree, branches};
ghost use Rattle.occ_law_shape.specs.occ_law.Choice.{AltLeast, AltSlide, are_events as all_wait, are_plain_events as all_wait_plainly};
ghost use Rattle.occ_law_shape.specs.occ_law.Lists.{all_branches};
ghost use Rattle.occ_law_shape.specs.Answer.{IsAnswer};
ghost use Rattle.occ_law_alt.specs.Fronts.{IsAltPair};

use crate::fronts::{alt_first, alt_last, behind, is_joined};
use crate::guards::{are_events, are_plain_events};
use occ_law_shape::law_case;
use occ_syntax::{Guard, Memory, Proc, same_branches};

/// ALT(gs, TRUE & SKIP ALT(gs, hs)) = ALT(gs, hs), where gs has event guards alone
pub(crate) fn alt_slide(left: &Proc, right: &Proc) -> Result<bool, Memory>
    ensures { IfOk result (IsAnswer AltSlide (tree left.now) (tree right.now)) }
{
    law_case!(left, Alt(alternatives); right, Alt(others) => match alt_last(alternatives) {
        Some((front, inner)) => Ok(is_slide(front, inner, others)),
        None => Ok(false),
    })
}

/// Whether a list waits for inputs and outputs alone, and two others are one list that begins with it.
fn is_slide(front: &[(Guard, Proc)], inner: &[(Guard, Proc)], others: &[(Guard, Proc)]) -> bool
    ensures { IsTrue result ↔ ((all_wait (branches front.now) ≡ true)
        × (branches inner.now ≡ branches others.now)
        × ((rest : Branches) × (branches others.now ≡ all_branches (branches front.now) rest))) }
{
    are_events(front) && same_branches(inner, others) && begins_with(others, front)
}

/// Whether a list of branches begins with the branches of another one.
fn begins_with(all: &[(Guard, Proc)], front: &[(Guard, Proc)]) -> bool
    ensures { IsTrue result ↔ ((rest : Branches) × (branches all.now ≡ all_branches (branches front.now) rest)) }
{
    match behind(front, all) {
        Some(_) => true,
        None => false,
    }
}

/// ALT(TRUE & SKIP ALT(gs), TRUE & SKIP ALT(gs, hs)) = ALT(hs, TRUE & SKIP ALT(gs)), event guards with TRUE alone
pub(crate) fn alt_least(left: &Proc, right: &Proc) -> Result<bool, Memory>
    ensures { IfOk result (IsAnswer AltLeast (tree left.now) (tree right.now)) }
{
    law_case!(left, Alt(alternatives); right, Alt(others) => match alt_pair(alternatives) {
        Some((less, whole)) => match alt_last(others) {
            Some((more, again)) => Ok(are_least(less, whole, more, again)),
            None => Ok(false),
        },
        None => Ok(false),
    })
}

/// The branches of two ALTs, each under a guard TRUE & SKIP, that are a whole list; None exactly where it isn't so.
pub fn alt_pair(all: &[(Guard, Proc)]) -> Option<(&[(Guard, Proc)], &[(Guard, Proc)])>
    ensures { IsAltPair (branches all.now) result }
{
    match alt_first(all) {
        Some((first, rest)) => match alt_first(rest) {
            Some((second, more)) => {
                if more.is_empty() {
                    Some((first, second))
                } else {
                    None
                }
            }
            None => None,
        },
        None => None,
    }
}

/// Whether two lists are the same and a third one is this list and a fourth one behind it, where all branches of these wait
/// for inputs and outputs with the condition TRUE.
fn are_least(
    less: &[(Guard, Proc)],
    whole: &[(Guard, Proc)],
    more: &[(Guard, Proc)],
    again: &[(Guard, Proc)],
) -> bool
    ensures { IsTrue result ↔ ((branches again.now ≡ branches less.now)
        × (branches whole.now ≡ all_branches (branches less.now) (branches more.now))
        × (all_wait_plainly (branches less.now) ≡ true)
        × (all_wait_plainly (branches more.now) ≡ true)) }
{
    same_branches(again, less)
        && is_joined(whole, less, more)
        && are_plain_events(less)
        && are_plain_events(more)
}
