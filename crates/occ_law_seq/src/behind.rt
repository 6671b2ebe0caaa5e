ghost use Rattle.std.specs.Prelude.{◌≡◌, ◌↔◌, IfOk, IsTrue};
ghost use Rattle.occ_syntax.specs.Tree.{and_tree, seq};
ghost use Rattle.occ_syntax.specs.View.{tree, trees};
ghost use Rattle.occ_law_shape.specs.occ_law.Sequence.{SeqAlt, SeqIf};
ghost use Rattle.occ_law_shape.specs.Answer.{IsAnswer};
ghost use Rattle.occ_law_seq.specs.Behind.{IsDivided, followed};

use occ_law_shape::{
    BranchPiece, ChoicePiece, are_branch_pieces, are_choice_pieces, law_case, shape,
};
use occ_syntax::{Expr, Guard, Memory, Proc, same_expr, same_proc, same_procs, same_wait};
use std::alloc::Global;

/// What follows each process.
#[derive(Clone, Copy)]
pub(crate) struct Followed<'a> {
    behind: &'a [Proc],
}

impl ChoicePiece for Followed<'_> {
    ghost is_ready = { λ _. Unit {0} };

    ghost condition = { λ _ b. b };

    ghost process = { λ piece p. followed (trees piece.behind.now) p };

    fn fits(
        &self,
        _alloc: Global,
        choice: &(Expr, Proc),
        other: &(Expr, Proc),
    ) -> Result<bool, Memory> {
        if !same_expr(&other.0, &choice.0) {
            return Ok(false);
        }
        Ok(is_followed(&choice.1, self.behind, &other.1))
    }
}

impl BranchPiece for Followed<'_> {
    ghost is_ready = { λ _. Unit {0} };

    ghost condition = { λ _ b. b };

    ghost wait = { λ _ w. w };

    ghost process = { λ piece _ p. followed (trees piece.behind.now) p };

    fn fits(
        &self,
        _alloc: Global,
        branch: &(Guard, Proc),
        other: &(Guard, Proc),
    ) -> Result<bool, Memory> {
        if !same_expr(&other.0.condition, &branch.0.condition) {
            return Ok(false);
        }
        if !same_wait(&other.0.wait, &branch.0.wait) {
            return Ok(false);
        }
        Ok(is_followed(&branch.1, self.behind, &other.1))
    }
}

/// The first part of a list and the rest; None exactly where the list is empty.
pub fn divided(parts: &[Proc]) -> Option<(&Proc, &[Proc])>
    ensures { IsDivided (trees parts.now) result }
{
    let [first, rest @ ..] = parts else {
        return None;
    };
    Some((first, rest))
}

/// Whether a process is a SEQ of a part and what follows it.
fn is_followed(part: &Proc, behind: &[Proc], whole: &Proc) -> bool
    ensures { IsTrue result ↔ (tree whole.now ≡ followed (trees behind.now) (tree part.now)) }
{
    match occ_law_shape::opened(whole) {
        occ_law_shape::Form::Seq(parts) => is_row(parts, part, behind),
        _ => false,
    }
}

/// Whether a list is a part and what follows it.
fn is_row(parts: &[Proc], part: &Proc, behind: &[Proc]) -> bool
    ensures { IsTrue result ↔ (trees parts.now ≡ and_tree (tree part.now) (trees behind.now)) }
{
    match divided(parts) {
        Some((first, rest)) => same_proc(first, part) && same_procs(rest, behind),
        None => false,
    }
}

/// SEQ(IF(b1 P1, .., bn Pn), Qs) = IF(b1 SEQ(P1, Qs), .., bn SEQ(Pn, Qs))
pub(crate) fn seq_if(alloc: Global, left: &Proc, right: &Proc) -> Result<bool, Memory>
    ensures { IfOk result (IsAnswer SeqIf (tree left.now) (tree right.now)) }
{
    shape!(left, Seq(parts) => match divided(parts) {
        Some((first, behind)) => if_behind(alloc, first, behind, right),
        None => Ok(false),
    })
}

fn if_behind(alloc: Global, first: &Proc, behind: &[Proc], right: &Proc) -> Result<bool, Memory>
    ensures { IfOk result (IsAnswer SeqIf (seq (and_tree (tree first.now) (trees behind.now))) (tree right.now)) }
{
    law_case!(first, If(choices); right, If(others) => {
        are_choice_pieces(alloc, &Followed { behind }, choices, others)
    })
}

/// SEQ(ALT(gs), Qs) = the ALT in which each process P is SEQ(P, Qs)
pub(crate) fn seq_alt(alloc: Global, left: &Proc, right: &Proc) -> Result<bool, Memory>
    ensures { IfOk result (IsAnswer SeqAlt (tree left.now) (tree right.now)) }
{
    shape!(left, Seq(parts) => match divided(parts) {
        Some((first, behind)) => alt_behind(alloc, first, behind, right),
        None => Ok(false),
    })
}

fn alt_behind(alloc: Global, first: &Proc, behind: &[Proc], right: &Proc) -> Result<bool, Memory>
    ensures { IfOk result (IsAnswer SeqAlt (seq (and_tree (tree first.now) (trees behind.now))) (tree right.now)) }
{
    law_case!(first, Alt(alternatives); right, Alt(others) => {
        are_branch_pieces(alloc, &Followed { behind }, alternatives, others)
    })
}
