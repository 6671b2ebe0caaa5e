ghost use Rattle.std.specs.Prelude.{◌≡◌, ◌↔◌, IfOk, IsTrue};
ghost use Rattle.occ_syntax.specs.Tree.{Exp, Tree, Waiting};
ghost use Rattle.occ_syntax.specs.View.{exp, waiting, tree, cases, branches};
ghost use Rattle.occ_law_shape.specs.Pieces.{each_branch, each_choice};

use occ_syntax::{Expr, Guard, Memory, Proc};
use std::alloc::Global;

/// What a law makes of each choice of an IF: of its condition, and of its process.
pub trait ChoicePiece {
    ghost is_ready: { Self → Type 0 };

    ghost condition: { Self → Exp → Exp };

    ghost process: { Self → Tree → Tree };

    /// Whether the second choice is what the law makes of the first one.
    fn fits(
        &self,
        alloc: Global,
        choice: &(Expr, Proc),
        other: &(Expr, Proc),
    ) -> Result<bool, Memory>
        requires { is_ready self.now }
        ensures { IfOk result (λ answer. IsTrue answer
            ↔ ((exp other.now.0 ≡ condition self.now (exp choice.now.0))
            × (tree other.now.1 ≡ process self.now (tree choice.now.1)))) };
}

/// What a law makes of each branch of an ALT: of its condition, of what it waits for, and of its process in view of that.
pub trait BranchPiece {
    ghost is_ready: { Self → Type 0 };

    ghost condition: { Self → Exp → Exp };

    ghost wait: { Self → Waiting → Waiting };

    ghost process: { Self → Waiting → Tree → Tree };

    /// Whether the second branch is what the law makes of the first one.
    fn fits(
        &self,
        alloc: Global,
        branch: &(Guard, Proc),
        other: &(Guard, Proc),
    ) -> Result<bool, Memory>
        requires { is_ready self.now }
        ensures { IfOk result (λ answer. IsTrue answer
            ↔ ((exp other.now.0.condition ≡ condition self.now (exp branch.now.0.condition))
            × (waiting other.now.0.wait ≡ wait self.now (waiting branch.now.0.wait))
            × (tree other.now.1 ≡ process self.now (waiting branch.now.0.wait) (tree branch.now.1)))) };
}

/// Whether a list of choices is what a law makes of another one, choice by choice.
pub fn are_choice_pieces<P: ChoicePiece>(
    alloc: Global,
    piece: &P,
    choices: &[(Expr, Proc)],
    others: &[(Expr, Proc)],
) -> Result<bool, Memory>
    requires { P.is_ready piece.now }
    ensures { IfOk result (λ answer. IsTrue answer
        ↔ (cases others.now ≡ each_choice (P.condition piece.now) (P.process piece.now) (cases choices.now))) }
{
    let mut rest = choices;
    let mut other_rest = others;
    while let [choice, more @ ..] = rest {
        let [other, other_more @ ..] = other_rest else {
            return Ok(false);
        };
        let is_piece = piece.fits(alloc, choice, other)?;
        if !is_piece {
            return Ok(false);
        }
        rest = more;
        other_rest = other_more;
    }
    Ok(other_rest.is_empty())
}

/// Whether a list of branches is what a law makes of another one, branch by branch.
pub fn are_branch_pieces<P: BranchPiece>(
    alloc: Global,
    piece: &P,
    alternatives: &[(Guard, Proc)],
    others: &[(Guard, Proc)],
) -> Result<bool, Memory>
    requires { P.is_ready piece.now }
    ensures { IfOk result (λ answer. IsTrue answer
        ↔ (branches others.now
        ≡ each_branch (P.condition piece.now) (P.wait piece.now) (P.process piece.now) (branches alternatives.now))) }
{
    let mut rest = alternatives;
    let mut other_rest = others;
    while let [branch, more @ ..] = rest {
        let [other, other_more @ ..] = other_rest else {
            return Ok(false);
        };
        let is_piece = piece.fits(alloc, branch, other)?;
        if !is_piece {
            return Ok(false);
        }
        rest = more;
        other_rest = other_more;
    }
    Ok(other_rest.is_empty())
}
