ghost use Rattle.std.specs.Prelude.{◌≡◌, ◌↔◌, IfOk, IsTrue};
ghost use Rattle.occ_law_shape.specs.occ_law.Scope.{ChanIf, VarAlt, VarIf};
ghost use Rattle.occ_law_scope.specs.Under.{under};
ghost use Rattle.occ_law_shape.specs.Answer.{IsAnswer};
ghost use Rattle.occ_law_shape.specs.Pieces.{each_branch, each_choice};
ghost use Rattle.occ_syntax.specs.Tree.{alt, select};
ghost use Rattle.occ_syntax.specs.View.{branches, cases, tree};

use crate::declaration::Declaration;
use crate::mentions::{some_condition_names, some_guard_names};
use occ_law_shape::{BranchPiece, ChoicePiece, are_branch_pieces, are_choice_pieces, shape};
use occ_syntax::{Expr, Guard, Memory, Proc, same_expr};
use std::alloc::Global;

/// What a declaration makes of each choice or branch: the process under it.
#[derive(Clone, Copy)]
pub(crate) struct EachUnder {
    declaration: Declaration,
}

impl ChoicePiece for EachUnder {
    ghost is_ready = { λ _. Unit {0} };

    ghost condition = { λ _ b. b };

    ghost process = { λ piece p. under piece.declaration p };

    fn fits(
        &self,
        _alloc: Global,
        choice: &(Expr, Proc),
        other: &(Expr, Proc),
    ) -> Result<bool, Memory> {
        if !same_expr(&other.0, &choice.0) {
            return Ok(false);
        }
        Ok(self.declaration.governs(&other.1, &choice.1))
    }
}

impl BranchPiece for EachUnder {
    ghost is_ready = { λ _. Unit {0} };

    ghost condition = { λ _ b. b };

    ghost wait = { λ _ w. w };

    ghost process = { λ piece _ p. under piece.declaration p };

    fn fits(
        &self,
        _alloc: Global,
        branch: &(Guard, Proc),
        other: &(Guard, Proc),
    ) -> Result<bool, Memory> {
        Ok(self.declaration.governs_branch(other, branch))
    }
}

/// VAR x: IF(b1 P1, .., bn Pn) = IF(b1 VAR x: P1, .., bn VAR x: Pn), where no condition names x
pub(crate) fn var_if(alloc: Global, left: &Proc, right: &Proc) -> Result<bool, Memory>
    ensures { IfOk result (IsAnswer VarIf (tree left.now) (tree right.now)) }
{
    shape!(left, Var(name, width, body) => shape!(body, If(choices) => {
        if some_condition_names(choices, name) {
            return Ok(false);
        }
        into_choices(alloc, Declaration::Var(name, width), choices, right)
    }))
}

/// CHAN c: IF(b1 P1, .., bn Pn) = IF(b1 CHAN c: P1, .., bn CHAN c: Pn)
pub(crate) fn chan_if(alloc: Global, left: &Proc, right: &Proc) -> Result<bool, Memory>
    ensures { IfOk result (IsAnswer ChanIf (tree left.now) (tree right.now)) }
{
    shape!(left, Chan(name, width, body) => shape!(body, If(choices) => {
        into_choices(alloc, Declaration::Chan(name, width), choices, right)
    }))
}

/// Whether a whole process is the IF of the choices, each process under the declaration.
fn into_choices(
    alloc: Global,
    declaration: Declaration,
    choices: &[(Expr, Proc)],
    whole: &Proc,
) -> Result<bool, Memory>
    ensures { IfOk result (λ answer. IsTrue answer
        ↔ (tree whole.now ≡ select (each_choice (λ b. b) (under declaration) (cases choices.now)))) }
{
    shape!(whole, If(others) => are_choice_pieces(alloc, &EachUnder { declaration }, choices, others))
}

/// VAR x: ALT(gs) = the ALT in which each process P is VAR x: P, where no guard names x
pub(crate) fn var_alt_under(alloc: Global, left: &Proc, right: &Proc) -> Result<bool, Memory>
    ensures { IfOk result (IsAnswer VarAlt (tree left.now) (tree right.now)) }
{
    shape!(left, Var(name, width, body) => shape!(body, Alt(alternatives) => {
        if some_guard_names(alternatives, name) {
            return Ok(false);
        }
        into_branches(alloc, Declaration::Var(name, width), alternatives, right)
    }))
}

/// Whether a whole process is the ALT of the branches, each process under the declaration.
fn into_branches(
    alloc: Global,
    declaration: Declaration,
    alternatives: &[(Guard, Proc)],
    whole: &Proc,
) -> Result<bool, Memory>
    ensures { IfOk result (λ answer. IsTrue answer
        ↔ (tree whole.now ≡ alt (each_branch (λ b. b) (λ w. w) (λ w p. under declaration p) (branches alternatives.now)))) }
{
    shape!(whole, Alt(others) => are_branch_pieces(alloc, &EachUnder { declaration }, alternatives, others))
}
