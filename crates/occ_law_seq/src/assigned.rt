ghost use Rattle.std.specs.Prelude.{◌≡◌, ◌↔◌, IfOk, IsTrue};
ghost use Rattle.occ_syntax.specs.Tree.{seq};
ghost use Rattle.occ_syntax.specs.View.{branches, exp, exps, numbers, tree, waiting};
ghost use Rattle.occ_law_shape.specs.occ_meaning.Parallel.{two};
ghost use Rattle.occ_law_shape.specs.occ_meaning.Substitution.{substituted};
ghost use Rattle.occ_law_shape.specs.occ_law.Sequence.{AssignAlt, AssignIf, assigned_behind, spare_inputs, substituted_waiting};
ghost use Rattle.occ_law_shape.specs.Answer.{IsAnswer};
ghost use Rattle.occ_law_seq.specs.Assignment.{assigned_then};

use crate::first::{assigned_first, in_turn};
use crate::kept::{is_without, spares};
use crate::pairs::Pairs;
use occ_law_shape::{BranchPiece, ChoicePiece, are_branch_pieces, are_choice_pieces, law_case};
use occ_syntax::{Expr, Guard, Memory, Proc, Wait, same_proc};
use std::alloc::Global;

impl ChoicePiece for Pairs<'_> {
    ghost is_ready = { λ _. Unit {0} };

    ghost condition = { λ pairs b. substituted (numbers pairs.vars.now) (exps pairs.values.now) b };

    ghost process = { λ pairs p. assigned_then (numbers pairs.vars.now) (exps pairs.values.now) p };

    fn fits(
        &self,
        _alloc: Global,
        choice: &(Expr, Proc),
        other: &(Expr, Proc),
    ) -> Result<bool, Memory> {
        if !self.give(&choice.0, &other.0) {
            return Ok(false);
        }
        Ok(is_led(self, &choice.1, &other.1))
    }
}

impl BranchPiece for Pairs<'_> {
    ghost is_ready = { λ _. Unit {0} };

    ghost condition = { λ pairs b. substituted (numbers pairs.vars.now) (exps pairs.values.now) b };

    ghost wait = { λ pairs w. substituted_waiting (numbers pairs.vars.now) (exps pairs.values.now) w };

    ghost process = { λ pairs w p. seq (two (assigned_behind (numbers pairs.vars.now) (exps pairs.values.now) w) p) };

    fn fits(
        &self,
        _alloc: Global,
        branch: &(Guard, Proc),
        other: &(Guard, Proc),
    ) -> Result<bool, Memory> {
        if !self.give(&branch.0.condition, &other.0.condition) {
            return Ok(false);
        }
        if !give_wait(self, &branch.0.wait, &other.0.wait) {
            return Ok(false);
        }
        Ok(is_made_up_for(self, branch, &other.1))
    }
}

/// Whether a part is a SEQ of the assignment and a process.
fn is_led(pairs: &Pairs<'_>, process: &Proc, whole: &Proc) -> bool
    ensures { IsTrue result ↔
        (tree whole.now ≡ assigned_then (numbers pairs.now.vars.now) (exps pairs.now.values.now) (tree process.now)) }
{
    match in_turn(whole) {
        Some((first, second)) => pairs.are_of(first) && same_proc(second, process),
        None => false,
    }
}

/// Whether a guard waits for the same as another one behind the assignment.
fn give_wait(pairs: &Pairs<'_>, wait: &Wait, other: &Wait) -> bool
    ensures { IsTrue result ↔
        (waiting other.now ≡ substituted_waiting (numbers pairs.now.vars.now) (exps pairs.now.values.now) (waiting wait.now)) }
{
    match wait {
        Wait::Skip => matches!(other, Wait::Skip),
        Wait::Get { chan, var } => match other {
            Wait::Get { chan: c, var: x } => c == chan && x == var,
            _ => false,
        },
        Wait::Put { chan, value } => match other {
            Wait::Put { chan: c, value: e } => c == chan && pairs.give(value, e),
            _ => false,
        },
    }
}

/// Whether a part is a SEQ of the assignment that is made up for behind a guard, and the guard's process.
fn is_made_up_for(pairs: &Pairs<'_>, branch: &(Guard, Proc), whole: &Proc) -> bool
    ensures { IsTrue result ↔ (tree whole.now
        ≡ seq (two (assigned_behind (numbers pairs.now.vars.now) (exps pairs.now.values.now) (waiting branch.now.0.wait)) (tree branch.now.1))) }
{
    match in_turn(whole) {
        Some((first, second)) => {
            is_behind(pairs, &branch.0.wait, first) && same_proc(second, &branch.1)
        }
        None => false,
    }
}

/// Whether a part is the assignment that is made up for behind a guard.
fn is_behind(pairs: &Pairs<'_>, wait: &Wait, part: &Proc) -> bool
    ensures { IsTrue result ↔
        (tree part.now ≡ assigned_behind (numbers pairs.now.vars.now) (exps pairs.now.values.now) (waiting wait.now)) }
{
    match wait {
        Wait::Skip | Wait::Put { .. } => pairs.are_of(part),
        Wait::Get { var, .. } => is_without(pairs, *var, part),
    }
}

/// SEQ(xs := es, IF(b1 P1, .., bn Pn)) = IF(b1[es/xs] SEQ(xs := es, P1), .., bn[es/xs] SEQ(xs := es, Pn))
pub(crate) fn assign_if(alloc: Global, left: &Proc, right: &Proc) -> Result<bool, Memory>
    ensures { IfOk result (IsAnswer AssignIf (tree left.now) (tree right.now)) }
{
    match assigned_first(left) {
        Some((pairs, second)) => if_assigned(alloc, &pairs, second, right),
        None => Ok(false),
    }
}

fn if_assigned(
    alloc: Global,
    pairs: &Pairs<'_>,
    second: &Proc,
    right: &Proc,
) -> Result<bool, Memory>
    ensures { IfOk result
        (IsAnswer AssignIf (assigned_then (numbers pairs.now.vars.now) (exps pairs.now.values.now) (tree second.now)) (tree right.now)) }
{
    law_case!(second, If(choices); right, If(others) => {
        are_choice_pieces(alloc, pairs, choices, others)
    })
}

/// SEQ(xs := es, ALT(gs)) = the ALT of the branches behind the assignment, where these spare what they input
pub(crate) fn assign_alt(alloc: Global, left: &Proc, right: &Proc) -> Result<bool, Memory>
    ensures { IfOk result (IsAnswer AssignAlt (tree left.now) (tree right.now)) }
{
    match assigned_first(left) {
        Some((pairs, second)) => alt_assigned(alloc, &pairs, second, right),
        None => Ok(false),
    }
}

fn alt_assigned(
    alloc: Global,
    pairs: &Pairs<'_>,
    second: &Proc,
    right: &Proc,
) -> Result<bool, Memory>
    ensures { IfOk result
        (IsAnswer AssignAlt (assigned_then (numbers pairs.now.vars.now) (exps pairs.now.values.now) (tree second.now)) (tree right.now)) }
{
    law_case!(second, Alt(alternatives); right, Alt(others) => {
        if !spare_all(pairs, alternatives) {
            return Ok(false);
        }
        are_branch_pieces(alloc, pairs, alternatives, others)
    })
}

/// Whether all branches spare what they input: no right side that is kept behind a guard names it.
pub fn spare_all(pairs: &Pairs<'_>, alternatives: &[(Guard, Proc)]) -> bool
    ensures { result ≡ spare_inputs (numbers pairs.now.vars.now) (exps pairs.now.values.now) (branches alternatives.now) }
{
    for (guard, _) in alternatives {
        if !spares(pairs, &guard.wait) {
            return false;
        }
    }
    true
}
