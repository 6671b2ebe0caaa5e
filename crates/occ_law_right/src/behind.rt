ghost use Rattle.std.specs.Prelude.{◌≡◌, IfOk};
ghost use Rattle.occ_syntax.specs.View.{branches, cases, exp, exps, in_alternatives, in_choices, numbers, tree, waiting};
ghost use Rattle.occ_syntax.specs.Tree.{seq};
ghost use Rattle.occ_law_scope.specs.occ_meaning.Parallel.{two};
ghost use Rattle.occ_law_scope.specs.occ_meaning.Substitution.{substituted};
ghost use Rattle.occ_law_seq.specs.occ_law.Instances.{IsOnly, sizes};
ghost use Rattle.occ_law_seq.specs.occ_law.Sequence.{AssignAlt, AssignIf, assigned_behind, each_assigned, each_guard_assigned, substituted_waiting};
ghost use Rattle.occ_law_seq.specs.Assignment.{assigned_then};

use crate::kept::made_up_for;
use crate::made::{add_branch, add_choice, assigned};
use crate::put_in::{put_in, put_in_wait};
use occ_law_seq::{
    Pairs, Place, alt_of, assigned_first, branches_of, choices_of, if_of, in_turn, spare_all,
};
use occ_syntax::{Alternatives, Choices, Expr, Guard, Memory, Proc};
use std::alloc::Global;

/// SEQ(xs := es, IF(b1 P1, .., bn Pn)) = IF(b1[es/xs] SEQ(xs := es, P1), .., bn[es/xs] SEQ(xs := es, Pn))
pub(crate) fn assign_if(alloc: Global, left: &Proc, place: Place) -> Result<Option<Proc>, Memory>
    ensures { IfOk result (IsOnly (AssignIf (sizes place)) (tree left.now)) }
{
    if !place.is_whole() {
        return Ok(None);
    }
    let Some((pairs, second)) = assigned_first(left) else {
        return Ok(None);
    };
    let Some(choices) = choices_of(second) else {
        return Ok(None);
    };
    let made = choices_behind(alloc, &pairs, choices)?;
    Ok(Some(if_of(made)))
}

/// The choices of an IF, each behind the assignment of pairs.
fn choices_behind(
    alloc: Global,
    pairs: &Pairs<'_>,
    choices: &[(Expr, Proc)],
) -> Result<Choices, Memory>
    ensures { IfOk result (λ made. cases (in_choices made)
        ≡ each_assigned (numbers pairs.now.vars.now) (exps pairs.now.values.now) (cases choices.now)) }
{
    let mut made = Choices::new(alloc);
    let mut rest = choices;
    while let [choice, more @ ..] = rest {
        let condition = put_in(alloc, pairs, &choice.0)?;
        let part = led(alloc, pairs, &choice.1)?;
        add_choice(&mut made, condition, part)?;
        rest = more;
    }
    Ok(made)
}

/// A process behind the assignment of pairs.
fn led(alloc: Global, pairs: &Pairs<'_>, part: &Proc) -> Result<Proc, Memory>
    ensures { IfOk result (λ made. tree made
        ≡ assigned_then (numbers pairs.now.vars.now) (exps pairs.now.values.now) (tree part.now)) }
{
    let first = assigned(alloc, pairs)?;
    let second = part.copy(alloc)?;
    in_turn(alloc, first, second)
}

/// SEQ(xs := es, ALT(gs)) = the ALT of the branches behind the assignment, where these spare what they input
pub(crate) fn assign_alt(alloc: Global, left: &Proc, place: Place) -> Result<Option<Proc>, Memory>
    ensures { IfOk result (IsOnly (AssignAlt (sizes place)) (tree left.now)) }
{
    if !place.is_whole() {
        return Ok(None);
    }
    let Some((pairs, second)) = assigned_first(left) else {
        return Ok(None);
    };
    let Some(alternatives) = branches_of(second) else {
        return Ok(None);
    };
    if !spare_all(&pairs, alternatives) {
        return Ok(None);
    }
    let made = branches_behind(alloc, &pairs, alternatives)?;
    Ok(Some(alt_of(made)))
}

/// The branches of an ALT, each behind the assignment of pairs.
fn branches_behind(
    alloc: Global,
    pairs: &Pairs<'_>,
    alternatives: &[(Guard, Proc)],
) -> Result<Alternatives, Memory>
    ensures { IfOk result (λ made. branches (in_alternatives made)
        ≡ each_guard_assigned (numbers pairs.now.vars.now) (exps pairs.now.values.now) (branches alternatives.now)) }
{
    let mut made = Alternatives::new(alloc);
    let mut rest = alternatives;
    while let [branch, more @ ..] = rest {
        let guard = guard_behind(alloc, pairs, &branch.0)?;
        let part = led_behind(alloc, pairs, branch)?;
        add_branch(&mut made, guard, part)?;
        rest = more;
    }
    Ok(made)
}

/// A guard behind the assignment of pairs.
fn guard_behind(alloc: Global, pairs: &Pairs<'_>, guard: &Guard) -> Result<Guard, Memory>
    ensures condition { IfOk result (λ made. exp made.condition
        ≡ substituted (numbers pairs.now.vars.now) (exps pairs.now.values.now) (exp guard.now.condition)) }
    ensures wait { IfOk result (λ made. waiting made.wait
        ≡ substituted_waiting (numbers pairs.now.vars.now) (exps pairs.now.values.now) (waiting guard.now.wait)) }
{
    let condition = put_in(alloc, pairs, &guard.condition)?;
    let wait = put_in_wait(alloc, pairs, &guard.wait)?;
    Ok(Guard { condition, wait })
}

/// A branch's process behind the assignment that is made up for.
fn led_behind(alloc: Global, pairs: &Pairs<'_>, branch: &(Guard, Proc)) -> Result<Proc, Memory>
    ensures { IfOk result (λ made. tree made
        ≡ seq (two (assigned_behind (numbers pairs.now.vars.now) (exps pairs.now.values.now) (waiting branch.now.0.wait))
        (tree branch.now.1))) }
{
    let first = made_up_for(alloc, pairs, &branch.0.wait)?;
    let second = branch.1.copy(alloc)?;
    in_turn(alloc, first, second)
}
