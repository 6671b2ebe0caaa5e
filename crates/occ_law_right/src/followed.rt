ghost use Rattle.std.specs.Prelude.{◌≡◌, IfOk};
ghost use Rattle.occ_syntax.specs.View.{branches, cases, in_alternatives, in_choices, tree, trees};
ghost use Rattle.occ_law_seq.specs.occ_law.Instances.{IsOnly, sizes};
ghost use Rattle.occ_law_seq.specs.occ_law.Sequence.{SeqAlt, SeqIf, each_branch_before, each_case_before};
ghost use Rattle.occ_law_seq.specs.Behind.{followed};

use crate::made::{add_branch, add_choice, finished};
use occ_law_seq::{Place, alt_of, branches_of, choices_of, divided, if_of, parts_in_seq};
use occ_syntax::{Alternatives, Choices, Expr, Guard, Memory, Proc, Procs};
use std::alloc::Global;

/// SEQ(IF(b1 P1, .., bn Pn), Qs) = IF(b1 SEQ(P1, Qs), .., bn SEQ(Pn, Qs))
pub(crate) fn seq_if(alloc: Global, left: &Proc, place: Place) -> Result<Option<Proc>, Memory>
    ensures { IfOk result (IsOnly (SeqIf (sizes place)) (tree left.now)) }
{
    if !place.is_whole() {
        return Ok(None);
    }
    let Some(parts) = parts_in_seq(left) else {
        return Ok(None);
    };
    let Some((first, behind)) = divided(parts) else {
        return Ok(None);
    };
    let Some(choices) = choices_of(first) else {
        return Ok(None);
    };
    let made = choices_before(alloc, choices, behind)?;
    Ok(Some(if_of(made)))
}

/// Choices whose processes go on with further parts.
fn choices_before(
    alloc: Global,
    choices: &[(Expr, Proc)],
    behind: &[Proc],
) -> Result<Choices, Memory>
    ensures { IfOk result (λ made. cases (in_choices made) ≡ each_case_before (cases choices.now) (trees behind.now)) }
{
    let mut made = Choices::new(alloc);
    let mut rest = choices;
    while let [choice, more @ ..] = rest {
        let condition = choice.0.copy(alloc)?;
        let part = followed_by(alloc, &choice.1, behind)?;
        add_choice(&mut made, condition, part)?;
        rest = more;
    }
    Ok(made)
}

/// A process that goes on with further parts.
fn followed_by(alloc: Global, part: &Proc, behind: &[Proc]) -> Result<Proc, Memory>
    ensures { IfOk result (λ made. tree made ≡ followed (trees behind.now) (tree part.now)) }
{
    let mut parts = Procs::new(alloc);
    parts.push(part.copy(alloc)?)?;
    finished(alloc, parts, behind)
}

/// SEQ(ALT(gs), Qs) = the ALT in which each process P is SEQ(P, Qs)
pub(crate) fn seq_alt(alloc: Global, left: &Proc, place: Place) -> Result<Option<Proc>, Memory>
    ensures { IfOk result (IsOnly (SeqAlt (sizes place)) (tree left.now)) }
{
    if !place.is_whole() {
        return Ok(None);
    }
    let Some(parts) = parts_in_seq(left) else {
        return Ok(None);
    };
    let Some((first, behind)) = divided(parts) else {
        return Ok(None);
    };
    let Some(alternatives) = branches_of(first) else {
        return Ok(None);
    };
    let made = branches_before(alloc, alternatives, behind)?;
    Ok(Some(alt_of(made)))
}

/// Branches whose processes go on with further parts.
fn branches_before(
    alloc: Global,
    alternatives: &[(Guard, Proc)],
    behind: &[Proc],
) -> Result<Alternatives, Memory>
    ensures { IfOk result (λ made. branches (in_alternatives made) ≡ each_branch_before (branches alternatives.now) (trees behind.now)) }
{
    let mut made = Alternatives::new(alloc);
    let mut rest = alternatives;
    while let [branch, more @ ..] = rest {
        let guard = branch.0.copy(alloc)?;
        let part = followed_by(alloc, &branch.1, behind)?;
        add_branch(&mut made, guard, part)?;
        rest = more;
    }
    Ok(made)
}
