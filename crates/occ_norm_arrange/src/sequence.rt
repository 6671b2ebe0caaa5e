ghost use Rattle.std.specs.Prelude.{◌≡◌, IfOk, IfSome, OnOk};
ghost use Rattle.occ_meaning.specs.Parallel.{all_of, one};
ghost use Rattle.occ_syntax.specs.Tree.{par, seq};
ghost use Rattle.occ_syntax.specs.View.{in_procs, tree, trees};
ghost use Rattle.occ_norm_arrange.specs.Arranged.{GoesOn, IsArranged};

use crate::split::front_in_turn;
use occ_syntax::{Memory, Proc, Procs};
use std::alloc::Global;

// Adds copies of parts at the end.
fn push_all(alloc: Global, parts: &[Proc], list: &mut Procs) -> Result<(), Memory>
    ensures { OnOk result (trees (in_procs list.new) ≡ all_of (trees (in_procs list.old)) (trees parts.now)) }
{
    for part in parts {
        list.push(part.copy(alloc)?)?;
    }
    Ok(())
}

// Adds a copy of a part, or of each part of a SEQ.
fn push_part(alloc: Global, part: &Proc, list: &mut Procs) -> Result<(), Memory>
    ensures { OnOk result (GoesOn (trees (in_procs list.old)) (one (tree part.now)) (trees (in_procs list.new))) }
{
    match part {
        Proc::Seq(parts) => push_all(alloc, parts.items(), list),
        _ => {
            list.push(part.copy(alloc)?)?;
            Ok(())
        }
    }
}

// The SEQ of some parts, with the parts of each SEQ among them in its place; of one part that part.
fn flat(alloc: Global, parts: &[Proc]) -> Result<Proc, Memory>
    ensures { IfOk result (λ r. IsArranged (seq (trees parts.now)) (tree r)) }
{
    let mut list = Procs::new(alloc);
    for part in parts {
        push_part(alloc, part, &mut list)?;
    }
    let items = list.items();
    if items.len() == 1 {
        return items[0].copy(alloc);
    }
    Ok(Proc::Seq(list))
}

// Whether one of the parts is a SEQ.
fn has_seq(parts: &[Proc]) -> bool {
    parts.iter().any(|part| matches!(part, Proc::Seq(_)))
}

// The same of a SEQ, if one of its parts is a SEQ or it has one part.
fn seq_flat(alloc: Global, parts: &[Proc]) -> Result<Option<Proc>, Memory>
    ensures { IfOk result (λ found. IfSome found (λ r. IsArranged (seq (trees parts.now)) (tree r))) }
{
    if parts.len() != 1 && !has_seq(parts) {
        return Ok(None);
    }
    let whole = flat(alloc, parts)?;
    Ok(Some(whole))
}

// The same of a PAR, with its straight parts in front of the others.
fn par_flat(alloc: Global, parts: &[Proc]) -> Result<Option<Proc>, Memory>
    ensures { IfOk result (λ found. IfSome found (λ r. IsArranged (par (trees parts.now)) (tree r))) }
{
    let Some(list) = front_in_turn(alloc, parts)? else {
        return Ok(None);
    };
    let whole = flat(alloc, list.items())?;
    Ok(Some(whole))
}

/// A PAR with its straight parts in front: SEQ(S1, .., Sm, PAR(R1, .., Rn)) does what the PAR of all these does where no variable
/// that a straight part writes stands free in another part. A SEQ with the parts of SEQs among its parts in their place; a SEQ or
/// a PAR of one part is that part. None where there is nothing to change. Only the process itself is looked at, and not what stands
/// inside its parts. Where it keeps types the new one does too, and does the same, with no more bits of variables in scope.
pub fn sequenced(alloc: Global, part: &Proc) -> Result<Option<Proc>, Memory>
    ensures { IfOk result (λ found. IfSome found (λ r. IsArranged (tree part.now) (tree r))) }
{
    match part {
        Proc::Seq(parts) => seq_flat(alloc, parts.items()),
        Proc::Par(parts) => par_flat(alloc, parts.items()),
        _ => Ok(None),
    }
}
