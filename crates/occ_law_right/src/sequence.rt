ghost use Rattle.std.specs.Prelude.{IfOk};
ghost use Rattle.occ_syntax.specs.View.{tree};
ghost use Rattle.occ_law_seq.specs.occ_law.Instances.{IsOnly, sizes};
ghost use Rattle.occ_law_seq.specs.occ_law.Sequence.{SeqFlat, SeqNone, SeqOne, SeqSkip, SeqStop};

use crate::chosen::chosen;
use crate::made::{add, copied, finished};
use occ_law_seq::{Place, add_copies, is_skip, is_stop, only, parts_in_seq, seq_of};
use occ_syntax::{Memory, Proc};
use std::alloc::Global;

/// SEQ() = SKIP
pub(crate) fn seq_none(left: &Proc, place: Place) -> Option<Proc>
    ensures { IsOnly (SeqNone (sizes place)) (tree left.now) result }
{
    if !place.is_whole() {
        return None;
    }
    let parts = parts_in_seq(left)?;
    if !parts.is_empty() {
        return None;
    }
    Some(Proc::Skip)
}

/// SEQ(P) = P
pub(crate) fn seq_one(alloc: Global, left: &Proc, place: Place) -> Result<Option<Proc>, Memory>
    ensures { IfOk result (IsOnly (SeqOne (sizes place)) (tree left.now)) }
{
    if !place.is_whole() {
        return Ok(None);
    }
    let Some(parts) = parts_in_seq(left) else {
        return Ok(None);
    };
    let Some(part) = only(parts) else {
        return Ok(None);
    };
    Ok(Some(part.copy(alloc)?))
}

/// SEQ(Ps, SEQ(Qs), Rs) = SEQ(Ps, Qs, Rs)
pub(crate) fn seq_flat(alloc: Global, left: &Proc, place: Place) -> Result<Option<Proc>, Memory>
    ensures { IfOk result (IsOnly (SeqFlat (sizes place)) (tree left.now)) }
{
    let Some(at) = chosen(left, place) else {
        return Ok(None);
    };
    let Some(inner) = parts_in_seq(at.part) else {
        return Ok(None);
    };
    let mut made = copied(alloc, at.before)?;
    add_copies(alloc, &mut made, inner)?;
    Ok(Some(finished(alloc, made, at.behind)?))
}

/// SEQ(Ps, SKIP, Qs) = SEQ(Ps, Qs)
pub(crate) fn seq_skip(alloc: Global, left: &Proc, place: Place) -> Result<Option<Proc>, Memory>
    ensures { IfOk result (IsOnly (SeqSkip (sizes place)) (tree left.now)) }
{
    let Some(at) = chosen(left, place) else {
        return Ok(None);
    };
    if !is_skip(at.part) {
        return Ok(None);
    }
    let made = copied(alloc, at.before)?;
    Ok(Some(finished(alloc, made, at.behind)?))
}

/// SEQ(Ps, STOP, Qs) = SEQ(Ps, STOP)
pub(crate) fn seq_stop(alloc: Global, left: &Proc, place: Place) -> Result<Option<Proc>, Memory>
    ensures { IfOk result (IsOnly (SeqStop (sizes place)) (tree left.now)) }
{
    let Some(at) = chosen(left, place) else {
        return Ok(None);
    };
    if !is_stop(at.part) {
        return Ok(None);
    }
    let mut made = copied(alloc, at.before)?;
    add(&mut made, at.part.copy(alloc)?)?;
    Ok(Some(seq_of(made)))
}
