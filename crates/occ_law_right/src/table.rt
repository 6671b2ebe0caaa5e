ghost use Rattle.std.specs.Prelude.{◌≤◌, IfOk};
ghost use Rattle.occ_syntax.specs.View.{tree};
ghost use Rattle.occ_law_seq.specs.occ_law.Instances.{IsInstance};

use crate::assignment::{assign_id, assign_join};
use crate::behind::{assign_alt, assign_if};
use crate::communication::io_alt;
use crate::followed::{seq_alt, seq_if};
use crate::sequence::{seq_flat, seq_none, seq_one, seq_skip, seq_stop};
use occ_law_seq::{Law, LawId, Place};
use occ_syntax::{Memory, Proc, Scope};
use std::alloc::Global;

/// What a law of SEQ, of assignment, or of communication as choice, from seq-none to io-alt, makes of a part at a place, where it
/// holds there: the right side whose left side is the part. None exactly where the law holds at no such place. The place of
/// seq-flat, seq-skip and seq-stop is behind so many parts, and that of the others the whole part; assign-order, assign-pad and
/// expr have no result of their own.
pub fn sequence_right(
    alloc: Global,
    law: LawId,
    _scope: &Scope,
    left: &Proc,
    place: Place,
) -> Result<Option<Proc>, Memory>
    requires first { 1 ≤ law.0 }
    requires last { law.0 ≤ 15 }
    ensures { IfOk result (IsInstance law.0 _scope.now (tree left.now) place) }
{
    match law.law() {
        Some(Law::SeqNone) => Ok(seq_none(left, place)),
        Some(Law::SeqOne) => seq_one(alloc, left, place),
        Some(Law::SeqFlat) => seq_flat(alloc, left, place),
        Some(Law::SeqSkip) => seq_skip(alloc, left, place),
        Some(Law::SeqStop) => seq_stop(alloc, left, place),
        Some(Law::AssignId) => Ok(assign_id(left, place)),
        Some(Law::AssignJoin) => assign_join(alloc, left, place),
        Some(Law::AssignIf) => assign_if(alloc, left, place),
        Some(Law::AssignAlt) => assign_alt(alloc, left, place),
        Some(Law::SeqIf) => seq_if(alloc, left, place),
        Some(Law::SeqAlt) => seq_alt(alloc, left, place),
        Some(Law::IoAlt) => io_alt(alloc, left, place),
        _ => Ok(None),
    }
}
