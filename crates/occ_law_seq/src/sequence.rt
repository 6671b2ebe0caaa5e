ghost use Rattle.std.specs.Prelude.{IfOk};
ghost use Rattle.occ_syntax.specs.View.{tree};
ghost use Rattle.occ_law_shape.specs.occ_law.Sequence.{SeqFlat, SeqNone, SeqOne, SeqSkip, SeqStop};
ghost use Rattle.occ_law_shape.specs.Answer.{IsAnswer};

use crate::places::{Flat, LastSkip, LastStop};
use occ_law_shape::{law_case, only, shape, somewhere};
use occ_syntax::{Memory, Proc, same_proc};

/// SEQ() = SKIP
pub(crate) fn seq_none(left: &Proc, right: &Proc) -> Result<bool, Memory>
    ensures { IfOk result (IsAnswer SeqNone (tree left.now) (tree right.now)) }
{
    law_case!(left, Seq(parts); right, Skip => Ok(parts.is_empty()))
}

/// SEQ(P) = P
pub(crate) fn seq_one(left: &Proc, right: &Proc) -> Result<bool, Memory>
    ensures { IfOk result (IsAnswer SeqOne (tree left.now) (tree right.now)) }
{
    shape!(left, Seq(parts) => match only(parts) {
        Some(part) => Ok(same_proc(part, right)),
        None => Ok(false),
    })
}

/// SEQ(Ps, SEQ(Qs), Rs) = SEQ(Ps, Qs, Rs)
pub(crate) fn seq_flat(left: &Proc, right: &Proc) -> Result<bool, Memory>
    ensures { IfOk result (IsAnswer SeqFlat (tree left.now) (tree right.now)) }
{
    law_case!(left, Seq(parts); right, Seq(others) => Ok(somewhere(&Flat, parts, others)))
}

/// SEQ(Ps, SKIP, Qs) = SEQ(Ps, Qs)
pub(crate) fn seq_skip(left: &Proc, right: &Proc) -> Result<bool, Memory>
    ensures { IfOk result (IsAnswer SeqSkip (tree left.now) (tree right.now)) }
{
    law_case!(left, Seq(parts); right, Seq(others) => Ok(somewhere(&LastSkip, parts, others)))
}

/// SEQ(Ps, STOP, Qs) = SEQ(Ps, STOP)
pub(crate) fn seq_stop(left: &Proc, right: &Proc) -> Result<bool, Memory>
    ensures { IfOk result (IsAnswer SeqStop (tree left.now) (tree right.now)) }
{
    law_case!(left, Seq(parts); right, Seq(others) => Ok(somewhere(&LastStop, parts, others)))
}
