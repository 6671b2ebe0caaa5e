ghost use Rattle.std.specs.Prelude.{◌≡◌, ◌↔◌, IfOk, IsTrue};
ghost use Rattle.occ_syntax.specs.Tree.{Tree, stop};
ghost use Rattle.occ_syntax.specs.View.{tree, trees};
ghost use Rattle.occ_law_shape.specs.occ_meaning.Parallel.{two};
ghost use Rattle.occ_law_shape.specs.occ_law.Parallel.{ParFlat, ParNone, ParOne, ParSkip, ParStop};
ghost use Rattle.occ_law_shape.specs.Answer.{IsAnswer};

use crate::places::Leaving;
use occ_law_shape::{is_stop, law_case, only, pair, shape, somewhere};
use occ_syntax::{Memory, Proc, same_proc, same_procs};

/// PAR() = SKIP
pub(crate) fn par_none(left: &Proc, right: &Proc) -> Result<bool, Memory>
    ensures { IfOk result (IsAnswer ParNone (tree left.now) (tree right.now)) }
{
    law_case!(left, Par(parts); right, Skip => Ok(parts.is_empty()))
}

/// PAR(P) = P
pub(crate) fn par_one(left: &Proc, right: &Proc) -> Result<bool, Memory>
    ensures { IfOk result (IsAnswer ParOne (tree left.now) (tree right.now)) }
{
    shape!(left, Par(parts) => match only(parts) {
        Some(part) => Ok(same_proc(part, right)),
        None => Ok(false),
    })
}

/// PAR(Ps, PAR(Qs), Rs) = PAR(Ps, Qs, Rs)
pub(crate) fn par_flat(left: &Proc, right: &Proc) -> Result<bool, Memory>
    ensures { IfOk result (IsAnswer ParFlat (tree left.now) (tree right.now)) }
{
    law_case!(left, Par(parts); right, Par(others) => {
        Ok(somewhere(&Leaving::Par, parts, others))
    })
}

/// PAR(Ps, SKIP, Qs) = PAR(Ps, Qs)
pub(crate) fn par_skip(left: &Proc, right: &Proc) -> Result<bool, Memory>
    ensures { IfOk result (IsAnswer ParSkip (tree left.now) (tree right.now)) }
{
    law_case!(left, Par(parts); right, Par(others) => {
        Ok(somewhere(&Leaving::Skip, parts, others))
    })
}

/// PAR(P, STOP) = SEQ(P, STOP)
pub(crate) fn par_stop(left: &Proc, right: &Proc) -> Result<bool, Memory>
    ensures { IfOk result (IsAnswer ParStop (tree left.now) (tree right.now)) }
{
    law_case!(left, Par(parts); right, Seq(others) => {
        Ok(is_one_with_stop(parts) && same_procs(parts, others))
    })
}

/// Whether a list is a part and STOP.
fn is_one_with_stop(parts: &[Proc]) -> bool
    ensures { IsTrue result ↔ ((p : Tree) × (trees parts.now ≡ two p stop)) }
{
    match pair(parts) {
        Some((_, second)) => is_stop(second),
        None => false,
    }
}
