ghost use Rattle.std.specs.Prelude.{IfOk};
ghost use Rattle.occ_syntax.specs.View.{tree};
ghost use Rattle.occ_law_shape.specs.occ_law.Choice.{AltNone, AltSkip};
ghost use Rattle.occ_law_shape.specs.Answer.{IsAnswer};

use crate::fronts::skip_first;
use occ_law_shape::{law_case, shape};
use occ_syntax::{Memory, Proc, same_proc};

/// ALT() = STOP
pub(crate) fn alt_none(left: &Proc, right: &Proc) -> Result<bool, Memory>
    ensures { IfOk result (IsAnswer AltNone (tree left.now) (tree right.now)) }
{
    law_case!(left, Alt(alternatives); right, Stop => Ok(alternatives.is_empty()))
}

/// ALT(TRUE & SKIP P) = P
pub(crate) fn alt_skip(left: &Proc, right: &Proc) -> Result<bool, Memory>
    ensures { IfOk result (IsAnswer AltSkip (tree left.now) (tree right.now)) }
{
    shape!(left, Alt(alternatives) => match skip_first(alternatives) {
        Some((process, rest)) => Ok(rest.is_empty() && same_proc(process, right)),
        None => Ok(false),
    })
}
