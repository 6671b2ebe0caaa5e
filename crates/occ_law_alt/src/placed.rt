ghost use Rattle.std.specs.Prelude.{IfOk};
ghost use Rattle.occ_syntax.specs.View.{tree};
ghost use Rattle.occ_law_shape.specs.occ_law.Choice.{AltFlat, AltSame, AltSplit, AltTwice};
ghost use Rattle.occ_law_shape.specs.Answer.{IsAnswer};

use crate::places::{Flat, Same, Split, Twice};
use crate::search::somewhere;
use occ_law_shape::law_case;
use occ_syntax::{Memory, Proc};

/// ALT(gs, TRUE & SKIP ALT(hs), ks) = ALT(gs, hs, ks), where hs has a branch with the guard TRUE & SKIP
pub(crate) fn alt_flat(left: &Proc, right: &Proc) -> Result<bool, Memory>
    ensures { IfOk result (IsAnswer AltFlat (tree left.now) (tree right.now)) }
{
    law_case!(left, Alt(alternatives); right, Alt(others) => Ok(somewhere(&Flat, alternatives, others)))
}

/// ALT(gs, TRUE & g P, TRUE & SKIP ALT(TRUE & g Q, hs), ks) = ALT(gs, TRUE & SKIP ALT(TRUE & g P, TRUE & g Q, hs), ks)
pub(crate) fn alt_split(left: &Proc, right: &Proc) -> Result<bool, Memory>
    ensures { IfOk result (IsAnswer AltSplit (tree left.now) (tree right.now)) }
{
    law_case!(left, Alt(alternatives); right, Alt(others) => Ok(somewhere(&Split, alternatives, others)))
}

/// ALT(gs, B, hs, B, ks) = ALT(gs, B, hs, ks)
pub(crate) fn alt_twice(left: &Proc, right: &Proc) -> Result<bool, Memory>
    ensures { IfOk result (IsAnswer AltTwice (tree left.now) (tree right.now)) }
{
    law_case!(left, Alt(alternatives); right, Alt(others) => Ok(somewhere(&Twice, alternatives, others)))
}

/// ALT(gs, b & g P, hs, b & g Q, ks) = ALT(gs, b & g ALT(TRUE & SKIP P, TRUE & SKIP Q), hs, ks)
pub(crate) fn alt_same(left: &Proc, right: &Proc) -> Result<bool, Memory>
    ensures { IfOk result (IsAnswer AltSame (tree left.now) (tree right.now)) }
{
    law_case!(left, Alt(alternatives); right, Alt(others) => Ok(somewhere(&Same, alternatives, others)))
}
