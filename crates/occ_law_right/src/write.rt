ghost use Rattle.std.specs.Prelude.{◌≤◌, IfOk};
ghost use Rattle.occ_law_seq.specs.occ_law.declared.place.Place.TheVariants.{Whole as AtWhole};
ghost use Rattle.occ_law_seq.specs.occ_law.Instances.{IsInstance};
ghost use Rattle.occ_syntax.specs.Scopes.{environment};
ghost use Rattle.occ_syntax.specs.Usage.{Keeps};
ghost use Rattle.occ_syntax.specs.View.{tree};

use crate::choices::{chan_if, var_alt, var_if};
use crate::moves::{
    chan_par, chan_seq, chan_swap, chan_unused, var_first, var_last, var_par, var_swap, var_unused,
};
use crate::pairs::{var_assign, var_end};
use crate::unheard::chan_alt;
use crate::values::var_any;
use occ_law_seq::{Law, LawId, Place};
use occ_syntax::{Memory, Proc, Scope};
use std::alloc::Global;

/// What a law makes of a part at a place, where it holds there: the right side whose left side is the part. None exactly
/// where the law holds at no such place. The part keeps names, types, directions and usage in the scope. The law is one of
/// declarations: var-unused and the laws behind it in the table, to the last one, chan-par. They change a part as a whole,
/// var-alt in its first form, and of var-rename and chan-rename the left side doesn't tell the right one.
pub fn scope_right(
    alloc: Global,
    law: LawId,
    scope: &Scope,
    left: &Proc,
    place: Place,
) -> Result<Option<Proc>, Memory>
    requires first { 46 ≤ law.0 }
    requires last { law.0 ≤ 63 }
    requires left { Keeps (environment scope.now) (tree left.now) }
    ensures { IfOk result (IsInstance law.0 scope.now (tree left.now) place) }
{
    match place {
        Place::Whole => at_whole(alloc, law, scope, left),
        Place::Behind(_) => Ok(None),
        Place::Between(_, _) => Ok(None),
    }
}

/// What a law makes of a part as a whole.
fn at_whole(alloc: Global, law: LawId, scope: &Scope, left: &Proc) -> Result<Option<Proc>, Memory>
    requires first { 46 ≤ law.0 }
    requires last { law.0 ≤ 63 }
    requires left { Keeps (environment scope.now) (tree left.now) }
    ensures { IfOk result (IsInstance law.0 scope.now (tree left.now) AtWhole) }
{
    match law.law() {
        Some(Law::VarUnused) => var_unused(alloc, left),
        Some(Law::VarRename) => Ok(None),
        Some(Law::VarSwap) => var_swap(alloc, left),
        Some(Law::VarFirst) => var_first(alloc, left),
        Some(Law::VarLast) => var_last(alloc, left),
        Some(Law::VarIf) => var_if(alloc, left),
        Some(Law::VarAlt) => var_alt(alloc, left),
        Some(Law::VarPar) => var_par(alloc, left),
        Some(Law::VarAny) => var_any(alloc, scope, left),
        Some(Law::VarAssign) => var_assign(alloc, left),
        Some(Law::VarEnd) => var_end(alloc, left),
        Some(Law::ChanUnused) => chan_unused(alloc, left),
        Some(Law::ChanRename) => Ok(None),
        Some(Law::ChanSwap) => chan_swap(alloc, left),
        Some(Law::ChanSeq) => chan_seq(alloc, left),
        Some(Law::ChanIf) => chan_if(alloc, left),
        Some(Law::ChanAlt) => chan_alt(alloc, left),
        Some(Law::ChanPar) => chan_par(alloc, left),
        _ => Ok(None),
    }
}
