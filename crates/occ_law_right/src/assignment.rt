ghost use Rattle.std.specs.Prelude.{IfOk};
ghost use Rattle.occ_syntax.specs.View.{tree};
ghost use Rattle.occ_law_seq.specs.occ_law.Instances.{IsOnly, sizes};
ghost use Rattle.occ_law_seq.specs.occ_law.Sequence.{AssignId, AssignJoin};

use crate::made::{assignment_of, copied_names};
use crate::put_in::put_in_all;
use occ_law_seq::{Pairs, Place, are_variables, assigned_first};
use occ_syntax::{Memory, Proc, same_names};
use std::alloc::Global;

/// xs := xs = SKIP
pub(crate) fn assign_id(left: &Proc, place: Place) -> Option<Proc>
    ensures { IsOnly (AssignId (sizes place)) (tree left.now) result }
{
    if !place.is_whole() {
        return None;
    }
    let pairs = Pairs::of(left)?;
    if !are_variables(pairs.vars, pairs.values) {
        return None;
    }
    Some(Proc::Skip)
}

/// SEQ(xs := es, xs := fs) = xs := fs[es/xs]
pub(crate) fn assign_join(alloc: Global, left: &Proc, place: Place) -> Result<Option<Proc>, Memory>
    ensures { IfOk result (IsOnly (AssignJoin (sizes place)) (tree left.now)) }
{
    if !place.is_whole() {
        return Ok(None);
    }
    let Some((pairs, second)) = assigned_first(left) else {
        return Ok(None);
    };
    let Some(later) = Pairs::of(second) else {
        return Ok(None);
    };
    if !same_names(later.vars, pairs.vars) {
        return Ok(None);
    }
    let vars = copied_names(alloc, pairs.vars)?;
    let values = put_in_all(alloc, &pairs, later.values)?;
    Ok(Some(assignment_of(vars, values)))
}
