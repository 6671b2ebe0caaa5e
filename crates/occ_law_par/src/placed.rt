ghost use Rattle.std.specs.Prelude.{◌≡◌, IfOk};
ghost use Rattle.occ_syntax.specs.View.{tree};
ghost use Rattle.occ_law_shape.specs.occ_law.Instances.{IsOnly, sizes};
ghost use Rattle.occ_law_shape.specs.occ_law.Parallel.{ParFlat, ParSkip};

use crate::right_parts::chosen;
use occ_law_shape::{LawPlace as Place, add_copies, is_skip, par_of, parts_in_par};
use occ_syntax::{Memory, Proc, Procs};
use std::alloc::Global;

/// PAR(Ps, PAR(Qs), Rs) = PAR(Ps, Qs, Rs)
pub(crate) fn par_flat(alloc: Global, left: &Proc, place: Place) -> Result<Option<Proc>, Memory>
    ensures { IfOk result (IsOnly (ParFlat (sizes place)) (tree left.now)) }
{
    let Some(at) = chosen(left, place) else {
        return Ok(None);
    };
    let Some(inner) = parts_in_par(at.part) else {
        return Ok(None);
    };
    let mut made = Procs::new(alloc);
    add_copies(alloc, &mut made, at.before)?;
    add_copies(alloc, &mut made, inner)?;
    add_copies(alloc, &mut made, at.behind)?;
    Ok(Some(par_of(made)))
}

/// PAR(Ps, SKIP, Qs) = PAR(Ps, Qs)
pub(crate) fn par_skip(alloc: Global, left: &Proc, place: Place) -> Result<Option<Proc>, Memory>
    ensures { IfOk result (IsOnly (ParSkip (sizes place)) (tree left.now)) }
{
    let Some(at) = chosen(left, place) else {
        return Ok(None);
    };
    if !is_skip(at.part) {
        return Ok(None);
    }
    let mut made = Procs::new(alloc);
    add_copies(alloc, &mut made, at.before)?;
    add_copies(alloc, &mut made, at.behind)?;
    Ok(Some(par_of(made)))
}
