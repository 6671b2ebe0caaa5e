ghost use Rattle.std.specs.Prelude.{◌≡◌, IfOk};
ghost use Rattle.occ_syntax.specs.View.{tree};
ghost use Rattle.occ_refine.specs.Roots.{RefinedIsNamed};
ghost use Rattle.occ_traces.specs.Traces.{IsTraceAnswer};

use crate::trace_refines;
use occ_refine::{Accepted, CompareRefined as Refined, World, normalise};
use occ_syntax::Memory;
use std::alloc::Global;

/// Whether each trace of the second of two accepted programs of one interface is one of the first's: Yes exactly where that is so from
/// every state, and else the behaviour that shows the shortest trace that isn't. All that is named in it are parameters.
pub fn traced(alloc: Global, left: &Accepted, right: &Accepted) -> Result<Refined, Memory>
    requires { left.now.program.params ≡ right.now.program.params }
    ensures answer { IfOk result (IsTraceAnswer left.now.program.params (tree left.now.program.body) (tree right.now.program.body)) }
    ensures named { IfOk result (RefinedIsNamed left.now.program.params) }
{
    let mut world = World::new(alloc)?;
    let first = normalise(alloc, left, &mut world)?;
    let second = normalise(alloc, right, &mut world)?;
    trace_refines(alloc, &mut world, &first, &second)
}
