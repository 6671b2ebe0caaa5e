ghost use Rattle.std.specs.Prelude.{◌≡◌, IfOk};
ghost use Rattle.occ_syntax.specs.View.{tree};
ghost use Rattle.occ_norm.specs.occ_behaviour.Members.{IsRight};
ghost use Rattle.occ_norm.specs.occ_compare.Verdicts.{IsPrintable};
ghost use Rattle.occ_refine.specs.Verdict.{IsVerdictOf};

use occ_norm::{Accepted, Verdict, World, compare, normalise};
use occ_syntax::Memory;
use std::alloc::Global;

/// Whether two accepted programs of one interface mean the same, and else a behaviour that belongs to exactly the one of them
/// that is named: the first difference from the least state, by the fixed walk of `occ_compare`. All that is named in it are
/// parameters.
pub fn decide(alloc: Global, left: &Accepted, right: &Accepted) -> Result<Verdict, Memory>
    requires { left.now.program.params ≡ right.now.program.params }
    ensures right { IfOk result (IsRight left.now.program.params (tree left.now.program.body) (tree right.now.program.body)) }
    ensures verdict { IfOk result (IsVerdictOf left.now.program.params (tree left.now.program.body) (tree right.now.program.body)) }
    ensures printable { IfOk result (IsPrintable left.now.program.params) }
{
    let mut world = World::new(alloc)?;
    let first = normalise(alloc, left, &mut world)?;
    let second = normalise(alloc, right, &mut world)?;
    compare(alloc, &world, &first, &second)
}
