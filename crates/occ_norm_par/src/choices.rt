ghost use Rattle.std.specs.Prelude.{◌≡◌, true, IfOk};
ghost use Rattle.occ_norm_frame.specs.Maps.{Extends};
ghost use Rattle.occ_syntax.specs.View.{cases};
ghost use Rattle.occ_norm_frame.specs.Placed.{FitCases};
ghost use Rattle.occ_norm_par.specs.States.{AreLeft, AreStates};

use crate::forward::single;
use occ_norm_frame::{Frame, Normaliser, SetId, holds};
use occ_syntax::{Expr, Memory, Proc};

/// The states of a set in which no choice of an IF in front of each one is taken, and those in which none is.
pub fn states_left(
    world: &mut Normaliser,
    frame: &Frame,
    choices: &[(Expr, Proc)],
    from: SetId,
) -> Result<Vec<SetId>, Memory>
    requires choices { FitCases frame.now.vars (cases choices.now) }
    requires from { AreStates world.old.store frame.now.bits from }
    ensures extends { Extends world.old world.new }
    ensures left { IfOk result (λ r. AreLeft world.new.store frame.now.layout frame.now.bits from choices.now r.items) }
{
    let alloc = world.alloc();
    let mut sets = single(alloc, from)?;
    let mut last = from;
    for place in 0..choices.len() {
        let choice = &choices[place];
        let set = holds(alloc, world, frame, &choice.0)?;
        let next = world.without(last, set)?;
        sets.push(next)?;
        last = next;
    }
    Ok(sets)
}
