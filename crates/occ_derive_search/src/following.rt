//! Steps that somebody proposes, taken one after the other.

ghost use Rattle.std.specs.Prelude.{IfOk};
ghost use Rattle.occ_derive_search.specs.Derivations.{AreFollowed};

use crate::walk::Walk;
use occ_engine::{Accepted, Done};
use occ_syntax::{Memory, Program};
use std::alloc::Global;

/// The program to which steps lead, each with its part, one after the other from an accepted program: what somebody proposes is
/// checked so. None exactly where they lead nowhere.
pub fn follow(alloc: Global, accepted: &Accepted, steps: &[Done]) -> Result<Option<Program>, Memory>
    ensures { IfOk result (AreFollowed accepted.now.program steps.now) }
{
    let mut walk = Walk::new(alloc, accepted.program())?;
    for step in steps {
        match walk.take(step)? {
            Some(next) => walk = next,
            None => return Ok(None),
        }
    }
    Ok(Some(walk.here))
}
