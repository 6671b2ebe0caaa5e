//! All rows of digits, tried one after the other.

ghost use Rattle.std.specs.Prelude.{◌≡◌, IfOk};
ghost use Rattle.occ_derive_search.specs.Derivations.{IsDerived};
ghost use Rattle.occ_derive_moves.specs.Steps.{Derivable};
ghost use Rattle.occ_syntax.specs.View.{tree};

use crate::attempt::attempt;
use crate::counter::Counter;
use occ_engine::{Accepted, Outcome};
use occ_syntax::{Memory, Proc};
use std::alloc::Global;

/// A derivation from an accepted program to the one of its header with this body, where there is one: all rows of digits are read as
/// steps, the short ones first, until those of one are a derivation. Where memory suffices it ends at a code of one at the latest.
pub fn search(alloc: Global, accepted: &Accepted, body: &Proc) -> Result<Outcome, Memory>
    requires { Derivable accepted.now.program.params (tree accepted.now.program.body) (tree body.now) }
    ensures derived { IfOk result (IsDerived accepted.now.program) }
    ensures to { IfOk result (λ outcome. tree outcome.to.body ≡ tree body.now) }
{
    let mut counter = Counter::new(alloc);
    loop {
        match attempt(alloc, accepted, body, counter.digits())? {
            Some(outcome) => return Ok(outcome),
            None => counter.next()?,
        }
    }
}
