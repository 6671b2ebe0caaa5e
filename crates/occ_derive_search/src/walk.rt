//! A derivation on its way.

ghost use Rattle.std.specs.Prelude.{◌≡◌, IfOk};
ghost use Rattle.occ_derive_search.specs.Walking.{IsNext};
ghost use Rattle.occ_engine.specs.Moved.{move_of};
ghost use Rattle.occ_syntax.specs.View.{tree};
ghost use Rattle.occ_engine.specs.occ_usage.Accepted.{KeepsRules};

use crate::exchange::{Exchange, exchanged, joins};
use occ_derive_moves::{at, scope_at};
use occ_engine::{Done, Store};
use occ_syntax::{Memory, Program};
use std::alloc::Global;

/// The program to which steps have led so far, and the store that serves the laws.
#[derive(Drop)]
pub(crate) struct Walk {
    alloc: Global,
    store: Store,
    pub(crate) here: Program,
}

impl Walk {
    /// At the beginning.
    pub(crate) fn new(alloc: Global, from: &Program) -> Result<Walk, Memory>
        ensures name { IfOk result (λ walk. walk.here.name ≡ from.now.name) }
        ensures params { IfOk result (λ walk. walk.here.params ≡ from.now.params) }
        ensures body { IfOk result (λ walk. tree walk.here.body ≡ tree from.now.body) }
    {
        let store = Store::new(alloc)?;
        let here = from.copy(alloc)?;
        Ok(Walk { alloc, store, here })
    }

    /// One step further. None where it isn't a step of the program here.
    pub(crate) fn take(self, step: &Done) -> Result<Option<Walk>, Memory>
        requires { KeepsRules self.here }
        ensures { IfOk result (IsNext self.here (move_of step.now)) }
    {
        let Walk {
            alloc,
            mut store,
            here,
        } = self;
        let Some(_old) = at(&here, &step.path) else {
            return Ok(None);
        };
        let scope = scope_at(alloc, &here, &step.path)?;
        let Some(exchange) = exchanged(alloc, here, &scope, step)? else {
            return Ok(None);
        };
        let Exchange { whole, old } = exchange;
        if joins(alloc, &mut store, &scope, &old, step)? {
            let here = whole;
            Ok(Some(Walk { alloc, store, here }))
        } else {
            Ok(None)
        }
    }
}
