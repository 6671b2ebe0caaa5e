ghost use Rattle.std.specs.Prelude.{◌≡◌, List, IfOk};
ghost use Rattle.occ_derive_search.specs.Codes.{Spells};
ghost use Rattle.occ_engine.specs.Moved.{moves_of};
ghost use Rattle.occ_derive_moves.specs.occ_replay_rules.Moves.{Move};

use crate::machine::Machine;
use occ_engine::Dones;
use occ_syntax::Memory;
use std::alloc::Global;

/// The steps that a row of digits spells. Of a row that spells none the answer says nothing. `Memory` comes too where a step has a path
/// with a number of 2^32 or more.
pub fn steps_of(alloc: Global, code: &[u8]) -> Result<Dones, Memory>
    ensures { (moves : List Move) → Spells code.now moves → IfOk result (λ steps. moves_of steps ≡ moves) }
{
    let mut machine = Machine::new(alloc);
    machine.run(code)?;
    Ok(machine.into_steps())
}
