//! What becomes of each text that is to be a script.

ghost use Rattle.std.specs.Prelude.{◌≢◌, IfOk};
ghost use Rattle.occ_replay.specs.declared.result.Rejected.TheVariants as rejected;
ghost use Rattle.occ_readings.specs.Told.{IsTold};
ghost use Rattle.occ_replay.specs.occ_script.declared.fault.ScriptFault.TheVariants as script;

use occ_replay::{Rejected, Script, ScriptFault, derivations_join_the_same, read, replay};
use occ_syntax::{Memory, Names, Program};
use std::alloc::Global;

/// Each text is a script or has a first fault, and a script joins its two programs or has a first cause for which it doesn't. The text lies in
/// memory, and what it is read as wants memory: wherever that suffices, it is so.
pub fn replays_are_told(alloc: Global, text: &[u8]) -> Result<(), Memory>
    ensures { IfOk result (λ _. IsTold text.now) }
{
    derivations_join_the_same();
    let mut names = Names::new(alloc);
    match read(alloc, &mut names, text) {
        Ok(script) => match replay(alloc, &script) {
            Ok(joined) => given_back(joined.to),
            Err(cause) => rejected(cause),
        },
        Err(fault) => found(fault),
    }
}

/// A program that isn't wanted any more.
fn given_back(_program: Program) -> Result<(), Memory> {
    Ok(())
}

/// A cause that isn't out of memory.
fn rejected(cause: Rejected) -> Result<(), Memory>
    ensures { IfOk result (λ _. cause ≢ rejected.Memory) }
{
    if cause == Rejected::Memory {
        return Err(Memory);
    }
    Ok(())
}

/// A fault that isn't out of memory.
fn found(fault: ScriptFault) -> Result<(), Memory>
    ensures { IfOk result (λ _. fault ≢ script.Memory) }
{
    if fault == ScriptFault::Memory {
        return Err(Memory);
    }
    Ok(())
}
