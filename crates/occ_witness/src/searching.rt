//! Two files as a program and a behaviour of it, and a schedule that shows it.

ghost use Rattle.std.specs.Prelude.{◌≤◌, ℕ, List, Option, Some, IfOk, length};
ghost use Rattle.occ_tool_run.specs.occ_base.Names.{IsDistinct};
ghost use Rattle.occ_tool_run.specs.occ_call.Files.{IsLoaded, IsShort, most_bytes};
ghost use Rattle.occ_tool_run.specs.Judged.{HasInterface, IsSayable as CanBeSaid};
ghost use Rattle.occ_witness.specs.Findings.{Finds, FindsIn, IsClaimRefused, IsRefusedBy, IsSayable};

use crate::finding::{Finding, told};
use occ_tool_run::accept::{Refusal, accept_first, refused};
use occ_tool_run::answer::Answer;
use occ_tool_run::{
    Accepted, ClaimFault, Loaded, Memory, Names, Side, behaviour_read_read as read,
    behaviours_are_read_as_written, faults_stand_where_nothing_goes_on, find_witness,
};
use std::alloc::Global;

/// The answer to two files: of a program, and of a behaviour that may be one of the program's. The program is judged first.
pub(crate) fn find(alloc: Global, program: &Loaded, text: &Loaded) -> Result<Finding, Memory>
    requires program { IsShort most_bytes program.now }
    requires text { IsShort most_bytes text.now }
    ensures finds { IfOk result (λ finding. (one two : Option (List ℕ)) → IsLoaded most_bytes one program.now
        → IsLoaded most_bytes two text.now → Finds one two finding) }
    ensures sayable { IfOk result IsSayable }
{
    let mut names = Names::new(alloc);
    match accept_first(alloc, &mut names, program) {
        Ok(accepted) => find_in(alloc, &names, &accepted, text),
        Err(refusal) => refuse(names, refusal),
    }
}

/// The answer that refuses the program, or out of memory where that is why.
fn refuse(names: Names, refusal: Refusal) -> Result<Finding, Memory>
    requires { CanBeSaid names refusal }
    ensures refused { IfOk result (IsRefusedBy names refusal) }
    ensures sayable { IfOk result IsSayable }
{
    let answer = refused(names, Side::First, refusal)?;
    Ok(Finding::Told(answer))
}

/// The answer to an accepted program and a file that is to be a behaviour.
fn find_in(
    alloc: Global,
    names: &Names,
    accepted: &Accepted,
    text: &Loaded,
) -> Result<Finding, Memory>
    requires short { IsShort most_bytes text.now }
    requires distinct { IsDistinct names.now }
    requires interface { HasInterface names.now accepted.now.program }
    ensures found { IfOk result (λ finding. (bytes : List ℕ) → IsLoaded most_bytes (Some bytes) text.now
        → FindsIn bytes names.now accepted.now.program finding) }
    ensures sayable { IfOk result IsSayable }
{
    match text {
        Loaded::Bytes(bytes) => find_in_bytes(alloc, names, accepted, bytes.as_slice()),
        Loaded::TooLong => Ok(Finding::Told(Answer::TooLong(Side::Second))),
    }
}

/// The answer to an accepted program and the bytes of a file that is to be a behaviour.
fn find_in_bytes(
    alloc: Global,
    names: &Names,
    accepted: &Accepted,
    bytes: &[u8],
) -> Result<Finding, Memory>
    requires short { length bytes.now ≤ most_bytes }
    requires distinct { IsDistinct names.now }
    requires interface { HasInterface names.now accepted.now.program }
    ensures found { IfOk result (FindsIn bytes.now names.now accepted.now.program) }
    ensures sayable { IfOk result IsSayable }
{
    behaviours_are_read_as_written();
    faults_stand_where_nothing_goes_on();
    let program = accepted.program();
    match read(alloc, names, program.params.items(), bytes) {
        Ok(behaviour) => {
            let witness = find_witness(alloc, accepted, &behaviour)?;
            Ok(told(witness))
        }
        Err(fault) => refuse_claim(fault),
    }
}

/// The answer that refuses a behaviour, or out of memory where that is why.
fn refuse_claim(fault: ClaimFault) -> Result<Finding, Memory>
    ensures refused { IfOk result (IsClaimRefused fault) }
    ensures sayable { IfOk result IsSayable }
{
    match fault {
        ClaimFault::Form { line } => Ok(Finding::Told(Answer::RefusedClaim(line))),
        ClaimFault::Memory => Err(Memory),
    }
}
