ghost use Rattle.std.specs.Prelude.{◌≡◌, ◌≢◌, ◌≤◌, ◌↔◌, ℕ, List, Option, Some, IfOk, IsTrue, length};
ghost use Rattle.occ_syntax.specs.occ_base.Names.{IsDistinct};
ghost use Rattle.occ_syntax.specs.View.{tree};
ghost use Rattle.occ_run_schedule.specs.occ_behaviour.Members.{IsMember};
ghost use Rattle.occ_run_schedule.specs.occ_behaviour_read.Claims.{IsOf};
ghost use Rattle.occ_call.specs.Files.{IsLoaded, IsShort, most_bytes};
ghost use Rattle.occ_tool_run.specs.Judged.{HasInterface, IsClaimRefusal};
ghost use Rattle.occ_tool_run.specs.Stored.{seen};
ghost use Rattle.occ_tool_run.specs.Texts.{IsPrintable};
ghost use Rattle.occ_tool_run.specs.Answers.{IsJudged, Judges};

use crate::accept::{accept_first, refused};
use crate::answer::Answer;
use occ_call::Loaded;
use occ_run_schedule::{
    Accepted, Behaviour, ClaimFault, Last, Side, behaviour_read_read as read,
    behaviours_are_read_as_written, ends, fails, faults_stand_where_nothing_goes_on,
};
use occ_syntax::{Memory, Names};
use std::alloc::Global;

/// The answer to two files: of a program, and of a behaviour that may be one of the program's. The program is judged first.
pub fn belongs(alloc: Global, program: &Loaded, text: &Loaded) -> Result<Answer, Memory>
    requires program { IsShort most_bytes program.now }
    requires text { IsShort most_bytes text.now }
    ensures judges { IfOk result (λ answer. (one two : Option (List ℕ)) → IsLoaded most_bytes one program.now
        → IsLoaded most_bytes two text.now → Judges one two answer) }
    ensures printable { IfOk result IsPrintable }
    ensures usage { IfOk result (λ answer. answer ≢ Answer.Usage) }
{
    let mut names = Names::new(alloc);
    match accept_first(alloc, &mut names, program) {
        Ok(accepted) => judge_text(alloc, &names, &accepted, text),
        Err(refusal) => refused(names, Side::First, refusal),
    }
}

/// The answer to an accepted program and a file that is to be a behaviour.
fn judge_text(
    alloc: Global,
    names: &Names,
    accepted: &Accepted,
    text: &Loaded,
) -> Result<Answer, Memory>
    requires short { IsShort most_bytes text.now }
    requires distinct { IsDistinct names.now }
    requires interface { HasInterface names.now accepted.now.program }
    ensures judged { IfOk result (λ answer. (bytes : List ℕ) → IsLoaded most_bytes (Some bytes) text.now
        → IsJudged bytes names.now (seen accepted.now.program) answer) }
    ensures printable { IfOk result IsPrintable }
    ensures usage { IfOk result (λ answer. answer ≢ Answer.Usage) }
{
    match text {
        Loaded::Bytes(bytes) => judge_bytes(alloc, names, accepted, bytes.as_slice()),
        Loaded::TooLong => Ok(Answer::TooLong(Side::Second)),
    }
}

/// The answer to an accepted program and the bytes of a file that is to be a behaviour.
fn judge_bytes(
    alloc: Global,
    names: &Names,
    accepted: &Accepted,
    bytes: &[u8],
) -> Result<Answer, Memory>
    requires short { length bytes.now ≤ most_bytes }
    requires distinct { IsDistinct names.now }
    requires interface { HasInterface names.now accepted.now.program }
    ensures judged { IfOk result (IsJudged bytes.now names.now (seen accepted.now.program)) }
    ensures printable { IfOk result IsPrintable }
    ensures usage { IfOk result (λ answer. answer ≢ Answer.Usage) }
{
    behaviours_are_read_as_written();
    faults_stand_where_nothing_goes_on();
    let program = accepted.program();
    match read(alloc, names, program.params.items(), bytes) {
        Ok(behaviour) => Ok(Answer::Member(is_member(alloc, accepted, &behaviour)?)),
        Err(fault) => refuse_claim(fault),
    }
}

/// The answer that refuses a behaviour, or `Memory` where memory ran out.
fn refuse_claim(fault: ClaimFault) -> Result<Answer, Memory>
    ensures told { IfOk result (IsClaimRefusal fault) }
    ensures printable { IfOk result IsPrintable }
    ensures usage { IfOk result (λ answer. answer ≢ Answer.Usage) }
{
    match fault {
        ClaimFault::Form { line } => Ok(Answer::RefusedClaim(line)),
        ClaimFault::Memory => Err(Memory),
    }
}

/// Whether a behaviour is one of the program's. Its states are of the program's interface.
fn is_member(alloc: Global, accepted: &Accepted, behaviour: &Behaviour) -> Result<bool, Memory>
    requires { IsOf accepted.now.program.params behaviour.now }
    ensures { IfOk result (λ is. IsTrue is ↔ IsMember accepted.now.program.params (tree accepted.now.program.body) behaviour.now) }
{
    let state = &behaviour.state;
    let trace = behaviour.trace.items();
    match &behaviour.last {
        Last::Refuses(events) => fails(alloc, accepted, state, trace, events.items()),
        Last::Ends(last) => ends(alloc, accepted, state, trace, last),
    }
}
