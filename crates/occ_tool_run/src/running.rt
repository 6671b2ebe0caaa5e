ghost use Rattle.std.specs.Prelude.{◌≡◌, ◌≢◌, ◌≤◌, ℕ, List, Option, Some, IfOk, length};
ghost use Rattle.occ_tool_words.specs.occ_parse.Known.{NamesAreKnown};
ghost use Rattle.occ_tool_run.specs.Answers.{Steps};
ghost use Rattle.occ_call.specs.Files.{IsLoaded, IsShort, most_bytes};
ghost use Rattle.occ_tool_run.specs.Judged.{HasInterface};
ghost use Rattle.occ_tool_run.specs.Runs.{IsRun, IsScheduleRefusal};
ghost use Rattle.occ_tool_run.specs.Texts.{IsPrintable};

use crate::accept::{accept_first, refused};
use crate::answer::Answer;
use occ_call::Loaded;
use occ_run_schedule::{Accepted, ScheduleFault, Side, follow, read};
use occ_syntax::{Memory, Names};
use std::alloc::Global;

/// The answer to two files: of a program, and of a schedule that its steps are to follow. The program is judged first.
pub fn step(alloc: Global, program: &Loaded, text: &Loaded) -> Result<Answer, Memory>
    requires program { IsShort most_bytes program.now }
    requires text { IsShort most_bytes text.now }
    ensures steps { IfOk result (λ answer. (one two : Option (List ℕ)) → IsLoaded most_bytes one program.now
        → IsLoaded most_bytes two text.now → Steps one two answer) }
    ensures printable { IfOk result IsPrintable }
    ensures usage { IfOk result (λ answer. answer ≢ Answer.Usage) }
{
    let mut names = Names::new(alloc);
    match accept_first(alloc, &mut names, program) {
        Ok(accepted) => run_text(alloc, names, &accepted, text),
        Err(refusal) => refused(names, Side::First, refusal),
    }
}

/// The answer to an accepted program and a file that is to be a schedule.
fn run_text(
    alloc: Global,
    names: Names,
    accepted: &Accepted,
    text: &Loaded,
) -> Result<Answer, Memory>
    requires short { IsShort most_bytes text.now }
    requires interface { HasInterface names accepted.now.program }
    requires known { NamesAreKnown names accepted.now.program }
    ensures run { IfOk result (λ answer. (bytes : List ℕ) → IsLoaded most_bytes (Some bytes) text.now
        → IsRun bytes names accepted.now.program answer) }
    ensures printable { IfOk result IsPrintable }
    ensures usage { IfOk result (λ answer. answer ≢ Answer.Usage) }
{
    match text {
        Loaded::Bytes(bytes) => run_bytes(alloc, names, accepted, bytes.as_slice()),
        Loaded::TooLong => Ok(Answer::TooLong(Side::Second)),
    }
}

/// The answer to an accepted program and the bytes of a file that is to be a schedule.
fn run_bytes(
    alloc: Global,
    names: Names,
    accepted: &Accepted,
    bytes: &[u8],
) -> Result<Answer, Memory>
    requires short { length bytes.now ≤ most_bytes }
    requires interface { HasInterface names accepted.now.program }
    requires known { NamesAreKnown names accepted.now.program }
    ensures run { IfOk result (IsRun bytes.now names accepted.now.program) }
    ensures printable { IfOk result IsPrintable }
    ensures usage { IfOk result (λ answer. answer ≢ Answer.Usage) }
{
    let program = accepted.program();
    match read(alloc, program.params.items(), bytes) {
        Ok(schedule) => {
            let followed = follow(alloc, accepted, schedule)?;
            Ok(Answer::Stepped(names, followed))
        }
        Err(fault) => refuse_schedule(fault),
    }
}

/// The answer that refuses a schedule, or `Memory` where memory ran out.
fn refuse_schedule(fault: ScheduleFault) -> Result<Answer, Memory>
    ensures told { IfOk result (IsScheduleRefusal fault) }
    ensures printable { IfOk result IsPrintable }
    ensures usage { IfOk result (λ answer. answer ≢ Answer.Usage) }
{
    match fault {
        ScheduleFault::Form { line } => Ok(Answer::RefusedSchedule(line)),
        ScheduleFault::Memory => Err(Memory),
    }
}
