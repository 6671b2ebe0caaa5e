//! Files as a program and a schedule, and the steps where the schedule leads.

ghost use Rattle.std.specs.Prelude.{◌≡◌, ◌≤◌, ◌<◌, [], ℕ, List, Option, Some, IfOk, length, true};
ghost use Rattle.occ_stepped.specs.occ_behaviour.States.{is_state};
ghost use Rattle.occ_tool_run.specs.occ_call.Files.{IsLoaded, IsShort, most_bytes};
ghost use Rattle.occ_tool_run.specs.occ_parse.Known.{NamesAreKnown};
ghost use Rattle.occ_tool_run.specs.Judged.{HasInterface, IsSayable as CanBeSaid};
ghost use Rattle.occ_steps.specs.Findings.{IsBehind, IsRefusedBy, IsSayable, IsScheduleRefused, Lists, ListsAtStart, ListsIn};

use crate::finding::Finding;
use occ_stepped::{Followed, Led, Schedule, ScheduleFault, beginning, lead, read, show};
use occ_tool_run::accept::{Refusal, accept_first, refused};
use occ_tool_run::answer::Answer;
use occ_tool_run::{Accepted, Loaded, Memory, Names, Side};
use std::alloc::Global;

/// The answer to two files, of a program and of a schedule. The program is judged first.
pub(crate) fn list(alloc: Global, program: &Loaded, text: &Loaded) -> Result<Finding, Memory>
    requires program { IsShort most_bytes program.now }
    requires text { IsShort most_bytes text.now }
    ensures lists { IfOk result (λ finding. (one two : Option (List ℕ)) → IsLoaded most_bytes one program.now
        → IsLoaded most_bytes two text.now → Lists one two finding) }
    ensures sayable { IfOk result IsSayable }
{
    let mut names = Names::new(alloc);
    match accept_first(alloc, &mut names, program) {
        Ok(accepted) => list_in(alloc, names, (&accepted, bytes_of(program)), text),
        Err(refusal) => refuse(names, refusal),
    }
}

/// The answer to the file of a program.
pub(crate) fn list_at_start(alloc: Global, program: &Loaded) -> Result<Finding, Memory>
    requires { IsShort most_bytes program.now }
    ensures lists { IfOk result (λ finding. (file : Option (List ℕ)) → IsLoaded most_bytes file program.now → ListsAtStart file finding) }
    ensures sayable { IfOk result IsSayable }
{
    let mut names = Names::new(alloc);
    match accept_first(alloc, &mut names, program) {
        Ok(accepted) => {
            let schedule = beginning(alloc, accepted.program().params.items())?;
            behind(alloc, names, (&accepted, bytes_of(program)), &schedule)
        }
        Err(refusal) => refuse(names, refusal),
    }
}

/// The bytes of a file; none of one that is too long.
fn bytes_of(file: &Loaded) -> &[u8]
    requires { IsShort most_bytes file.now }
    ensures { length result.now < 4294967295 }
{
    match file {
        Loaded::Bytes(bytes) => bytes.as_slice(),
        Loaded::TooLong => b"",
    }
}

/// The answer that refuses the program, or out of memory where that is why.
fn refuse(names: Names, refusal: Refusal) -> Result<Finding, Memory>
    requires { CanBeSaid names refusal }
    ensures refused { IfOk result (IsRefusedBy names refusal) }
    ensures sayable { IfOk result IsSayable }
{
    let answer = refused(names, Side::First, refusal)?;
    Ok(Finding::Refused(answer))
}

/// The answer to an accepted program and a file that is to be a schedule.
fn list_in(
    alloc: Global,
    names: Names,
    program: (&Accepted, &[u8]),
    text: &Loaded,
) -> Result<Finding, Memory>
    requires text { IsShort most_bytes text.now }
    requires short { length program.1.now < 4294967295 }
    requires interface { HasInterface names program.0.now.program }
    requires known { NamesAreKnown names program.0.now.program }
    ensures lists { IfOk result (λ finding. (bytes : List ℕ) → IsLoaded most_bytes (Some bytes) text.now
        → ListsIn bytes names program.entry.0.now.program finding) }
    ensures sayable { IfOk result IsSayable }
{
    match text {
        Loaded::Bytes(bytes) => list_in_bytes(alloc, names, program, bytes.as_slice()),
        Loaded::TooLong => Ok(Finding::Refused(Answer::TooLong(Side::Second))),
    }
}

/// The answer to an accepted program and the bytes of a file that is to be a schedule.
fn list_in_bytes(
    alloc: Global,
    names: Names,
    program: (&Accepted, &[u8]),
    bytes: &[u8],
) -> Result<Finding, Memory>
    requires text { length bytes.now ≤ most_bytes }
    requires short { length program.1.now < 4294967295 }
    requires interface { HasInterface names program.0.now.program }
    requires known { NamesAreKnown names program.0.now.program }
    ensures lists { IfOk result (ListsIn bytes.now names program.entry.0.now.program) }
    ensures sayable { IfOk result IsSayable }
{
    let accepted = program.0.program();
    match read(alloc, accepted.params.items(), bytes) {
        Ok(schedule) => behind(alloc, names, program, &schedule),
        Err(fault) => refuse_schedule(fault),
    }
}

/// The answer that refuses a schedule, or out of memory where that is why.
fn refuse_schedule(fault: ScheduleFault) -> Result<Finding, Memory>
    ensures refused { IfOk result (IsScheduleRefused fault) }
    ensures sayable { IfOk result IsSayable }
{
    match fault {
        ScheduleFault::Form { line } => Ok(Finding::Refused(Answer::RefusedSchedule(line))),
        ScheduleFault::Memory => Err(Memory),
    }
}

/// The answer to an accepted program and a schedule.
fn behind(
    alloc: Global,
    names: Names,
    program: (&Accepted, &[u8]),
    schedule: &Schedule,
) -> Result<Finding, Memory>
    requires short { length program.1.now < 4294967295 }
    requires state { is_state program.0.now.program.params schedule.now.state ≡ true }
    requires known { NamesAreKnown names program.0.now.program }
    ensures behind { IfOk result (IsBehind names program.entry.0.now.program schedule.now) }
    ensures sayable { IfOk result IsSayable }
{
    let led = lead(alloc, program.0, schedule)?;
    match led {
        Led::Missing(step) => Ok(Finding::Refused(Answer::Stepped(
            names,
            Followed::NoStep { step },
        ))),
        Led::There(machine) => {
            let text = show(alloc, &names, program, schedule, &machine)?;
            Ok(Finding::Shown(text))
        }
    }
}
