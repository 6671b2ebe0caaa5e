ghost use Rattle.std.specs.Prelude.{◌≡◌, ◌≢◌, ◌≤◌, ◌<◌, ℕ, List, Option, [], IfOk, length};
ghost use Rattle.occ_tool_words.specs.occ_parse.Known.{NamesAreKnown};
ghost use Rattle.occ_tool_run.specs.Derivations.{IsRejection, IsReplayAnswer, IsReplayOf, IsScriptRefusal, Replays, line_of_cause};
ghost use Rattle.occ_call.specs.Files.{IsLoaded, IsShort, most_script_bytes};
ghost use Rattle.occ_replay.specs.declared.result.Rejected.TheVariants as rejected;
ghost use Rattle.occ_replay.specs.occ_script.declared.fault.ScriptFault.TheVariants as script;
ghost use Rattle.occ_tool_run.specs.Texts.{CauseIsNamed, IsPrintable, ScriptFaultIsTold};
ghost use Rattle.occ_run_schedule.specs.occ_usage.Accepted.{IsTyped};

use crate::accept::line_of;
use crate::answer::Answer;
use occ_call::Loaded;
use occ_replay::{Rejected, Script, ScriptFault, derivations_join_the_same, read};
use occ_run_schedule::Side;
use occ_syntax::{Memory, Names};
use std::alloc::Global;

/// The answer to a file that is to be a script.
pub fn replay(alloc: Global, text: &Loaded) -> Result<Answer, Memory>
    requires { IsShort most_script_bytes text.now }
    ensures replays { IfOk result (λ answer. (file : Option (List ℕ)) → IsLoaded most_script_bytes file text.now → Replays file answer) }
    ensures printable { IfOk result IsPrintable }
    ensures usage { IfOk result (λ answer. answer ≢ Answer.Usage) }
{
    match text {
        Loaded::Bytes(bytes) => replay_bytes(alloc, bytes.as_slice()),
        Loaded::TooLong => Ok(Answer::TooLong(Side::First)),
    }
}

/// The answer to the bytes of a file that is to be a script.
fn replay_bytes(alloc: Global, bytes: &[u8]) -> Result<Answer, Memory>
    requires { length bytes.now ≤ most_script_bytes }
    ensures replayed { IfOk result (IsReplayAnswer bytes.now) }
    ensures printable { IfOk result IsPrintable }
    ensures usage { IfOk result (λ answer. answer ≢ Answer.Usage) }
{
    let mut names = Names::new(alloc);
    match read(alloc, &mut names, bytes) {
        Ok(script) => replay_script(alloc, names, &script),
        Err(fault) => refuse_script(fault),
    }
}

/// The answer that refuses a script, or out of memory where that is why.
fn refuse_script(fault: ScriptFault) -> Result<Answer, Memory>
    requires { fault ≢ script.Memory → ScriptFaultIsTold fault }
    ensures told { IfOk result (IsScriptRefusal fault) }
    ensures printable { IfOk result IsPrintable }
    ensures usage { IfOk result (λ answer. answer ≢ Answer.Usage) }
{
    if fault == ScriptFault::Memory {
        return Err(Memory);
    }
    Ok(Answer::RefusedScript(fault))
}

/// The answer to a script that was read.
fn replay_script(alloc: Global, names: Names, script: &Script) -> Result<Answer, Memory>
    requires typed { IsTyped script.now.from.program }
    requires few { length script.now.steps < 4294967295 }
    requires known { NamesAreKnown names script.now.from.program }
    ensures replayed { IfOk result (IsReplayOf script.now names) }
    ensures printable { IfOk result IsPrintable }
    ensures usage { IfOk result (λ answer. answer ≢ Answer.Usage) }
{
    derivations_join_the_same();
    match occ_replay::replay(alloc, script) {
        Ok(joined) => Ok(Answer::Joined(joined.steps)),
        Err(cause) => reject(names, script.from.lines.items(), cause),
    }
}

/// The answer that rejects a script, or out of memory where that is why.
fn reject(names: Names, lines: &[u32], cause: Rejected) -> Result<Answer, Memory>
    requires { cause ≢ rejected.Memory → CauseIsNamed names cause }
    ensures told { IfOk result (IsRejection names lines.now cause) }
    ensures printable { IfOk result IsPrintable }
    ensures usage { IfOk result (λ answer. answer ≢ Answer.Usage) }
{
    if cause == Rejected::Memory {
        return Err(Memory);
    }
    let line = cause_line(lines, cause);
    Ok(Answer::Unjoined { names, line, cause })
}

/// The line of the PAR, where a program breaks the usage rule; else 1.
fn cause_line(lines: &[u32], cause: Rejected) -> u32
    ensures { result ≡ line_of_cause lines.now cause }
{
    match cause {
        Rejected::From(fault) => line_of(lines, fault),
        _ => 1,
    }
}
