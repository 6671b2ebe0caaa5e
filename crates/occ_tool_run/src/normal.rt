ghost use Rattle.std.specs.Prelude.{◌≡◌, ◌≢◌, ◌≤◌, ℕ, List, Option, IfOk, length};
ghost use Rattle.occ_call.specs.Files.{IsLoaded, IsShort, most_bytes, most_table_bytes};
ghost use Rattle.occ_tool_run.specs.Judged.{HasInterface};
ghost use Rattle.occ_tool_run.specs.Stored.{seen};
ghost use Rattle.occ_tool_run.specs.Texts.{IsPrintable};
ghost use Rattle.occ_tool_run.specs.Answers.{Checks, IsChecked, IsNormalised, Normalises};

use crate::accept::{accept_first, refused};
use crate::answer::Answer;
use occ_call::Loaded;
use occ_read_renamed::normal_text;
use occ_run_schedule::{
    Accepted, Side, TableFault, a_normal_text_is_its_tables, faults_are_those_of_what_is_written,
    nform_read_read as read, normal_texts_are_read_as_written,
};
use occ_syntax::{Memory, Names};
use std::alloc::Global;

/// The answer to a file whose program's normal text is asked for.
pub fn normalise(alloc: Global, program: &Loaded) -> Result<Answer, Memory>
    requires { IsShort most_bytes program.now }
    ensures normalises { IfOk result (λ answer. (file : Option (List ℕ)) → IsLoaded most_bytes file program.now → Normalises file answer) }
    ensures printable { IfOk result IsPrintable }
    ensures usage { IfOk result (λ answer. answer ≢ Answer.Usage) }
{
    let mut names = Names::new(alloc);
    match accept_first(alloc, &mut names, program) {
        Ok(accepted) => write(alloc, &names, &accepted),
        Err(refusal) => refused(names, Side::First, refusal),
    }
}

/// The normal text of an accepted program.
fn write(alloc: Global, names: &Names, accepted: &Accepted) -> Result<Answer, Memory>
    requires { HasInterface names.now accepted.now.program }
    ensures normalised { IfOk result (IsNormalised names.now (seen accepted.now.program)) }
    ensures printable { IfOk result IsPrintable }
    ensures usage { IfOk result (λ answer. answer ≢ Answer.Usage) }
{
    a_normal_text_is_its_tables();
    let text = normal_text(alloc, names, accepted)?;
    Ok(Answer::Written(text))
}

/// The answer to a file that is to be a normal text.
pub fn check(alloc: Global, text: &Loaded) -> Result<Answer, Memory>
    requires { IsShort most_table_bytes text.now }
    ensures checks { IfOk result (λ answer. (file : Option (List ℕ)) → IsLoaded most_table_bytes file text.now → Checks file answer) }
    ensures printable { IfOk result IsPrintable }
    ensures usage { IfOk result (λ answer. answer ≢ Answer.Usage) }
{
    match text {
        Loaded::Bytes(bytes) => check_bytes(alloc, bytes.as_slice()),
        Loaded::TooLong => Ok(Answer::TooLong(Side::First)),
    }
}

/// The answer to the bytes of a file that is to be a normal text.
fn check_bytes(alloc: Global, bytes: &[u8]) -> Result<Answer, Memory>
    requires { length bytes.now ≤ most_table_bytes }
    ensures checked { IfOk result (IsChecked bytes.now) }
    ensures printable { IfOk result IsPrintable }
    ensures usage { IfOk result (λ answer. answer ≢ Answer.Usage) }
{
    normal_texts_are_read_as_written();
    faults_are_those_of_what_is_written();
    let mut names = Names::new(alloc);
    match read(alloc, &mut names, bytes) {
        Ok(table) => Ok(Answer::Counted(table.rows.items().len() as u64)),
        Err(fault) => refuse_table(fault),
    }
}

/// The answer that refuses a normal text, or `Memory` where memory ran out.
fn refuse_table(fault: TableFault) -> Result<Answer, Memory>
    ensures told { IfOk result (λ answer. answer ≡ Answer.RefusedTable fault) }
    ensures sound { IfOk result (λ answer. fault ≢ TableFault.Memory) }
    ensures printable { IfOk result IsPrintable }
    ensures usage { IfOk result (λ answer. answer ≢ Answer.Usage) }
{
    if fault == TableFault::Memory {
        return Err(Memory);
    }
    Ok(Answer::RefusedTable(fault))
}
