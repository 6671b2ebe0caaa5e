ghost use Rattle.std.specs.Prelude.{◌≢◌, ◌≤◌, Some, IfOk};
ghost use Rattle.occ_call.specs.Files.{IsLoaded, IsShort, most_bytes};
ghost use Rattle.occ_tool_run.specs.Judged.{HasInterface};
ghost use Rattle.occ_tool_run.specs.Stored.{seen};
ghost use Rattle.occ_tool_run.specs.Texts.{IsPrintable};
ghost use Rattle.occ_tool_run.specs.Answers.{IsStressed, Stresses};

use crate::accept::{Refusal, accept_first};
use crate::answer::Answer;
use occ_call::{Loaded, MOST_BYTES};
use occ_read_renamed::measured;
use occ_run_schedule::{Accepted, a_normal_text_is_its_tables};
use occ_syntax::{Memory, Names};
use occ_tool_words::{
    GenFault, Shape, generate, generated_programs_are_accepted,
    generated_programs_are_never_refused, one_reading,
};
use std::alloc::Global;

/// The answer to the order to measure a generated program of that many stages, from 1 to 48, whose text is accepted.
pub fn stress(alloc: Global, shape: Shape, stages: u64) -> Result<Answer, Memory>
    requires some { 1 ≤ stages }
    requires most { stages ≤ 48 }
    ensures stresses { IfOk result (Stresses shape stages) }
    ensures printable { IfOk result IsPrintable }
    ensures usage { IfOk result (λ answer. answer ≢ Answer.Usage) }
{
    let text = match generate(alloc, shape, stages) {
        Ok(text) => text,
        Err(GenFault::Memory) => return Err(Memory),
        Err(GenFault::Range) => unreachable!(),
    };
    let loaded = as_loaded(text);
    let mut names = Names::new(alloc);
    generated_programs_are_never_refused();
    generated_programs_are_accepted();
    one_reading();
    match accept_first(alloc, &mut names, &loaded) {
        Ok(accepted) => figures(alloc, &names, &accepted, shape, stages),
        Err(Refusal::Memory) => Err(Memory),
        Err(Refusal::Text(_)) => unreachable!(),
        Err(Refusal::Usage { .. }) => unreachable!(),
    }
}

/// A text as it would be read from a file.
fn as_loaded(text: Vec<u8>) -> Loaded
    ensures loaded { IsLoaded most_bytes (Some text.items) result }
    ensures short { IsShort most_bytes result }
{
    if text.len() as u64 > MOST_BYTES {
        Loaded::TooLong
    } else {
        Loaded::Bytes(text)
    }
}

/// The figures of the normal text of an accepted program.
fn figures(
    alloc: Global,
    names: &Names,
    accepted: &Accepted,
    shape: Shape,
    stages: u64,
) -> Result<Answer, Memory>
    requires { HasInterface names.now accepted.now.program }
    ensures stressed { IfOk result (IsStressed shape stages names.now (seen accepted.now.program)) }
    ensures printable { IfOk result IsPrintable }
    ensures usage { IfOk result (λ answer. answer ≢ Answer.Usage) }
{
    a_normal_text_is_its_tables();
    let counts = measured(alloc, names, accepted)?;
    Ok(Answer::Stressed {
        shape,
        stages,
        counts,
    })
}
