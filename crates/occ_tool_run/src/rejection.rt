ghost use Rattle.std.specs.Prelude.{◌≡◌, IfOk};
ghost use Rattle.occ_tool_run.specs.Texts.{from_rejection_text, rejection_text, step_rejection_text, CauseIsNamed, FaultIsNamed, words_of_usage};

use crate::refusal::usage_words;
use itoa::Buffer;
use occ_replay::Rejected;
use occ_syntax::{Memory, Names};
use std::alloc::Global;

/// The line about a script that doesn't join its programs. Where the first program breaks the usage rule, the PAR stands on the
/// line.
pub fn rejection(
    alloc: Global,
    names: &Names,
    line: u32,
    cause: Rejected,
) -> Result<Vec<u8>, Memory>
    requires { CauseIsNamed names.now cause }
    ensures { IfOk result (λ text. text.items ≡ rejection_text names.now line cause) }
{
    match cause {
        Rejected::From(fault) => {
            let words = usage_words(alloc, names, fault)?;
            from_rejection(alloc, line, words.as_slice())
        }
        Rejected::NoLaw { step } => step_rejection(alloc, step, b"NoLaw"),
        Rejected::NoPath { step } => step_rejection(alloc, step, b"NoPath"),
        Rejected::NotAccepted { step } => step_rejection(alloc, step, b"NotAccepted"),
        Rejected::NotInstance { step } => step_rejection(alloc, step, b"NotInstance"),
        Rejected::WrongEnd => Ok(Vec::from_slice(alloc, b"REJECTED TO WrongEnd\n")?),
        Rejected::Memory => unreachable!(),
    }
}

fn from_rejection(alloc: Global, line: u32, words: &[u8]) -> Result<Vec<u8>, Memory>
    ensures { IfOk result (λ text. text.items ≡ from_rejection_text line words.now) }
{
    let mut buffer = Buffer::new();
    let mut text = Vec::from_slice(alloc, b"REJECTED FROM ")?;
    text.extend_from_slice(buffer.format(line).as_bytes())?;
    text.extend_from_slice(b" ")?;
    text.extend_from_slice(words)?;
    text.extend_from_slice(b"\n")?;
    Ok(text)
}

fn step_rejection(alloc: Global, step: u32, words: &[u8]) -> Result<Vec<u8>, Memory>
    ensures { IfOk result (λ text. text.items ≡ step_rejection_text step words.now) }
{
    let mut buffer = Buffer::new();
    let mut text = Vec::from_slice(alloc, b"REJECTED ")?;
    text.extend_from_slice(buffer.format(step).as_bytes())?;
    text.extend_from_slice(b" ")?;
    text.extend_from_slice(words)?;
    text.extend_from_slice(b"\n")?;
    Ok(text)
}
