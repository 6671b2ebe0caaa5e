//! Files as programs: accepted, or refused, and why.

ghost use Rattle.std.specs.Prelude.{◌≡◌, ◌≢◌, ◌≤◌, [], IfOk, IfErr, length, slice_index_or};
ghost use Rattle.occ_syntax.specs.occ_base.Names.{IsDistinct};
ghost use Rattle.occ_syntax.specs.View.{tree};
ghost use Rattle.occ_syntax.specs.Usage.{KeepsUsage};
ghost use Rattle.occ_run_schedule.specs.occ_usage.Accepted.{IsTyped};
ghost use Rattle.occ_tool_run.specs.Accepts.{node_of};
ghost use Rattle.occ_call.specs.Files.{IsShort, most_bytes};
ghost use Rattle.occ_tool_run.specs.Texts.{IsPrintable};
ghost use Rattle.occ_tool_run.specs.Judged.{HasInterface, IsAcceptedFrom, IsAcceptedAs, IsRefusedFrom, IsRefusedFor, IsFaulty, IsRefusalAt, IsRefusalAnswer, IsSayable};

use crate::answer::Answer;
use occ_call::Loaded;
use occ_read_renamed::parameters_have_names;
use occ_run_schedule::{Accepted, Side, UsageFault, check};
use occ_syntax::{Memory, Names};
use occ_tool_words::{Bound, ParseFault, Text, Which, parse};
use std::alloc::Global;

/// Why a program isn't accepted.
#[derive(Drop)]
pub enum Refusal {
    /// Its text reads as no program.
    Text(ParseFault),
    /// It breaks the rule of usage, at the PAR on the line.
    Usage { line: u32, fault: UsageFault },
    /// Want of memory.
    Memory,
}

/// Reads a program and judges its usage, with no names in the table yet.
pub fn accept_first(alloc: Global, names: &mut Names, loaded: &Loaded) -> Result<Accepted, Refusal>
    requires short { IsShort most_bytes loaded.now }
    requires empty { names.old ≡ [] }
    ensures accepted { IfOk result (λ a. IsAcceptedFrom loaded.now [] names.new a.program) }
    ensures distinct { IfOk result (λ a. IsDistinct names.new) }
    ensures interface { IfOk result (λ a. HasInterface names.new a.program) }
    ensures refused { IfErr result (IsRefusedFrom loaded.now [] names.new) }
    ensures sayable { IfErr result (IsSayable names.new) }
{
    parameters_have_names();
    accept(alloc, names, loaded)
}

/// Reads a program and judges its usage.
pub fn accept(alloc: Global, names: &mut Names, loaded: &Loaded) -> Result<Accepted, Refusal>
    requires { IsShort most_bytes loaded.now }
    ensures accepted { IfOk result (λ a. IsAcceptedFrom loaded.now names.old names.new a.program) }
    ensures refused { IfErr result (IsRefusedFrom loaded.now names.old names.new) }
    ensures sayable { IfErr result (IsSayable names.new) }
{
    match loaded {
        Loaded::Bytes(text) => accept_text(alloc, names, text.as_slice()),
        Loaded::TooLong => Err(Refusal::Text(ParseFault::Limit {
            which: Which::Bytes,
            line: 1,
        })),
    }
}

fn accept_text(alloc: Global, names: &mut Names, text: &[u8]) -> Result<Accepted, Refusal>
    requires { length text.now ≤ 65536 }
    ensures accepted { IfOk result (λ a. IsAcceptedAs text.now names.old names.new a.program) }
    ensures refused { IfErr result (IsRefusedFor text.now names.old names.new) }
{
    match parse(alloc, names, text, Bound::Program) {
        Ok(read) => accept_program(alloc, read),
        Err(ParseFault::Memory) => Err(Refusal::Memory),
        Err(fault) => Err(Refusal::Text(fault)),
    }
}

/// Judges the usage of a program that was read.
fn accept_program(alloc: Global, read: Text) -> Result<Accepted, Refusal>
    requires { IsTyped read.program }
    ensures accepted { IfOk result (λ a. (a.program ≡ read.program) × KeepsUsage (tree read.program.body)) }
    ensures refused { IfErr result (IsFaulty read.program read.lines) }
{
    let Text { program, lines } = read;
    match check(alloc, program) {
        Ok(accepted) => Ok(accepted),
        Err(fault) => Err(refusal_at(lines.items(), fault)),
    }
}

/// The refusal for a fault of usage, by the lines of the processes.
fn refusal_at(lines: &[u32], fault: UsageFault) -> Refusal
    ensures { IsRefusalAt lines.now fault result }
{
    match fault {
        UsageFault::Memory => Refusal::Memory,
        UsageFault::SharedVariable { node, .. } | UsageFault::SharedEnd { node, .. } => {
            Refusal::Usage {
                line: line_at(lines, node),
                fault,
            }
        }
    }
}

/// The line of the PAR of a fault of usage, by the lines of the processes.
pub fn line_of(lines: &[u32], fault: UsageFault) -> u32
    ensures { result ≡ slice_index_or lines.now (node_of fault) 1 }
{
    match fault {
        UsageFault::SharedVariable { node, .. } => line_at(lines, node),
        UsageFault::SharedEnd { node, .. } => line_at(lines, node),
        UsageFault::Memory => line_at(lines, 0),
    }
}

/// The line of a process, by its number.
fn line_at(lines: &[u32], node: u32) -> u32
    ensures { result ≡ slice_index_or lines.now node 1 }
{
    match lines.get(node as usize) {
        Some(line) => *line,
        None => 1,
    }
}

/// The answer that refuses a text, or `Memory` where memory ran out.
pub fn refused(names: Names, place: Side, refusal: Refusal) -> Result<Answer, Memory>
    requires { IsSayable names refusal }
    ensures refused { IfOk result (IsRefusalAnswer names place refusal) }
    ensures printable { IfOk result IsPrintable }
    ensures usage { IfOk result (λ answer. answer ≢ Answer.Usage) }
{
    match refusal {
        Refusal::Text(fault) => Ok(Answer::Refused(place, fault)),
        Refusal::Usage { line, fault } => Ok(Answer::Unusable {
            names,
            place,
            line,
            fault,
        }),
        Refusal::Memory => Err(Memory),
    }
}
