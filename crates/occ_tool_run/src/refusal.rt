//! The lines that refuse texts.

ghost use Rattle.std.specs.Prelude.{◌≡◌, ◌≢◌, ◌++◌, ◌∷◌, decimal, codes, IfOk};
ghost use Rattle.occ_run_schedule.specs.occ_behaviour.Texts.{mark_text};
ghost use Rattle.occ_tool_run.specs.Texts.{place_text, told_of, refusal_text, refused_at_text, words_of_usage, line_fault_text, limit_text, row_refusal_text, script_refusal_text, table_refusal_text, FaultIsNamed, ScriptFaultIsTold};

use itoa::Buffer;
use occ_replay::{LineFault, ScriptFault};
use occ_run_schedule::{Side, TableFault, UsageFault};
use occ_syntax::{Dir, Memory, Names};
use occ_tool_words::{ParseFault, Which};
use std::alloc::Global;

/// The line that refuses a program.
pub fn refusal(alloc: Global, place: Side, fault: ParseFault) -> Result<Vec<u8>, Memory>
    requires { fault ≢ ParseFault.Memory }
    ensures { IfOk result (λ text. text.items ≡ refusal_text place (told_of fault).0 (told_of fault).1) }
{
    refusal_with(alloc, place, line(fault), words(fault))
}

/// The line of a refusal with these words for the fault.
pub fn refusal_with(alloc: Global, place: Side, line: u32, words: &[u8]) -> Result<Vec<u8>, Memory>
    ensures { IfOk result (λ text. text.items ≡ refusal_text place line words.now) }
{
    let mut text = refused_at(alloc, place, line)?;
    text.extend_from_slice(words)?;
    text.extend_from_slice(b"\n")?;
    Ok(text)
}

/// The line that refuses a text of too many bytes.
pub fn too_long(alloc: Global, place: Side) -> Result<Vec<u8>, Memory>
    ensures { IfOk result (λ text. text.items ≡ refusal_text place 1 (codes "Limit Bytes")) }
{
    refusal_with(alloc, place, 1, b"Limit Bytes")
}

/// The line that refuses a behaviour.
pub fn claim_refusal(alloc: Global, line: u32) -> Result<Vec<u8>, Memory>
    ensures { IfOk result (λ text. text.items ≡ refusal_text Side.Second line (codes "Form")) }
{
    refusal_with(alloc, Side::Second, line, b"Form")
}

/// The line that refuses a text which isn't normal.
pub fn table_refusal(alloc: Global, fault: TableFault) -> Result<Vec<u8>, Memory>
    requires { fault ≢ TableFault.Memory }
    ensures { IfOk result (λ text. text.items ≡ table_refusal_text fault) }
{
    match fault {
        TableFault::Form { line } => refusal_with(alloc, Side::First, line, b"Form"),
        TableFault::Order { line } => refusal_with(alloc, Side::First, line, b"Order"),
        TableFault::NotLeast { line } => refusal_with(alloc, Side::First, line, b"NotLeast"),
        TableFault::Empty { row } => row_refusal(alloc, row, b"Empty"),
        TableFault::Unreached { row } => row_refusal(alloc, row, b"Unreached"),
        TableFault::Memory => unreachable!(),
    }
}

/// The line that refuses a row, with these words for its fault.
fn row_refusal(alloc: Global, row: u32, words: &[u8]) -> Result<Vec<u8>, Memory>
    ensures { IfOk result (λ text. text.items ≡ row_refusal_text row words.now) }
{
    let mut buffer = Buffer::new();
    let mut text = Vec::from_slice(alloc, b"REFUSED FIRST ROW ")?;
    text.extend_from_slice(buffer.format(row).as_bytes())?;
    text.extend_from_slice(b" ")?;
    text.extend_from_slice(words)?;
    text.extend_from_slice(b"\n")?;
    Ok(text)
}

/// The front of a refusal: the place of the text and the line.
fn refused_at(alloc: Global, place: Side, line: u32) -> Result<Vec<u8>, Memory>
    ensures { IfOk result (λ text. text.items ≡ refused_at_text place line) }
{
    let mut buffer = Buffer::new();
    let mut text = Vec::from_slice(alloc, b"REFUSED ")?;
    text.extend_from_slice(place_words(place))?;
    text.extend_from_slice(b" ")?;
    text.extend_from_slice(buffer.format(line).as_bytes())?;
    text.extend_from_slice(b" ")?;
    Ok(text)
}

/// The line of a refusal for what the parts of a PAR share.
pub fn usage_refusal(
    alloc: Global,
    names: &Names,
    place: Side,
    line: u32,
    fault: UsageFault,
) -> Result<Vec<u8>, Memory>
    requires { FaultIsNamed names.now fault }
    ensures { IfOk result (λ text. text.items ≡ refusal_text place line (words_of_usage names.now fault)) }
{
    let words = usage_words(alloc, names, fault)?;
    let mut text = refused_at(alloc, place, line)?;
    text.extend_from_slice(words.as_slice())?;
    text.extend_from_slice(b"\n")?;
    Ok(text)
}

/// The line that refuses a script, or orders.
pub fn script_refusal(alloc: Global, place: Side, fault: ScriptFault) -> Result<Vec<u8>, Memory>
    requires { ScriptFaultIsTold fault }
    ensures { IfOk result (λ text. text.items ≡ script_refusal_text place fault) }
{
    match fault {
        ScriptFault::Form { line } => refusal_with(alloc, place, line, b"Form"),
        ScriptFault::Version { line } => refusal_with(alloc, place, line, b"Version"),
        ScriptFault::Text(fault) => refusal(alloc, place, fault),
        ScriptFault::Memory => unreachable!(),
    }
}

/// The words for what the parts of a PAR share.
pub fn usage_words(alloc: Global, names: &Names, fault: UsageFault) -> Result<Vec<u8>, Memory>
    requires { FaultIsNamed names.now fault }
    ensures { IfOk result (λ text. text.items ≡ words_of_usage names.now fault) }
{
    match fault {
        UsageFault::SharedVariable { name, .. } => {
            let mut text = Vec::from_slice(alloc, b"SharedVariable ")?;
            text.extend_from_slice(names.text(name))?;
            Ok(text)
        }
        UsageFault::SharedEnd { name, dir, .. } => {
            let mut text = Vec::from_slice(alloc, b"SharedEnd ")?;
            text.extend_from_slice(names.text(name))?;
            text.extend_from_slice(b" ")?;
            text.extend_from_slice(mark(dir))?;
            Ok(text)
        }
        UsageFault::Memory => unreachable!(),
    }
}

/// The mark of a channel's end.
fn mark(dir: Dir) -> &'static [u8]
    ensures { result.now ≡ mark_text dir }
{
    match dir {
        Dir::Input => b"?",
        Dir::Output => b"!",
    }
}

fn place_words(place: Side) -> &'static [u8]
    ensures { result.now ≡ place_text place }
{
    match place {
        Side::First => b"FIRST",
        Side::Second => b"SECOND",
    }
}

/// The line on which a text is refused.
fn line(fault: ParseFault) -> u32
    requires { fault ≢ ParseFault.Memory }
    ensures { result ≡ (told_of fault).0 }
{
    match fault {
        ParseFault::Line { line, .. } => line,
        ParseFault::Form { line } => line,
        ParseFault::Undeclared { line } => line,
        ParseFault::Redeclared { line } => line,
        ParseFault::Index { line } => line,
        ParseFault::TypeClash { line } => line,
        ParseFault::NoType { line } => line,
        ParseFault::Direction { line } => line,
        ParseFault::Limit { line, .. } => line,
        ParseFault::Memory => unreachable!(),
    }
}

/// The words for a fault.
fn words(fault: ParseFault) -> &'static [u8]
    requires { fault ≢ ParseFault.Memory }
    ensures { result.now ≡ (told_of fault).1 }
{
    match fault {
        ParseFault::Line { fault, .. } => line_fault_words(fault),
        ParseFault::Form { .. } => b"Form",
        ParseFault::Undeclared { .. } => b"Undeclared",
        ParseFault::Redeclared { .. } => b"Redeclared",
        ParseFault::Index { .. } => b"Index",
        ParseFault::TypeClash { .. } => b"TypeClash",
        ParseFault::NoType { .. } => b"NoType",
        ParseFault::Direction { .. } => b"Direction",
        ParseFault::Limit { which, .. } => limit_words(which),
        ParseFault::Memory => unreachable!(),
    }
}

fn line_fault_words(fault: LineFault) -> &'static [u8]
    ensures { result.now ≡ line_fault_text fault }
{
    match fault {
        LineFault::Tab => b"Line Tab",
        LineFault::OddIndent => b"Line OddIndent",
        LineFault::Char => b"Line Char",
        LineFault::Number => b"Line Number",
        LineFault::Name => b"Line Name",
    }
}

fn limit_words(which: Which) -> &'static [u8]
    ensures { result.now ≡ limit_text which }
{
    match which {
        Which::Bytes => b"Limit Bytes",
        Which::Levels => b"Limit Levels",
        Which::Tokens => b"Limit Tokens",
        Which::Parameters => b"Limit Parameters",
        Which::Count => b"Limit Count",
        Which::Controls => b"Limit Controls",
        Which::InterfaceBits => b"Limit InterfaceBits",
        Which::ScopeBits => b"Limit ScopeBits",
    }
}
