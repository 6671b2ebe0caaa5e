//! The lines and words of refusals.

ghost use Rattle.std.specs.Prelude.{◌≡◌, ◌≢◌, ◌++◌, ℕ, List, codes, IfOk};
ghost use Rattle.occ_tool_run.specs.Texts.{told_of};

use occ_tool_run::refusal::{refusal, refusal_with};
use occ_tool_run::{Memory, ParseFault, Side};
use std::alloc::Global;

/// The line of a refusal.
pub(crate) fn line_of(fault: ParseFault) -> u32
    requires { fault ≢ ParseFault.Memory }
    ensures { result ≡ (told_of fault).0 }
{
    match fault {
        ParseFault::Line { line, .. } | ParseFault::Limit { line, .. } => line,
        ParseFault::Form { line } | ParseFault::Undeclared { line } => line,
        ParseFault::Redeclared { line } | ParseFault::Index { line } => line,
        ParseFault::TypeClash { line } | ParseFault::NoType { line } => line,
        ParseFault::Direction { line } => line,
        ParseFault::Memory => unreachable!(),
    }
}

/// The words of a refusal: what the line that refuses has more than one without words.
pub(crate) fn words_of(alloc: Global, fault: ParseFault) -> Result<Vec<u8>, Memory>
    requires { fault ≢ ParseFault.Memory }
    ensures { IfOk result (λ words. words.items ≡ (told_of fault).1) }
{
    let said = refusal(alloc, Side::First, fault)?;
    let bare = refusal_with(alloc, Side::First, line_of(fault), b"")?;
    Ok(Vec::from_slice(alloc, more(said.as_slice(), bare.as_slice()))?)
}

/// What a line has more than another one, in front of the line feed.
fn more<'a>(said: &'a [u8], bare: &[u8]) -> &'a [u8]
    ensures { (front words : List ℕ) → said.entry.now ≡ front ++ words ++ codes "\n" → bare.now ≡ front ++ codes "\n" → result.now ≡ words }
{
    let from = bare.len().saturating_sub(1).min(said.len());
    let rest = &said[from..];
    &rest[..rest.len().saturating_sub(1)]
}
