//! Why a program isn't transformed.

ghost use Rattle.std.specs.Prelude.{◌≡◌, IfOk};
ghost use Rattle.occ_tool_run.specs.Texts.{order_refusal_text, path_refusal_text, reason_text};

use itoa::Buffer;
use occ_syntax::Memory;
use std::alloc::Global;

/// Why an order isn't followed, or a part isn't expanded.
#[derive(Clone, Copy, Debug, PartialEq, Eq)]
pub enum Reason {
    /// No law has the order's name.
    NoLaw,
    /// There is no part at the path.
    NoPath,
    /// The part isn't a PAR of two parts.
    NotPar,
    /// The new part may not be put in.
    NotAccepted,
    /// The law doesn't apply to the part.
    NotApplicable,
}

/// How a reason is written.
fn reason_words(reason: Reason) -> &'static [u8]
    ensures { result.now ≡ reason_text reason }
{
    match reason {
        Reason::NoLaw => b"NoLaw",
        Reason::NoPath => b"NoPath",
        Reason::NotPar => b"NotPar",
        Reason::NotAccepted => b"NotAccepted",
        Reason::NotApplicable => b"NotApplicable",
    }
}

/// The line that refuses an order, by its number from 1.
pub fn order_refusal(alloc: Global, order: u32, reason: Reason) -> Result<Vec<u8>, Memory>
    ensures { IfOk result (λ text. text.items ≡ order_refusal_text order reason) }
{
    let mut buffer = Buffer::new();
    let mut text = Vec::from_slice(alloc, b"REFUSED ORDER ")?;
    text.extend_from_slice(buffer.format(order).as_bytes())?;
    text.extend_from_slice(b" ")?;
    text.extend_from_slice(reason_words(reason))?;
    text.extend_from_slice(b"\n")?;
    Ok(text)
}

/// The line that refuses the path of an expansion.
pub fn path_refusal(alloc: Global, reason: Reason) -> Result<Vec<u8>, Memory>
    ensures { IfOk result (λ text. text.items ≡ path_refusal_text reason) }
{
    let mut text = Vec::from_slice(alloc, b"REFUSED PATH ")?;
    text.extend_from_slice(reason_words(reason))?;
    text.extend_from_slice(b"\n")?;
    Ok(text)
}
