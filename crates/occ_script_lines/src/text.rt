//! The texts of paths.

ghost use Rattle.std.specs.Prelude.{◌≡◌, ◌∷◌, ◌<◌, length, IfOk, IfSome};
ghost use Rattle.std.specs.List.{position_or_len, slice_split};
ghost use Rattle.occ_lex.specs.Spelling.{is_digit};
ghost use Rattle.occ_script_lines.specs.Places.{pieces_behind};
ghost use Rattle.occ_script_lines.specs.Texts.{is_byte, is_slash, numeral_of, path_of, place_of, places_of};

use crate::Path;
use occ_lex::Memory;
use std::alloc::Global;

fn is_digit(byte: u8) -> bool
    ensures { result ≡ is_digit byte }
{
    matches!(byte, b'0'..=b'9')
}

/// The value of decimal digits, where there is one and it is below 2 ^ 32.
#[tactic(auto, unfolding(crate::specs::Texts::numeral_of))]
fn numeral(digits: &[u8]) -> Option<u32>
    ensures { result ≡ numeral_of digits.now }
{
    if digits.is_empty() {
        return None;
    }
    let mut value: u64 = 0;
    for byte in digits {
        if !is_digit(*byte) {
            return None;
        }
        value = 10 * value + u64::from(*byte - b'0');
        if value > 4_294_967_295 {
            return None;
        }
    }
    Some(value as u32)
}

fn place(digits: &[u8]) -> Option<u32>
    ensures { result ≡ place_of digits.now }
{
    if digits.len() >= 2 && digits[0] == b'0' {
        return None;
    }
    numeral(digits)
}

/// How many bytes stand in front of the first byte of that value, or in the whole text.
fn piece_len(text: &[u8], byte: u8) -> usize
    ensures { result ≡ position_or_len (is_byte byte) text.now }
{
    text.iter().take_while(|other| **other != byte).count()
}

/// The text in front of the first byte of that value, and what stands behind it, where there is such a byte. It takes no memory.
pub fn cut(text: &[u8], byte: u8) -> (&[u8], Option<&[u8]>)
    ensures pieces { slice_split (is_byte byte) text.now ≡ result.0.now ∷ pieces_behind byte result.1 }
    ensures shorter { IfSome result.1 (λ behind. length behind.now < length text.now) }
{
    let len = piece_len(text, byte);
    if len < text.len() {
        (&text[..len], Some(&text[len + 1..]))
    } else {
        (text, None)
    }
}

fn places(alloc: Global, text: &[u8]) -> Result<Option<Path>, Memory>
    ensures { IfOk result (λ path. path ≡ places_of (slice_split is_slash text.now)) }
{
    let mut path = Path::new(alloc);
    let mut rest = Some(text);
    while let Some(text) = rest {
        let (piece, behind) = cut(text, b'/');
        let Some(place) = place(piece) else {
            return Ok(None);
        };
        path.push(place)?;
        rest = behind;
    }
    Ok(Some(path))
}

/// The path that a text writes: `/`, or one or more times a slash and a decimal numeral below 4,294,967,296 without zeros in
/// front. None exactly where it writes none.
pub fn path(alloc: Global, text: &[u8]) -> Result<Option<Path>, Memory>
    ensures { IfOk result (λ path. path ≡ path_of text.now) }
{
    match text {
        [] => Ok(None),
        [b'/'] => Ok(Some(Path::new(alloc))),
        [b'/', rest @ ..] => places(alloc, rest),
        _ => Ok(None),
    }
}
