ghost use Rattle.std.specs.Prelude.{◌≡◌, ◌<◌, ◌≤◌, ℕ, length, IfOk};
ghost use Rattle.std.specs.List.{prefix_len};
ghost use Rattle.occ_lex.specs.Spelling.{is_digit, is_name_byte, kind_of};
ghost use Rattle.occ_lex.specs.Scan.{sign_len};
ghost use Rattle.occ_lex.specs.Tokens.{first_token, judged, longest};

use crate::spelling::{is_digit, is_letter, is_name_byte, is_sign, kind_of, numeral_value};
use crate::{LineFault, TokenKind};

fn name_len(bytes: &[u8]) -> usize
    ensures { result ≡ prefix_len is_name_byte bytes.now }
{
    bytes.iter().take_while(|byte| is_name_byte(**byte)).count()
}

fn numeral_len(bytes: &[u8]) -> usize
    ensures { result ≡ prefix_len is_digit bytes.now }
{
    bytes.iter().take_while(|byte| is_digit(**byte)).count()
}

fn sign_len(bytes: &[u8]) -> usize
    ensures { result ≡ sign_len bytes.now }
{
    if bytes.len() >= 2 && is_sign(&bytes[..2]) {
        2
    } else if !bytes.is_empty() && is_sign(&bytes[..1]) {
        1
    } else {
        0
    }
}

fn token_len(bytes: &[u8]) -> usize
    ensures longest { result ≡ longest bytes.now }
    ensures within { result ≤ length bytes.now }
{
    match bytes {
        [] => 0,
        [first, ..] if is_letter(*first) => name_len(bytes),
        [first, ..] if is_digit(*first) => numeral_len(bytes),
        _ => sign_len(bytes),
    }
}

fn judged(text: &[u8]) -> Result<(TokenKind, usize), LineFault>
    ensures { result ≡ judged (kind_of text.now) text.now }
{
    match kind_of(text) {
        None => Err(LineFault::Char),
        Some(TokenKind::Numeral) => match numeral_value(text) {
            Some(_) => Ok((TokenKind::Numeral, text.len())),
            None => Err(LineFault::Number),
        },
        Some(TokenKind::Name) => {
            if text.len() > 32 {
                return Err(LineFault::Name);
            }
            Ok((TokenKind::Name, text.len()))
        }
        Some(TokenKind::Sign) => Ok((TokenKind::Sign, text.len())),
        Some(TokenKind::Word) => Ok((TokenKind::Word, text.len())),
    }
}

/// The kind and the length of the longest token in front of the bytes, or the fault there.
pub fn first_token(bytes: &[u8]) -> Result<(TokenKind, usize), LineFault>
    ensures token { result ≡ first_token bytes.now }
    ensures within { IfOk result (λ token. (0 < token.1) × (token.1 ≤ length bytes.now)) }
{
    judged(&bytes[..token_len(bytes)])
}
