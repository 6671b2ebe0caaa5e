ghost use Rattle.std.specs.Prelude.{◌≡◌};
ghost use Rattle.std.specs.List.{list_all, list_any};
ghost use Rattle.std.specs.Str.{bytes_eq};
ghost use Rattle.occ_lex.specs.Spelling.{is_letter, is_digit, is_name_byte, is_name, is_numeral, is_reserved, is_sign, kind_of, numeral_value};

use crate::TokenKind;

const RESERVED: [&str; 26] = [
    "SKIP", "STOP", "SEQ", "PAR", "ALT", "IF", "FOR", "PROC", "CHAN", "OF", "TRUE", "FALSE", "AND",
    "OR", "NOT", "PLUS", "MINUS", "BOOL", "WORD1", "WORD2", "WORD3", "WORD4", "WORD5", "WORD6",
    "WORD7", "WORD8",
];

const SIGNS: [&str; 20] = [
    ":=", "<=", ">=", "<>", "><", "/\\", "\\/", "~", "&", "(", ")", "[", "]", ",", ":", "?", "!",
    "=", "<", ">",
];

pub fn is_letter(byte: u8) -> bool
    ensures { result ≡ is_letter byte }
{
    matches!(byte, b'A'..=b'Z' | b'a'..=b'z')
}

pub fn is_digit(byte: u8) -> bool
    ensures { result ≡ is_digit byte }
{
    matches!(byte, b'0'..=b'9')
}

/// Whether a byte can go on a name: a letter, a digit or a dot. It takes no memory.
pub fn is_name_byte(byte: u8) -> bool
    ensures { result ≡ is_name_byte byte }
{
    is_letter(byte) || is_digit(byte) || byte == b'.'
}

fn is_in(text: &[u8], table: &[&str]) -> bool
    ensures { result ≡ list_any (λ entry. bytes_eq text.now entry.now) table.now }
{
    table.iter().any(|entry| text == entry.as_bytes())
}

#[tactic(auto, unfolding(crate::specs::Spelling::is_reserved))]
fn is_reserved(text: &[u8]) -> bool
    ensures { result ≡ is_reserved text.now }
{
    is_in(text, &RESERVED)
}

#[tactic(auto, unfolding(crate::specs::Spelling::is_sign))]
pub fn is_sign(text: &[u8]) -> bool
    ensures { result ≡ is_sign text.now }
{
    is_in(text, &SIGNS)
}

#[tactic(auto, unfolding(crate::specs::Spelling::is_name))]
fn is_name(text: &[u8]) -> bool
    ensures { result ≡ is_name text.now }
{
    match text {
        [first, rest @ ..] => is_letter(*first) && are_name_bytes(rest),
        [] => false,
    }
}

fn are_name_bytes(text: &[u8]) -> bool
    ensures { result ≡ list_all is_name_byte text.now }
{
    text.iter().all(|byte| is_name_byte(*byte))
}

fn are_digits(text: &[u8]) -> bool
    ensures { result ≡ list_all is_digit text.now }
{
    text.iter().all(|byte| is_digit(*byte))
}

#[tactic(auto, unfolding(crate::specs::Spelling::is_numeral))]
fn is_numeral(text: &[u8]) -> bool
    ensures { result ≡ is_numeral text.now }
{
    !text.is_empty() && are_digits(text)
}

/// What a whole text is as one token, None where it is none. It says nothing of the limits on numerals and names. It
/// takes no memory.
#[tactic(auto, unfolding(crate::specs::Spelling::kind_of))]
pub fn kind_of(text: &[u8]) -> Option<TokenKind>
    ensures { result ≡ kind_of text.now }
{
    if is_reserved(text) {
        Some(TokenKind::Word)
    } else if is_name(text) {
        Some(TokenKind::Name)
    } else if is_numeral(text) {
        Some(TokenKind::Numeral)
    } else if is_sign(text) {
        Some(TokenKind::Sign)
    } else {
        None
    }
}

/// The value of a text of decimal digits, None where it is no such text, and where the value is above 255. It takes no
/// memory.
#[tactic(auto, unfolding(crate::specs::Spelling::numeral_value))]
pub fn numeral_value(text: &[u8]) -> Option<u8>
    ensures { result ≡ numeral_value text.now }
{
    if text.is_empty() {
        return None;
    }
    let mut value: u32 = 0;
    for byte in text {
        if !is_digit(*byte) {
            return None;
        }
        value = 10 * value + u32::from(*byte - b'0');
        if value > 255 {
            return None;
        }
    }
    Some(value as u8)
}
