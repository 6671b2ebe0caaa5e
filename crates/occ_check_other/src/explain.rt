//! What is told of a text of another kind that is refused.

use crate::told::other_error;
use occ_check_find::{
    Lead, Look, Memory, Refused, Source, TextKind, first_word, refusal_text, said_of,
};
use std::alloc::Global;

/// The kind of text that a word names.
fn kind_of(word: &[u8]) -> TextKind {
    match word {
        b"script" => TextKind::Script,
        b"orders" => TextKind::Orders,
        b"normal" => TextKind::Normal,
        b"schedule" => TextKind::Schedule,
        b"behaviour" => TextKind::Behaviour,
        _ => TextKind::Program,
    }
}

/// The number that decimal digits write.
fn number_in(digits: &[u8]) -> u32 {
    let mut number: u32 = 0;
    for digit in digits {
        let value = u32::from(digit.saturating_sub(b'0'));
        number = number.saturating_mul(10).saturating_add(value);
    }
    number
}

/// What is told of a text in a file of that name, which was refused: its refusal, explained. That is given by the kind of text that was
/// wanted, the line and the words for the fault, as `script 3 Form`.
pub fn explained(alloc: Global, name: &str, refusal: &str, text: &[u8]) -> Result<Vec<u8>, Memory> {
    let file = name.as_bytes();
    let (kind, rest) = first_word(refusal.as_bytes());
    let (number, words) = first_word(rest);
    let line = number_in(number);
    let source = Source::read(alloc, text)?;
    let look = Look {
        alloc,
        src: &source,
    };
    let all = other_error(look, text, kind_of(kind), Refused::on(line, words))?;
    let said = said_of(alloc, file, &source, all.as_slice(), line)?;
    refusal_text(alloc, file, Lead { line, words }, &said)
}
