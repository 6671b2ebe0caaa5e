//! The entries of a table, and what the lines below them say.

use occ_desk::Memory;

/// A line that names something, and the bytes that the lines below it say.
#[derive(Drop)]
pub(crate) struct Entry {
    pub head: String,
    pub bytes: Vec<u8>,
}

/// The first entry whose head begins with that word, and the rest of its head.
pub(crate) fn find<'a>(entries: &'a [Entry], word: &str) -> Option<(&'a str, &'a [u8])> {
    for entry in entries {
        if let Some(rest) = entry.head.as_str().strip_prefix(word) {
            return Some((rest, entry.bytes.as_slice()));
        }
    }
    None
}

/// The bytes of the first entry whose head begins with that word; none where there is no such entry.
pub(crate) fn bytes_of<'a>(entries: &'a [Entry], word: &str) -> &'a [u8] {
    match find(entries, word) {
        Some((_, bytes)) => bytes,
        None => &[],
    }
}

/// The words that the head of an entry may begin with.
const HEADS: [&str; 12] = [
    "TEXT ", "CASE ", "WORDS ", "WORD |", "FILE A", "FILE B", "FILE T", "FAILS", "PIECE",
    "STATUS ", "BEGINS", "ENDS",
];

/// Whether a head begins with one of these words.
pub(crate) fn is_known(head: &str) -> bool {
    for word in &HEADS {
        if head.starts_with(*word) {
            return true;
        }
    }
    false
}

/// Adds bytes that are given by their numbers. A word that is no such number is left out.
pub(crate) fn push_numbers(into: &mut Vec<u8>, numbers: &str) -> Result<(), Memory> {
    for word in numbers.split_whitespace() {
        if let Ok(byte) = word.parse::<u8>() {
            into.push(byte)?;
        }
    }
    Ok(())
}

/// Adds a text so many times as the number in front of it says.
pub(crate) fn push_many(into: &mut Vec<u8>, counted: &str) -> Result<(), Memory> {
    let Some((count, text)) = counted.split_once(' ') else {
        return Ok(());
    };
    for _ in 0..count.parse::<u32>().unwrap_or(0) {
        into.extend_from_slice(text.as_bytes())?;
    }
    Ok(())
}

/// Adds the lines of a text from the first to the last number.
pub(crate) fn push_lines(
    into: &mut Vec<u8>,
    text: &[u8],
    first: u64,
    last: u64,
) -> Result<(), Memory> {
    let mut number = 1u64;
    for byte in text {
        if first <= number && number <= last {
            into.push(*byte)?;
        }
        if *byte == b'\n' {
            number = number.saturating_add(1);
        }
    }
    Ok(())
}
