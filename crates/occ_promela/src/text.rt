//! Words and lines of a text.

use occ_syntax::Memory;

/// Adds words.
pub(crate) fn put(text: &mut Vec<u8>, words: &[u8]) -> Result<(), Memory> {
    text.extend_from_slice(words)?;
    Ok(())
}

/// Begins a line at a level.
pub(crate) fn begin(text: &mut Vec<u8>, level: usize) -> Result<(), Memory> {
    for _place in 0..level {
        put(text, b"  ")?;
    }
    Ok(())
}

/// Adds a line at a level.
pub(crate) fn line(text: &mut Vec<u8>, level: usize, words: &[u8]) -> Result<(), Memory> {
    begin(text, level)?;
    put(text, words)?;
    put(text, b"\n")
}
