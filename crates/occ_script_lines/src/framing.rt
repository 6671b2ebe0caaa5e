//! Sections as texts of their own, and blank lines.

ghost use Rattle.std.specs.Prelude.{◌≡◌, ◌≤◌, ◌<◌, length, if◌then◌else◌, IfOk};
ghost use Rattle.occ_script_lines.specs.Lines.{is_blank_row};
ghost use Rattle.occ_script_lines.specs.Sections.{blank as blank_of, framed as framed_of, is_blank_in, last_line_of, section as seen};

use crate::keyword::is_blank_row;
use crate::section::Section;
use occ_lex::{Memory, first_row};
use std::alloc::Global;

impl<'a> Section<'a> {
    /// The keyword line with its line feed. It takes no memory.
    pub fn row(&self) -> &'a [u8]
        ensures { result.now ≡ (seen self.now).row }
    {
        &self.upto[self.start..self.end]
    }
}

fn blank(byte: u8) -> u8
    ensures { result ≡ blank_of byte }
{
    if byte == b'\n' { b'\n' } else { b' ' }
}

/// The text up to the end of a section, in which all in front of its lines is blank: so its lines have their numbers.
pub fn framed(alloc: Global, section: &Section) -> Result<Vec<u8>, Memory>
    ensures { IfOk result (λ text. text.items ≡ framed_of (seen section.now)) }
{
    let mut text = Vec::new(alloc);
    for byte in &section.upto[..section.end] {
        text.push(blank(*byte))?;
    }
    text.extend_from_slice(&section.upto[section.end..])?;
    Ok(text)
}

/// Whether nothing but blank lines stands behind the keyword line of a section. It takes no memory.
pub fn is_blank(section: &Section) -> bool
    ensures { result ≡ is_blank_in (seen section.now) }
{
    let text = section.upto;
    let mut at = section.end;
    while at < text.len() {
        let row = first_row(&text[at..]);
        if !is_blank_row(row) {
            return false;
        }
        at += row.len();
    }
    true
}

fn later(row: &[u8], number: u32, last: u32) -> u32
    ensures { result ≡ (if is_blank_row row.now then last else number) }
{
    if is_blank_row(row) { last } else { number }
}

/// The number of the last line of a text that isn't blank, or 1. It takes no memory.
pub fn last_line(text: &[u8]) -> u32
    requires { length text.now < 4294967295 }
    ensures { result ≡ last_line_of text.now }
{
    let mut last = 1;
    let mut number = 1;
    let mut at = 0;
    while at < text.len() {
        let row = first_row(&text[at..]);
        last = later(row, number, last);
        number += 1;
        at += row.len();
    }
    last
}
