//! A text as its sections, one after the other.

ghost use Rattle.std.specs.Prelude.{◌≡◌, ◌+◌, ◌<◌, ◌≤◌, length, drop, take};
ghost use Rattle.occ_script_lines.specs.Sections.{IsBody, sections_of};
ghost use Rattle.occ_lex.specs.Rows.{first_row as first_row_of};
ghost use Rattle.occ_script_lines.specs.Left.{IsNext, left};

use crate::keyword::is_keyword;
use crate::section::{Format, Section, Sections};
use occ_lex::first_row;

/// How many bytes and how many lines stand in front of the next keyword line of a text.
fn lines_until(format: Format, text: &[u8]) -> (usize, u32)
    requires { length text.now < 4294967295 }
    ensures body { IsBody format text.now result.0 result.1 }
    ensures within { result.0 ≤ length text.now }
    ensures small { result.1 ≤ result.0 }
{
    let mut at = 0;
    let mut count = 0;
    while at < text.len() {
        let row = first_row(&text[at..]);
        if is_keyword(format, row) {
            return (at, count);
        }
        at += row.len();
        count += 1;
    }
    (at, count)
}

/// Where the line that begins at a place ends.
fn row_end(text: &[u8], at: usize) -> usize
    requires { at < length text.now }
    ensures end { result ≡ at + length (first_row_of (drop at text.now)) }
    ensures within { result ≤ length text.now }
    ensures further { at < result }
{
    let row = first_row(&text[at..]);
    at + row.len()
}

/// How many bytes and how many lines stand from a place on in front of the next keyword line.
fn body_from(format: Format, text: &[u8], end: usize) -> (usize, u32)
    requires within { end ≤ length text.now }
    requires size { length text.now < 4294967295 }
    ensures body { IsBody format (drop end text.now) result.0 result.1 }
    ensures within { end + result.0 ≤ length text.now }
    ensures small { result.1 ≤ result.0 }
{
    lines_until(format, &text[end..])
}

/// The section of a text whose keyword line has this number and these ends, with so many bytes behind it.
fn cut_out(text: &[u8], number: u32, start: usize, end: usize, len: usize) -> Section<'_>
    requires small { length text.now < 4294967295 }
    requires ordered { start ≤ end }
    requires within { end + len ≤ length text.now }
    requires counted { number ≤ end }
    ensures number { result.number ≡ number }
    ensures start { result.start ≡ start }
    ensures end { result.end ≡ end }
    ensures upto { result.upto.now ≡ take (end + len) text.now }
{
    let upto = &text[..end + len];
    Section {
        number,
        start,
        end,
        upto,
    }
}

impl<'a> Sections<'a> {
    /// All sections of a text. It takes no memory.
    pub fn new(format: Format, text: &'a [u8]) -> Sections<'a>
        requires { length text.now < 4294967295 }
        ensures { left result ≡ sections_of format text.now }
    {
        Sections {
            format,
            text,
            at: 0,
            number: 1,
        }
    }

    /// The next section, None exactly where none is left. It takes no memory.
    pub fn next(&mut self) -> Option<Section<'a>>
        ensures { IsNext (left self.old) (left self.new) result }
    {
        let Sections {
            format,
            text,
            at,
            number,
        } = *self;
        if at >= text.len() {
            return None;
        }
        let end = row_end(text, at);
        let (len, count) = body_from(format, text, end);
        self.number = number + 1 + count;
        self.at = end + len;
        Some(cut_out(text, number, at, end, len))
    }
}
