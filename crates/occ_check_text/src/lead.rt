//! What is told of a text that is refused.

ghost use Rattle.std.specs.Prelude.{◌≡◌, ◌++◌, codes, decimal, replicate, [], IfOk, OnOk};
ghost use Rattle.occ_check_text.specs.Lead.{Tells};

use crate::told::{digits, write_body, write_marks, write_shown};
use crate::{Piece as P, Put, Source, Told, write_all};
use occ_lex::Memory;
use std::alloc::Global;

/// Why a text is refused: the line, counted from 1, and the words for the fault.
#[derive(Clone, Copy, Debug)]
pub struct Lead<'a> {
    pub line: u32,
    pub words: &'a [u8],
}

/// What is told behind the words of a refusal: its place, counted from 1, a sentence, the spaces in front of the number of the
/// refusal's line where that is shown first, and all that stands behind them.
#[derive(Debug, Drop)]
pub struct Said {
    line: usize,
    column: usize,
    sentence: Put,
    spaces: usize,
    behind: Put,
}

/// What is told of all errors of a text that is refused on a line: the first of them is that of the refusal.
pub fn said_of(
    alloc: Global,
    file: &[u8],
    source: &Source,
    all: &[Told],
    line: u32,
) -> Result<Said, Memory> {
    let mut behind = Put::new(alloc);
    let mut sentence = Put::new(alloc);
    let (mut place, mut column, mut spaces) = (line as usize, 1, 1);
    match all {
        [first, rest @ ..] => {
            place = first.place.row.saturating_add(1);
            column = first.place.at.saturating_add(1);
            sentence.join(&first.sentence);
            if place == line as usize {
                write_body(&mut behind, source, first, None);
            } else {
                let row = (line as usize).saturating_sub(1);
                let width = digits(first.last_row().max(row).saturating_add(1));
                spaces = width
                    .saturating_sub(digits(line as usize))
                    .saturating_add(1);
                write_shown(&mut behind, source, row);
                write_marks(&mut behind, source, first, row);
                write_body(&mut behind, source, first, Some(row));
            }
            write_all(&mut behind, file, source, rest);
        }
        [] => sentence.add(b"this line is refused"),
    }
    let count = all.len().max(1);
    behind.say(
        "%%",
        &[
            P::N(count),
            P::T(if count == 1 { " error: " } else { " errors: " }),
        ],
    );
    behind.add(file);
    behind.say(" is refused\n", &[]);
    if sentence.lost || behind.lost {
        return Err(Memory);
    }
    Ok(Said {
        line: place,
        column,
        sentence,
        spaces,
        behind,
    })
}

/// The first line of the text that tells a refusal.
fn first_line(alloc: Global, file: &[u8], words: &[u8], said: &Said) -> Result<Put, Memory>
    ensures { IfOk result (λ put. put.bytes.items ≡ file.now ++ codes ":" ++ decimal said.now.line ++ codes ":" ++ decimal said.now.column
        ++ codes ": error[" ++ words.now ++ codes "]: " ++ said.now.sentence.bytes.items ++ codes "\n") }
{
    let mut out = Put::new(alloc);
    out.raw(file)?;
    out.raw(b":")?;
    out.number(said.line)?;
    out.raw(b":")?;
    out.number(said.column)?;
    out.raw(b": error[")?;
    out.raw(words)?;
    out.raw(b"]: ")?;
    out.raw(said.sentence.bytes())?;
    out.raw(b"\n")?;
    Ok(out)
}

/// What stands behind the first line where the refusal's line is shown first.
fn behind_line(alloc: Global, said: &Said, line: u32) -> Result<Put, Memory>
    ensures { IfOk result (λ put. put.bytes.items ≡ replicate said.now.spaces 32 ++ decimal line ++ codes " |" ++ said.now.behind.bytes.items) }
{
    let mut out = Put::new(alloc);
    out.often(b' ', said.spaces)?;
    out.number(line as usize)?;
    out.raw(b" |")?;
    out.raw(said.behind.bytes())?;
    Ok(out)
}

/// The text that tells a refusal.
pub fn refusal_text(alloc: Global, file: &[u8], lead: Lead, said: &Said) -> Result<Vec<u8>, Memory>
    ensures { IfOk result (λ text. Tells file.now lead.entry.line lead.entry.words.now text.items) }
{
    let mut out = first_line(alloc, file, lead.words, said)?;
    if said.line == lead.line as usize {
        out.raw(said.behind.bytes())?;
        return Ok(out.into_bytes());
    }
    let behind = behind_line(alloc, said, lead.line)?;
    out.raw(behind.bytes())?;
    Ok(out.into_bytes())
}
