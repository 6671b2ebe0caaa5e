//! Keyword lines.

ghost use Rattle.std.specs.Prelude.{◌≡◌, length, slice_get, IfOk};
ghost use Rattle.std.specs.List.{list_all, slice_split};
ghost use Rattle.occ_lex.specs.Rows.{code_of, is_space};
ghost use Rattle.occ_script_lines.specs.Heads.{AreHeads, AreWords, head_in, is_step};
ghost use Rattle.occ_script_lines.specs.Lines.{begins_with, direction_of, goes_on, head_of, is_blank_row, is_empty, is_keyword, is_law_byte, is_law_word, is_line};
ghost use Rattle.occ_script_lines.specs.Places.{pieces_behind};
ghost use Rattle.occ_script_lines.specs.Texts.{is_byte};

use crate::section::Format;
use crate::{Direction, Path, cut, path};
use occ_lex::{Memory, code, is_name_byte};
use std::alloc::Global;

/// What a step or an order says on its line: the name of a law, the way in which it is used, and the path of a part.
#[derive(Drop)]
pub struct Head<'a> {
    pub law: &'a [u8],
    pub dir: Direction,
    pub path: Path,
}

fn goes_on(word: &[u8], row: &[u8]) -> bool
    ensures { result ≡ goes_on (slice_get row.now (length word.now)) }
{
    match row.get(word.len()) {
        Some(byte) => is_name_byte(*byte),
        None => false,
    }
}

fn begins_with(word: &[u8], row: &[u8]) -> bool
    ensures { result ≡ begins_with word.now row.now }
{
    row.starts_with(word) && !goes_on(word, row)
}

/// Whether a line is a keyword line of a format. It takes no memory.
#[tactic(auto, unfolding(crate::specs::Lines::is_keyword))]
pub fn is_keyword(format: Format, row: &[u8]) -> bool
    ensures { result ≡ is_keyword format row.now }
{
    match format {
        Format::Script => {
            begins_with(b"FROM", row) || begins_with(b"STEP", row) || begins_with(b"TO", row)
        }
        Format::Orders => begins_with(b"ORDER", row),
    }
}

fn are_spaces(text: &[u8]) -> bool
    ensures { result ≡ list_all is_space text.now }
{
    text.iter().all(|byte| *byte == b' ')
}

/// Whether nothing but spaces and a comment stands in a row. It takes no memory.
pub(crate) fn is_blank_row(row: &[u8]) -> bool
    ensures { result ≡ is_blank_row row.now }
{
    are_spaces(code(row))
}

/// Whether a line is these words, and then nothing but spaces and a comment. It takes no memory.
#[tactic(auto, unfolding(crate::specs::Lines::is_line))]
pub fn is_line(words: &[u8], row: &[u8]) -> bool
    ensures { result ≡ is_line words.now row.now }
{
    match code(row).strip_prefix(words) {
        Some(rest) => are_spaces(rest),
        None => false,
    }
}

fn is_law_byte(byte: u8) -> bool
    ensures { result ≡ is_law_byte byte }
{
    matches!(byte, b'a'..=b'z' | b'-')
}

fn are_law_bytes(text: &[u8]) -> bool
    ensures { result ≡ list_all is_law_byte text.now }
{
    text.iter().all(|byte| is_law_byte(*byte))
}

fn is_law_word(text: &[u8]) -> bool
    ensures { result ≡ is_law_word text.now }
{
    text.len() >= 1 && are_law_bytes(text)
}

fn direction(text: &[u8]) -> Option<Direction>
    ensures { result ≡ direction_of text.now }
{
    if text == b"FORWARD".as_slice() {
        Some(Direction::Forward)
    } else if text == b"BACKWARD".as_slice() {
        Some(Direction::Backward)
    } else {
        None
    }
}

/// The words of a line of a step or an order, and what stands behind them.
#[derive(Clone, Copy)]
struct Words<'a> {
    keyword: &'a [u8],
    law: &'a [u8],
    dir: &'a [u8],
    path: &'a [u8],
    rest: Option<&'a [u8]>,
}

#[tactic(auto, using(crate::proofs::Words::one_word, crate::proofs::Words::two_words, crate::proofs::Words::three_words, crate::proofs::Words::four_words))]
fn divided(row: &[u8]) -> Option<Words<'_>>
    ensures { AreWords (slice_split (is_byte 32) (code_of row.now)) result }
{
    let (keyword, Some(rest)) = cut(code(row), b' ') else {
        return None;
    };
    let (law, Some(rest)) = cut(rest, b' ') else {
        return None;
    };
    let (dir, Some(rest)) = cut(rest, b' ') else {
        return None;
    };
    let (path, rest) = cut(rest, b' ');
    Some(Words {
        keyword,
        law,
        dir,
        path,
        rest,
    })
}

/// Whether nothing but spaces stands behind a path.
#[tactic(auto, using(crate::proofs::Words::empty_pieces))]
fn is_end(rest: &Option<&[u8]>) -> bool
    ensures { result ≡ list_all is_empty (pieces_behind 32 rest.now) }
{
    match *rest {
        Some(rest) => are_spaces(rest),
        None => true,
    }
}

fn is_step(keyword: &[u8], words: &Words) -> bool
    ensures { result ≡ is_step keyword.now words.now }
{
    words.keyword == keyword && is_law_word(words.law) && is_end(&words.rest)
}

#[tactic(auto, using(crate::proofs::Words::head_unfit, crate::proofs::Words::head_undirected, crate::proofs::Words::head_nowhere, crate::proofs::Words::head_there))]
fn said<'a>(alloc: Global, keyword: &[u8], words: &Words<'a>) -> Result<Option<Head<'a>>, Memory>
    ensures { IfOk result (AreHeads (head_in keyword.now words.now)) }
{
    if !is_step(keyword, words) {
        return Ok(None);
    }
    let Some(dir) = direction(words.dir) else {
        return Ok(None);
    };
    let Some(path) = path(alloc, words.path)? else {
        return Ok(None);
    };
    let law = words.law;
    Ok(Some(Head { law, dir, path }))
}

/// What a step or an order says on its line, None exactly where the line hasn't the form of one.
#[tactic(auto, using(crate::proofs::Words::few_words, crate::proofs::Words::enough_words))]
pub fn step_line<'a>(
    alloc: Global,
    keyword: &[u8],
    row: &'a [u8],
) -> Result<Option<Head<'a>>, Memory>
    ensures { IfOk result (AreHeads (head_of keyword.now row.now)) }
{
    match divided(row) {
        Some(words) => said(alloc, keyword, &words),
        None => Ok(None),
    }
}
