//! What is told of a header that has none of the forms, or lacks what it needs.

use crate::layout::PROGRAM;
use crate::look::{Form, Look, behind, foreign, reserved, width_of};
use occ_check_text::{Piece as P, Span, TokKind, Told};

const TYPES: &str = "BOOL or WORD1 to WORD8";

/// An error of form at a token: its sentence, what is expected there, and its hint, with the pieces of sentence and hint.
pub fn at_tok(look: Look, at: (usize, usize), words: (&str, &str, &str), pieces: &[P]) -> Told {
    let (sentence, expected, hint) = words;
    let (front, text) = look.found(at.0, at.1);
    let mut told = look.tell(look.tok(at.0, at.1), "Form", sentence, pieces);
    told.here(
        "expected %, found %%",
        &[P::T(expected), P::T(front), P::B(text)],
    );
    told.hint(hint, behind(sentence, pieces));
    told
}

/// A word of another language in the place of a type; what stands there else.
pub fn at_type(look: Look, row: usize, i: usize, expected: &str) -> Told {
    let text = look.src.text_of(row, i);
    if let Some((is_type, hint)) = foreign(text) {
        let wants = if is_type { TYPES } else { expected };
        return at_tok(
            look,
            (row, i),
            ("% isn't in this language", wants, hint),
            &[P::B(text)],
        );
    }
    match reserved(text) {
        Some(word) if word == "CHAN" || width_of(word.as_bytes()).is_some() => {
            let words = ("reserved words are capitals", expected, "write %");
            at_tok(look, (row, i), words, &[P::T(word)])
        }
        _ => at_tok(look, (row, i), ("a type is missing", expected, ""), &[]),
    }
}

/// What is told of the first row where it is no header, or its program is badly laid out.
pub fn header_fault(look: Look, row: usize) -> Told {
    let src = look.src;
    if !src.is(row, 0, "PROC") {
        return no_proc(look, row);
    }
    if src.row(row).indent > 0 {
        let words = (
            "the header stands at level %",
            "expected level 0, found level %",
            "take out the spaces in front of it",
        );
        let level = P::N(src.level(row));
        return look.whole(look.margin(row), "Form", words, &[level, level]);
    }
    if let Some(told) = words_fault(look, row) {
        return told;
    }
    if has_body(look, row) {
        not_closed(look, row)
    } else {
        no_body(look, row)
    }
}

fn no_proc(look: Look, row: usize) -> Told {
    let text = look.src.text_of(row, 0);
    if matches!(text, b"proc" | b"Proc") {
        let words = ("reserved words are capitals", "PROC", "write PROC");
        return at_tok(look, (row, 0), words, &[]);
    }
    let said = if foreign(text).is_some() {
        "% isn't in this language"
    } else {
        "the text doesn't begin with PROC"
    };
    at_tok(look, (row, 0), (said, "PROC", PROGRAM), &[P::B(text)])
}

/// What is wrong with the words of a header.
fn words_fault(look: Look, row: usize) -> Option<Told> {
    let src = look.src;
    if !matches!(src.tok(row, 1).kind, TokKind::Name) {
        return Some(at_tok(
            look,
            (row, 1),
            ("the program has no name", "a name", ""),
            &[],
        ));
    }
    if !src.is(row, 2, "(") {
        let words = (
            "the parameters are missing",
            "( behind the name",
            "write () where there are none",
        );
        return Some(at_tok(look, (row, 2), words, &[]));
    }
    let end = src.count(row);
    let close = src.find(row, 0, ")").unwrap_or(end);
    if close > 3 || close == end {
        if let Some(told) = params_fault(look, row, close) {
            return Some(told);
        }
    }
    let next = close.saturating_add(1);
    if next < end {
        let words = ("text behind the header", "the end of the line", "");
        return Some(at_tok(look, (row, next), words, &[]));
    }
    None
}

fn params_fault(look: Look, row: usize, close: usize) -> Option<Told> {
    let mut has_front = false;
    let mut is_channel = false;
    let mut start = 3;
    for i in 3..close.saturating_add(1) {
        if i < close && !look.src.is(row, i, ",") {
            continue;
        }
        let name = match front_end(look, row, start, has_front) {
            Ok((end, channel)) => {
                has_front = true;
                is_channel = channel.unwrap_or(is_channel);
                end
            }
            Err(told) => return Some(told),
        };
        if let Some(told) = declared_fault(look, row, name, is_channel) {
            return Some(told);
        }
        start = i.saturating_add(1);
    }
    None
}

/// What a front is read as: the token behind it, and whether it is one of channels, where there is one.
type FrontEnd = Result<(usize, Option<bool>), Told>;

/// The token behind the front of a parameter, and whether it is one of channels where there is one.
fn front_end(look: Look, row: usize, start: usize, has_front: bool) -> FrontEnd {
    let src = look.src;
    let i = if src.is(row, start, "[") {
        start.saturating_add(3)
    } else {
        start
    };
    if src.is(row, i, "CHAN") {
        let width = i.saturating_add(2);
        if !src.is(row, i.saturating_add(1), "OF") {
            return Err(no_of(look, row, i));
        }
        if width_of(src.text_of(row, width)).is_none() {
            return Err(at_type(look, row, width, TYPES));
        }
        return Ok((i.saturating_add(3), Some(true)));
    }
    let text = src.text_of(row, i);
    if width_of(text).is_some() {
        return Ok((i.saturating_add(1), Some(false)));
    }
    let plain = matches!(src.tok(row, i).kind, TokKind::Name) && foreign(text).is_none();
    if has_front && plain && i == start {
        return Ok((start, None));
    }
    Err(no_front(look, row, i, plain && !has_front))
}

/// A parameter without a front, where one is needed.
fn no_front(look: Look, row: usize, i: usize, bare: bool) -> Told {
    let src = look.src;
    if matches!(src.tok(row, i).kind, TokKind::End) {
        let hint = "a line can't go on in the next: write all parameters in one line";
        return open_line(look, row, i, ("a parameter", hint));
    }
    let next = src.text_of(row, i.saturating_add(1));
    if bare && matches!(next, b"," | b")" | b"?" | b"!") {
        let words = (
            "the first parameter has no type",
            "BOOL, WORD1 to WORD8, CHAN or [",
            "write WORD4 % for values from 0 to 15",
        );
        return at_tok(look, (row, i), words, &[P::B(src.text_of(row, i))]);
    }
    at_type(look, row, i, "BOOL, WORD1 to WORD8, CHAN, [ or a name")
}

/// OF is missing behind CHAN.
pub fn no_of(look: Look, row: usize, chan: usize) -> Told {
    let of = chan.saturating_add(1);
    let mut end = of;
    for k in of..look.src.count(row) {
        if matches!(look.src.text_of(row, k), b"," | b")" | b":") {
            break;
        }
        end = k.saturating_add(1);
    }
    let words = ("OF is missing", "OF", "write CHAN OF %");
    at_tok(
        look,
        (row, of),
        words,
        &[P::B(look.src.between(row, of, end))],
    )
}

/// The line ends inside the brackets of its parameters.
fn open_line(look: Look, row: usize, i: usize, words: (&str, &str)) -> Told {
    let words = ("the line ends inside the brackets", words.0, words.1);
    let mut told = at_tok(look, (row, i), words, &[]);
    told.mark(look.tok(row, 2), "opened here", &[]);
    told
}

/// What is wrong with a parameter's name and what stands behind it.
fn declared_fault(look: Look, row: usize, name: usize, is_channel: bool) -> Option<Told> {
    let src = look.src;
    if !matches!(src.tok(row, name).kind, TokKind::Name) {
        return Some(at_tok(
            look,
            (row, name),
            ("a parameter has no name", "a name", ""),
            &[],
        ));
    }
    let mut next = name.saturating_add(1);
    if src.is(row, next, "[") {
        next = name.saturating_add(4);
    }
    let marked = matches!(src.text_of(row, next), b"?" | b"!");
    if is_channel && !marked {
        return Some(no_mark(look, row, name, next));
    }
    if !is_channel && marked {
        let words = (
            "a mark stands behind channels alone",
            ", or )",
            "take the mark away, or write CHAN OF in front of the type",
        );
        return Some(at_tok(look, (row, next), words, &[]));
    }
    let end = if marked { next.saturating_add(1) } else { next };
    if matches!(src.text_of(row, end), b"," | b")") {
        return None;
    }
    if matches!(src.tok(row, end).kind, TokKind::End) {
        return Some(open_line(
            look,
            row,
            end,
            (", or )", "write ) behind the last parameter"),
        ));
    }
    let words = ("a comma is missing between parameters", ", or )", "");
    Some(at_tok(look, (row, end), words, &[]))
}

/// A channel parameter without its mark.
fn no_mark(look: Look, row: usize, name: usize, next: usize) -> Told {
    let word = look.src.text_of(row, name);
    let (front, text) = look.found(row, next);
    let (first, last) = (look.tok(row, name), look.tok(row, next));
    let len = last.at.saturating_add(last.len).saturating_sub(first.at);
    let words = (
        "this channel parameter has no mark",
        "expected ? or ! behind %, found %%",
        "",
    );
    let pieces = [P::B(word), P::T(front), P::B(text)];
    let mut told = look.whole(
        Span {
            row,
            at: first.at,
            len,
        },
        "Form",
        words,
        &pieces,
    );
    for r in row.saturating_add(1)..look.src.rows() {
        if let Some(mark) = use_of(look, r, word) {
            let does = if mark == "!" { "outputs" } else { "inputs" };
            let line = P::N(r.saturating_add(1));
            told.hint(
                "write %% here: the program % on % (line %)",
                &[P::B(word), P::T(mark), P::T(does), P::B(word), line],
            );
            break;
        }
    }
    told
}

/// The mark with which a row uses a channel.
fn use_of(look: Look, row: usize, chan: &[u8]) -> Option<&'static str> {
    let mut named = false;
    for i in 0..look.src.count(row) {
        match look.src.text_of(row, i) {
            b"!" if named => return Some("!"),
            b"?" if named => return Some("?"),
            text => named = named || text == chan,
        }
    }
    None
}

/// What is told of a program with a body that has no closing line.
fn not_closed(look: Look, header: usize) -> Told {
    let rows = look.src.rows();
    let close = (header.saturating_add(1)..rows).find(|r| look.src.is(*r, 0, ":")
        && look.src.count(*r) == 1
        && look.src.level(*r) > 0);
    let mut told = match close {
        Some(row) => {
            let words = (
                "the closing : stands at level %",
                "expected level 0, found level %",
                "take out the spaces in front of it",
            );
            let level = P::N(look.src.level(row));
            look.whole(look.tok(row, 0), "Form", words, &[level, level])
        }
        None => {
            let words = (
                "the text ends, and its PROC isn't closed",
                "expected : at level 0, found the end of the text",
                "add a line with : alone",
            );
            look.whole(
                Span {
                    row: rows,
                    at: 0,
                    len: 1,
                },
                "Form",
                words,
                &[],
            )
        }
    };
    told.mark(look.tok(header, 0), "this PROC isn't closed yet", &[]);
    told
}

fn has_body(look: Look, row: usize) -> bool {
    for r in row.saturating_add(1)..look.src.rows() {
        if look.src.is_blank(r) {
            continue;
        }
        if look.src.level(r) <= 1 {
            return look.src.level(r) == 1;
        }
    }
    false
}

fn all_by_four(look: Look) -> bool {
    (0..look.src.rows()).all(|r| look.src.is_blank(r) || look.src.row(r).indent % 4 == 0)
}

/// What is told of a program without a body at level 1.
fn no_body(look: Look, header: usize) -> Told {
    let next = look.after(header);
    let row = next.unwrap_or(look.src.rows());
    let mut told = if look.src.level(row) > 1 {
        let words = (
            "% spaces in front, where the body stands at level 1",
            "expected 2 spaces, found %",
            if all_by_four(look) {
                "each level is two spaces; halve the spaces of every line (all are multiples of four)"
            } else {
                "write this line with 2 spaces"
            },
        );
        let spaces = P::N(look.src.row(row).indent);
        look.whole(look.margin(row), "Form", words, &[spaces, spaces])
    } else {
        let place = Span {
            row,
            at: 0,
            len: look.all(row).len,
        };
        look.whole(place, "Form", no_body_words(look, next), &[])
    };
    told.mark(look.tok(header, 0), "this PROC has no body at level 1", &[]);
    told
}

fn no_body_words(look: Look, next: Option<usize>) -> (&'static str, &'static str, &'static str) {
    let said = "this PROC has no body";
    let skip = "a program that does nothing has the body SKIP";
    match next {
        None => (
            said,
            "expected a process at level 1, found the end of the text",
            skip,
        ),
        Some(row) if matches!(look.form(row), Form::Close) => {
            (said, "expected a process at level 1, found :", skip)
        }
        Some(_) => (
            said,
            "expected a process with 2 spaces in front, found none in front",
            "write the body with 2 spaces in front",
        ),
    }
}
