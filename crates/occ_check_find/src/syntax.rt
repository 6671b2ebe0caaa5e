//! The first token of a row that can't stand there.

use crate::expr::item_end;
use crate::header::{at_tok, at_type, no_of};
use crate::look::{Below, Form, Look, foreign, reserved, width_of};
use crate::operators::expression;
use indexmap::IndexSet;
use occ_check_text::{Piece as P, TokKind, Told};

/// What is wrong with the words of a row that is no header.
pub fn words_fault(look: Look, row: usize) -> Option<Told> {
    if let Some(told) = strange_word(look, row) {
        return Some(told);
    }
    match look.form(row) {
        Form::Blank | Form::Header => None,
        Form::Close | Form::Skip | Form::Stop => nothing_more(look, row, 1),
        Form::Seq | Form::Par | Form::If | Form::Alt => replicator(look, row),
        Form::Declare => declaration(look, row),
        Form::Assign => assignment(look, row),
        Form::Guard => guard(look, row),
        Form::Input | Form::Output => message(look, row, 0),
        Form::Condition => condition(look, row),
    }
}

/// What stands in a place, as it is told behind *expected*.
fn wanted(look: Look, row: usize) -> &'static str {
    match look.place(row) {
        Below::Choice | Below::Choices => "a condition",
        Below::Branch | Below::Branches => "a guard",
        _ => "a process",
    }
}

/// A row that begins with a word of another language, or with a reserved word in small letters.
fn strange_word(look: Look, row: usize) -> Option<Told> {
    let src = look.src;
    let (text, next) = (src.text_of(row, 0), src.text_of(row, 1));
    if !matches!(src.tok(row, 0).kind, TokKind::Name)
        || matches!(next, b":=" | b"?" | b"!" | b"[" | b",")
    {
        return None;
    }
    let wants = wanted(look, row);
    if matches!(text, b"ELSE" | b"OTHERWISE") && wants == "a condition" {
        return None;
    }
    if let Some((is_type, hint)) = foreign(text) {
        let wants = if is_type {
            "BOOL or WORD1 to WORD8"
        } else {
            wants
        };
        return Some(foreign_row(look, row, wants, hint));
    }
    let word = reserved(text).filter(|_| !matches!(next, b"=" | b"&"))?;
    let words = ("reserved words are capitals", wants, "write %");
    Some(at_tok(look, (row, 0), words, &[P::T(word)]))
}

fn foreign_row(look: Look, row: usize, wants: &str, hint: &str) -> Told {
    let text = look.src.text_of(row, 0);
    match text {
        b"TIMER" => {
            let said = "there are no timers in this language";
            at_tok(
                look,
                (row, 0),
                (said, "a process or a declaration", hint),
                &[],
            )
        }
        b"VAL" => abbreviation(look, row),
        _ => at_tok(
            look,
            (row, 0),
            ("% isn't in this language", wants, hint),
            &[P::B(text)],
        ),
    }
}

fn abbreviation(look: Look, row: usize) -> Told {
    let src = look.src;
    let is = src.find(row, 0, "IS");
    let end = src
        .find(row, is.unwrap_or(0), ":")
        .unwrap_or(src.count(row));
    let at = is.unwrap_or(0);
    let words = (
        "there are no abbreviations in this language",
        "expected a process or a declaration, found VAL",
        if is.is_some() {
            "write % in place of %"
        } else {
            "write the value in place of the name"
        },
    );
    let value = P::B(src.between(row, at.saturating_add(1), end));
    let name = P::B(src.text_of(row, at.saturating_sub(1)));
    let whole = src.find(row, 0, ":").unwrap_or(src.count(row));
    look.whole(look.toks(row, 0, whole), "Form", words, &[value, name])
}

/// A row whose words end in front of a token has something behind them.
fn nothing_more(look: Look, row: usize, i: usize) -> Option<Told> {
    if look.src.count(row) <= i {
        return None;
    }
    let word = look.src.text_of(row, i.saturating_sub(1));
    let words = ("something stands behind %", "the end of the line", "");
    Some(at_tok(look, (row, i), words, &[P::B(word)]))
}

/// SEQ, PAR, IF or ALT with something behind it that is no replicator.
fn replicator(look: Look, row: usize) -> Option<Told> {
    let src = look.src;
    if src.count(row) <= 1 {
        return None;
    }
    let word = P::B(src.text_of(row, 0));
    if !matches!(src.tok(row, 1).kind, TokKind::Name) {
        let words = (
            "something stands behind %",
            "the end of the line, or a replicator",
            "",
        );
        return Some(at_tok(look, (row, 1), words, &[word]));
    }
    if !src.is(row, 2, "=") {
        let words = ("a replicator lacks its =", "=", "write % % = 0 FOR 4");
        return Some(at_tok(look, (row, 2), words, &[word, P::B(src.text_of(row, 1))]));
    }
    if !matches!(src.tok(row, 3).kind, TokKind::Numeral) {
        let words = (
            "the base of a replicator is a numeral",
            "a numeral",
            "begin at a numeral, and let an IF in the body skip the first ones",
        );
        return Some(at_tok(look, (row, 3), words, &[]));
    }
    if !src.is(row, 4, "FOR") {
        let words = (
            "a replicator lacks its FOR",
            "FOR",
            "write % FOR and how many",
        );
        return Some(at_tok(look, (row, 4), words, &[P::B(src.between(row, 0, 4))]));
    }
    if !matches!(src.tok(row, 5).kind, TokKind::Numeral) {
        let words = (
            "the count of a replicator is a numeral",
            "a numeral from 0 to 64",
            "take the greatest count, and let an IF in the body skip the rest",
        );
        return Some(at_tok(look, (row, 5), words, &[]));
    }
    if src.count(row) > 6 {
        let words = (
            "something stands behind the replicator",
            "the end of the line",
            "",
        );
        return Some(at_tok(look, (row, 6), words, &[]));
    }
    None
}

/// A declaration.
fn declaration(look: Look, row: usize) -> Option<Told> {
    let src = look.src;
    let mut i = 0;
    if src.is(row, 0, "[") {
        if !matches!(src.tok(row, 1).kind, TokKind::Numeral) {
            let words = (
                "the count of an array is a numeral",
                "a numeral from 1 to 64",
                "",
            );
            return Some(at_tok(look, (row, 1), words, &[]));
        }
        if !src.is(row, 2, "]") {
            return Some(at_tok(
                look,
                (row, 2),
                ("the ] of a count is missing", "]", ""),
                &[],
            ));
        }
        i = 3;
    }
    if src.is(row, i, "CHAN") {
        if !src.is(row, i.saturating_add(1), "OF") {
            return Some(no_of(look, row, i));
        }
        i = i.saturating_add(2);
    }
    if width_of(src.text_of(row, i)).is_none() {
        return Some(at_type(look, row, i, "BOOL or WORD1 to WORD8"));
    }
    let names = i.saturating_add(1);
    let Some(colon) = src.find(row, i, ":") else {
        return Some(open_declaration(look, row, names));
    };
    if let Some(told) = declared_names(look, row, names, colon) {
        return Some(told);
    }
    let next = colon.saturating_add(1);
    if next < src.count(row) {
        let words = (
            "text behind a declaration",
            "the end of the line",
            "what it governs stands on the next line, at the same level",
        );
        return Some(at_tok(look, (row, next), words, &[]));
    }
    None
}

/// A declaration without its colon.
fn open_declaration(look: Look, row: usize, names: usize) -> Told {
    let src = look.src;
    let end = src.count(row);
    if let Some(becomes) = src.find(row, names, ":=") {
        let words = (
            "a declaration gives no value",
            ":",
            "end it with :, and write % := % below it",
        );
        let value = P::B(src.between(row, becomes.saturating_add(1), end));
        return at_tok(
            look,
            (row, becomes),
            words,
            &[P::B(src.text_of(row, names)), value],
        );
    }
    if let Some(told) = declared_names(look, row, names, end) {
        return told;
    }
    let words = ("this declaration has no : behind it", ": ", "write %:");
    at_tok(look, (row, end), words, &[P::B(src.between(row, 0, end))])
}

/// The names of a declaration between two tokens.
fn declared_names(look: Look, row: usize, from: usize, to: usize) -> Option<Told> {
    let src = look.src;
    let mut wants_name = true;
    let mut next = from;
    for i in from..to {
        if i < next {
            continue;
        }
        if !wants_name {
            if !src.is(row, i, ",") {
                return Some(unfit_behind(look, row, i));
            }
            wants_name = true;
            continue;
        }
        if !matches!(src.tok(row, i).kind, TokKind::Name) {
            return Some(no_name(look, row, i));
        }
        next = i.saturating_add(if src.is(row, i.saturating_add(1), "[") {
            4
        } else {
            1
        });
        wants_name = false;
    }
    if wants_name {
        return Some(no_name(look, row, to));
    }
    None
}

fn no_name(look: Look, row: usize, i: usize) -> Told {
    at_tok(
        look,
        (row, i),
        ("a declaration lacks a name", "a name", ""),
        &[],
    )
}

fn unfit_behind(look: Look, row: usize, i: usize) -> Told {
    let hint = if matches!(look.src.text_of(row, i), b"?" | b"!") {
        "a mark stands behind parameters alone: take it away"
    } else {
        ""
    };
    let words = ("this can't stand behind a declared name", ", or :", hint);
    at_tok(look, (row, i), words, &[])
}

/// An item that fills the tokens between two places.
fn item(look: Look, row: usize, from: usize, to: usize, what: &str) -> Option<Told> {
    if from >= to || !matches!(look.src.tok(row, from).kind, TokKind::Name) {
        return Some(at_tok(look, (row, from), ("% is missing", what, ""), &[P::T(what)]));
    }
    match item_end(look, row, from) {
        Ok(end) if end == to => None,
        Ok(end) if end < to => {
            let words = ("this can't stand behind %", "nothing more", "");
            Some(at_tok(look, (row, end), words, &[P::T(what)]))
        }
        Ok(_) => Some(index_fault(look, row, to)),
        Err(at) => Some(index_fault(look, row, at)),
    }
}

/// What an index is, as a hint.
pub const INDEX: &str =
    "an index is a numeral, a replicator's name, or that PLUS or MINUS a numeral";

/// An index that has none of the forms.
pub fn index_fault(look: Look, row: usize, at: usize) -> Told {
    let words = (
        "this index has none of the forms",
        "PLUS, MINUS, a numeral or ]",
        INDEX,
    );
    at_tok(look, (row, at), words, &[])
}

/// The number of groups between commas.
fn groups(look: Look, row: usize, from: usize, to: usize) -> usize {
    (from..to)
        .filter(|i| look.src.is(row, *i, ","))
        .count()
        .saturating_add(1)
}

/// An assignment.
fn assignment(look: Look, row: usize) -> Option<Told> {
    let end = look.src.count(row);
    let becomes = look.src.find(row, 0, ":=").unwrap_or(end);
    if let Some(told) = each(look, row, (0, becomes), true) {
        return Some(told);
    }
    let right = becomes.saturating_add(1);
    if let Some(told) = each(look, row, (right, end), false) {
        return Some(told);
    }
    let names = groups(look, row, 0, becomes);
    let values = groups(look, row, right, end);
    if names == values {
        return same_name(look, row, becomes);
    }
    Some(counts(look, row, becomes, names, values))
}

/// One name twice on the left.
fn same_name(look: Look, row: usize, becomes: usize) -> Option<Told> {
    let src = look.src;
    let mut seen: IndexSet<Vec<u8>> = IndexSet::new(look.alloc);
    for i in 0..becomes {
        let begins = i == 0 || src.is(row, i.saturating_sub(1), ",");
        if !begins || src.is(row, i.saturating_add(1), "[") {
            continue;
        }
        let word = src.text_of(row, i);
        if seen.get_index_of(word).is_some() {
            let words = (
                "% stands twice on the left",
                "another variable",
                "all values are assigned at once: each name takes one",
            );
            return Some(at_tok(look, (row, i), words, &[P::B(word)]));
        }
        let Ok(copy) = Vec::from_slice(look.alloc, word) else {
            return Some(look.lost(row));
        };
        if seen.insert_full(copy).is_err() {
            return Some(look.lost(row));
        }
    }
    None
}

/// A number in words.
fn count_word(count: usize) -> &'static str {
    match count {
        1 => "one",
        2 => "two",
        3 => "three",
        4 => "four",
        _ => "many",
    }
}

/// Other numbers of names and of values.
fn counts(look: Look, row: usize, becomes: usize, names: usize, values: usize) -> Told {
    let src = look.src;
    let end = src.count(row);
    let right = becomes.saturating_add(1);
    let (name, expected, it) = if names == 1 {
        ("name", "expected % expression, found %", "it")
    } else {
        ("names", "expected % expressions, found %", "them")
    };
    let value_word = if values == 1 { "value" } else { "values" };
    let words = (
        "% %, and % % for %",
        expected,
        "each name takes the value at its place",
    );
    let pieces = [
        P::T(count_word(names)),
        P::T(name),
        P::T(count_word(values)),
        P::T(value_word),
        P::T(it),
        P::N(names),
        P::N(values),
    ];
    let mut told = look.whole(look.toks(row, right, end), "Form", words, &pieces);
    told.mark(
        look.toks(row, 0, becomes),
        "% %",
        &[P::N(names), P::T(name)],
    );
    if values == 1 && names < 8 {
        let value = P::B(src.between(row, right, end));
        told.hint(": % := %", &[P::B(src.between(row, 0, becomes)), value]);
        for _ in 1..names {
            told.hint(", %", &[value]);
        }
    }
    told
}

/// Each group between commas as an item, or as an expression.
fn each(look: Look, row: usize, span: (usize, usize), items: bool) -> Option<Told> {
    let (from, to) = span;
    let mut start = from;
    for i in from..to.saturating_add(1) {
        if i < to && !look.src.is(row, i, ",") {
            continue;
        }
        let fault = if items {
            item(look, row, start, i, "a variable")
        } else {
            expression(look, row, start, i)
        };
        if fault.is_some() {
            return fault;
        }
        start = i.saturating_add(1);
    }
    None
}

/// An input or an output that begins at a token.
fn message(look: Look, row: usize, from: usize) -> Option<Told> {
    let src = look.src;
    let end = src.count(row);
    let query = src.find(row, from, "?");
    let Some(mark) = query.or_else(|| src.find(row, from, "!")) else {
        let words = (
            "this guard waits for nothing",
            "an input, an output or SKIP",
            "write c ? x, c ! e or SKIP behind &",
        );
        return Some(at_tok(look, (row, from), words, &[]));
    };
    if let Some(told) = item(look, row, from, mark, "a channel") {
        return Some(told);
    }
    if query.is_some() {
        item(look, row, mark.saturating_add(1), end, "a variable")
    } else {
        expression(look, row, mark.saturating_add(1), end)
    }
}

/// A guard with its condition.
fn guard(look: Look, row: usize) -> Option<Told> {
    let and = look.src.find(row, 0, "&").unwrap_or(look.src.count(row));
    if let Some(told) = expression(look, row, 0, and) {
        return Some(told);
    }
    let next = and.saturating_add(1);
    if look.src.is(row, next, "SKIP") {
        nothing_more(look, row, next.saturating_add(1))
    } else {
        message(look, row, next)
    }
}

/// A row that is an expression alone: a condition, where its place has one.
fn condition(look: Look, row: usize) -> Option<Told> {
    let src = look.src;
    let is_slot = wanted(look, row) == "a process";
    let named = matches!(src.tok(row, 0).kind, TokKind::Name);
    if is_slot && named {
        if let Some(told) = half_process(look, row) {
            return Some(told);
        }
    }
    let bad = expression(look, row, 0, src.count(row));
    if bad.is_some() || !is_slot {
        return bad;
    }
    let hint = if named && src.count(row) == 1 {
        "nothing is called: write the body of % here"
    } else {
        ""
    };
    let words = ("no process begins so", "a process", hint);
    Some(at_tok(look, (row, 0), words, &[P::B(src.text_of(row, 0))]))
}

/// A name in front, where a process should stand: a call, a comparison that is meant to assign, or a declaration without its type.
fn half_process(look: Look, row: usize) -> Option<Told> {
    let src = look.src;
    let name = P::B(src.text_of(row, 0));
    if src.is(row, 1, "(") {
        let words = (
            "a call isn't in this language",
            "expected a process, found a name with (",
            "nothing is called: write the body of % here",
        );
        return Some(look.whole(look.all(row), "Form", words, &[name]));
    }
    let end = item_end(look, row, 0).unwrap_or(1);
    if src.is(row, end, "=") {
        let words = (
            "= compares, and doesn't assign",
            "expected := , ? or ! behind the name, found =",
            "write % := %",
        );
        let value = P::B(src.between(row, end.saturating_add(1), src.count(row)));
        let pieces = [P::B(src.between(row, 0, end)), value];
        return Some(look.whole(look.tok(row, end), "Form", words, &pieces));
    }
    if src.is(row, end, ":") {
        let words = (
            "this declaration has no type",
            "a process or a declaration",
            "write WORD4 %: for values from 0 to 15",
        );
        return Some(at_tok(look, (row, 0), words, &[name]));
    }
    None
}
