//! What is told of an expression that can't be read on.

use crate::expr::{self, Bad, Why, what_of};
use crate::header::at_tok;
use crate::look::{Form, Look};
use crate::syntax::index_fault;
use occ_check_text::{Piece as P, Told};

/// An expression between two tokens of a row.
pub fn expression(look: Look, row: usize, from: usize, to: usize) -> Option<Told> {
    let expr = expr::read(look, row, from, to);
    if expr.lost {
        return Some(look.lost(row));
    }
    expr.bad.map(|bad| bad_expression(look, row, to, bad))
}

/// How the end of an expression is told.
fn end_word(look: Look, row: usize, to: usize) -> &'static str {
    if to < look.src.count(row) {
        if look.src.is(row, to, "&") {
            "& or an operator"
        } else {
            ", or an operator"
        }
    } else if matches!(look.form(row), Form::Condition) {
        "the end of the condition"
    } else {
        "the end of the line"
    }
}

fn bad_expression(look: Look, row: usize, to: usize, bad: Bad) -> Told {
    let at = (row, bad.at);
    match bad.why {
        Why::Second | Why::Mixed => two_operators(look, row, to, bad),
        Why::Index => index_fault(look, row, bad.at),
        Why::Operand => at_tok(look, at, ("an operand is missing", "an operand", ""), &[]),
        Why::Operator => unexpected(look, row, to, bad),
        Why::Bracket if bad.at < to => {
            let words = ("this bracket closes nothing", end_word(look, row, to), "");
            at_tok(look, at, words, &[])
        }
        Why::Bracket => {
            let mut told = at_tok(
                look,
                at,
                ("a bracket isn't closed", ") or an operator", ""),
                &[],
            );
            told.mark(look.tok(row, bad.from), "opened here", &[]);
            told
        }
    }
}

/// Something stands behind an operand that is no operator.
fn unexpected(look: Look, row: usize, to: usize, bad: Bad) -> Told {
    let word = match look.src.text_of(row, bad.at) {
        b"and" => "AND",
        b"or" => "OR",
        b"plus" => "PLUS",
        b"minus" => "MINUS",
        _ => "",
    };
    let meant = !word.is_empty() && bad.at.saturating_add(1) < to;
    let hint = if meant {
        "reserved words are capitals: write %"
    } else {
        ""
    };
    let words = (
        "no operator stands between two operands",
        "an operator or the end",
        hint,
    );
    at_tok(look, (row, bad.at), words, &[P::T(word)])
}

/// Two operators, and no brackets.
fn two_operators(look: Look, row: usize, to: usize, bad: Bad) -> Told {
    let src = look.src;
    let op = P::B(src.text_of(row, bad.at));
    let said = P::B(src.text_of(row, first_operator(look, row, bad)));
    let end = P::T(end_word(look, row, to));
    let place = look.tok(row, bad.at);
    let mut told = if matches!(bad.why, Why::Mixed) {
        let words = (
            "% and % together, and no brackets say what belongs together",
            "expected % or %, found %",
            "",
        );
        look.whole(place, "Form", words, &[said, op, said, end, op])
    } else {
        let words = (
            "two operators, and no brackets say what belongs together",
            "expected %, found a second operator",
            "",
        );
        look.whole(place, "Form", words, &[end])
    };
    told.mark(
        look.toks(row, bad.from, bad.at),
        "taken as the first operand",
        &[],
    );
    brackets_hint(look, row, to, bad, &mut told);
    told
}

/// Where to put brackets.
fn brackets_hint(look: Look, row: usize, to: usize, bad: Bad, told: &mut Told) {
    let src = look.src;
    let next = bad.at.saturating_add(1);
    let op = src.text_of(row, bad.at);
    let first = P::B(src.between(row, bad.from, bad.at));
    let rest = P::B(src.between(row, next, to));
    let before = first_operator(look, row, bad);
    let said = src.text_of(row, before);
    let compared = matches!(op, b"AND" | b"OR")
        && !matches!(bad.why, Why::Mixed)
        && !matches!(said, b"PLUS" | b"MINUS");
    if compared && (next..to).any(|i| what_of(src.text_of(row, i)).is_some()) {
        let words = "no operator binds more tightly: write (%) % (%)";
        return told.hint(words, &[first, P::B(op), rest]);
    }
    let one = P::B(src.between(row, bad.from, before));
    let two = P::B(src.between(row, before.saturating_add(1), bad.at));
    let (op, said) = (P::B(op), P::B(said));
    told.hint(
        "write (%) % %, or % % (% % %)",
        &[first, op, rest, one, said, two, op, rest],
    )
}

/// The operator in front of a second one, outside brackets.
fn first_operator(look: Look, row: usize, bad: Bad) -> usize {
    let mut depth: usize = 0;
    let mut found = bad.from;
    for i in bad.from..bad.at {
        match look.src.text_of(row, i) {
            b"(" | b"[" => depth = depth.saturating_add(1),
            b")" | b"]" => depth = depth.saturating_sub(1),
            text => {
                if depth == 0 && what_of(text).is_some() {
                    found = i;
                }
            }
        }
    }
    found
}
