//! What is told of a text that is over a limit.

use crate::expr::{What, what_of};
use crate::lexical::numeral;
use crate::look::Look;
use crate::naming::decl_span;
use crate::scope::{Decl, Scopes, Sort};
use occ_check_text::{Memory, Piece as P, Put, Span, TokKind, Told};

/// A limit.
#[derive(Clone, Copy)]
pub enum Limit {
    Bytes,
    Levels,
    Tokens,
    Parameters,
    Count,
    Controls,
    InterfaceBits,
    ScopeBits,
}

const SMALLER: &str = "take fewer: most faults are there in the small design too";

const BYTES: (&str, &str, &str) = (
    "the file is too long",
    "expected at most 65536 bytes",
    "a program is short: look whether this file is one",
);

const LEVELS: (&str, &str, &str) = (
    "this line stands at level %",
    "expected level 64 or less, found level %",
    "put an IF whose first choice is an IF, or a PAR in a PAR, into one",
);

const TOKENS: (&str, &str, &str) = (
    "% words and signs on one line",
    "expected at most 4096",
    "assign parts of it to variables first",
);

/// What is told of a limit on a row.
pub fn over(look: Look, scopes: &Scopes, row: usize, which: Limit) -> Result<Told, Memory> {
    Ok(match which {
        Limit::Bytes => look.whole(
            Span {
                row: 0,
                at: 0,
                len: 1,
            },
            "Limit Bytes",
            BYTES,
            &[],
        ),
        Limit::Levels => {
            let level = P::N(look.src.level(row));
            look.whole(look.margin(row), "Limit Levels", LEVELS, &[level, level])
        }
        Limit::Tokens => {
            let count = P::N(look.src.count(row));
            look.whole(look.all(row), "Limit Tokens", TOKENS, &[count])
        }
        Limit::Parameters => parameters(look, scopes, row)?,
        Limit::Count => count(look, row),
        Limit::Controls => controls(look, row),
        Limit::InterfaceBits => interface(look, scopes, row)?,
        Limit::ScopeBits => scope(look, scopes, row)?,
    })
}

/// What stands between the brackets of a header.
fn inside(look: Look, row: usize) -> Span {
    let close = look.src.find(row, 0, ")").unwrap_or(look.src.count(row));
    look.toks(row, 3, close)
}

fn parameters(look: Look, scopes: &Scopes, row: usize) -> Result<Told, Memory> {
    let mut number: usize = 0;
    let mut arrays = false;
    for decl in listed(look, scopes, row)?.as_slice() {
        number = number.saturating_add(decl.count.max(1));
        arrays = arrays || decl.count > 0;
    }
    let words = if arrays {
        (
            "% parameters",
            "expected at most 16 parameters, found %: each element counts",
            "take a smaller array: most faults are there in the small design too",
        )
    } else {
        (
            "% parameters",
            "expected at most 16 parameters, found %",
            "take fewer parameters: most faults are there in the small design too",
        )
    };
    let pieces = [P::N(number), P::N(number)];
    Ok(look.whole(inside(look, row), "Limit Parameters", words, &pieces))
}

/// The declarations of a row, also where they aren't in scope yet.
fn listed(look: Look, scopes: &Scopes, row: usize) -> Result<Vec<Decl>, Memory> {
    let mut found = Vec::new(look.alloc);
    for decl in scopes.all.as_slice() {
        if decl.row == row {
            found.push(*decl)?;
        }
    }
    if found.is_empty() {
        let mut own = Scopes::new(look.alloc);
        own.pass(look, row)?;
        for decl in own.all.as_slice() {
            found.push(*decl)?;
        }
    }
    Ok(found)
}

fn count(look: Look, row: usize) -> Told {
    let src = look.src;
    let group = look.repeats(row);
    let at = (0..src.count(row)).find(|place| {
        let i = *place;
        let opens = i > 0 && (src.is(row, i.saturating_sub(1), "[") || (group && i == 5));
        let numeric = matches!(src.tok(row, i).kind, TokKind::Numeral);
        opens && numeric && numeral(src.text_of(row, i)) > 64
    });
    let at = at.unwrap_or(0);
    let text = P::B(src.text_of(row, at));
    let said = if group { "% copies" } else { "% elements" };
    let words = (said, "expected at most 64, found %", SMALLER);
    look.whole(look.tok(row, at), "Limit Count", words, &[text, text])
}

fn controls(look: Look, row: usize) -> Told {
    let words = (
        "more than 4096 controls once copies are made",
        "expected at most 4096 processes, choices and declarations, each copy counted",
        "take smaller counts: most faults are there in the small design too",
    );
    let mut told = look.whole(look.tok(row, 0), "Limit Controls", words, &[]);
    let mut most = row;
    let mut copies = 0;
    for r in 0..look.src.rows() {
        let number = numeral(look.src.text_of(r, 5));
        if look.repeats(r) && number > copies {
            most = r;
            copies = number;
        }
    }
    if copies > 0 {
        told.mark(
            look.all(most),
            "% copies of what stands below",
            &[P::N(copies)],
        );
    }
    told
}

fn bits_of(decl: &Decl) -> usize {
    match decl.sort {
        Sort::Var(bits) => usize::from(bits.max(1)).saturating_mul(decl.count.max(1)),
        _ => 0,
    }
}

/// The sum of the bits of variables, and the place from the first to the last of them.
fn summed(look: Look, decls: &[Decl]) -> (usize, Option<Span>) {
    let mut sum: usize = 0;
    let mut place: Option<Span> = None;
    for decl in decls {
        let bits = bits_of(decl);
        if bits == 0 {
            continue;
        }
        sum = sum.saturating_add(bits);
        let span = decl_span(look, *decl);
        let end = span.at.saturating_add(span.len);
        place = Some(match place {
            Some(before) => Span {
                row: before.row,
                at: before.at,
                len: end.saturating_sub(before.at),
            },
            None => span,
        });
    }
    (sum, place)
}

fn interface(look: Look, scopes: &Scopes, row: usize) -> Result<Told, Memory> {
    let decls = listed(look, scopes, row)?;
    let (sum, place) = summed(look, &decls);
    let mut parts = Put::new(look.alloc);
    for decl in decls.as_slice() {
        let bits = bits_of(decl);
        if bits > 0 {
            let front = if parts.is_empty() { "" } else { " + " };
            parts.say("%%", &[P::T(front), P::N(bits)]);
        }
    }
    let words = (
        "% bits of parameter variables",
        "expected at most 16 bits, found %",
        "all initial states are compared: take narrower words",
    );
    let span = place.unwrap_or(inside(look, row));
    Ok(look.whole(
        span,
        "Limit InterfaceBits",
        words,
        &[P::N(sum), P::W(&parts)],
    ))
}

fn scope(look: Look, scopes: &Scopes, row: usize) -> Result<Told, Memory> {
    let own = listed(look, scopes, row)?;
    let (mut sum, place) = summed(look, &own);
    let mut told = Told::new(
        look.alloc,
        place.unwrap_or(look.all(row)),
        b"Limit ScopeBits",
    );
    let mut group = Vec::new(look.alloc);
    let mut newest: Option<Decl> = None;
    for at in scopes.in_scope() {
        let Some(decl) = scopes.decl(*at).filter(|decl| decl.row != row) else {
            continue;
        };
        if newest.is_some_and(|before| before.row != decl.row) {
            sum = sum.saturating_add(mark_bits(look, &group, &mut told));
            group.truncate(0);
        }
        group.push(decl)?;
        if bits_of(&decl) > 0 {
            newest = Some(decl);
        }
    }
    sum = sum.saturating_add(mark_bits(look, &group, &mut told));
    told.say("% bits of variables in scope here", &[P::N(sum)]);
    told.here("expected at most 24 bits in scope, found %", &[P::N(sum)]);
    if let (Some(one), Some(other)) = (own.first(), newest) {
        let name = look.src.text_of(one.row, one.tok);
        if other.is_param {
            told.hint("take narrower words", &[]);
        } else {
            let before = look.src.text_of(other.row, other.tok);
            told.hint(
                "declare % where % isn't in scope, or take narrower words",
                &[P::B(name), P::B(before)],
            );
        }
    }
    Ok(told)
}

fn mark_bits(look: Look, decls: &[Decl], told: &mut Told) -> usize {
    let (sum, place) = summed(look, decls);
    if let Some(span) = place {
        told.mark(span, "% bits", &[P::N(sum)]);
    }
    sum
}

/// What is told of a comparison of numerals alone.
pub fn no_type(look: Look, row: usize) -> Told {
    let src = look.src;
    for i in 1..src.count(row) {
        let before = i.saturating_sub(1);
        if matches!(what_of(src.text_of(row, i)), Some(What::Compare))
            && matches!(src.tok(row, before).kind, TokKind::Numeral)
        {
            let next = i.saturating_add(1);
            let words = (
                "nothing tells the width of this comparison",
                "expected an operand with a width, found numerals alone",
                "write %(WORD4) % %",
            );
            let pieces = [
                P::B(src.text_of(row, before)),
                P::B(src.text_of(row, i)),
                P::B(src.text_of(row, next)),
            ];
            let place = look.toks(row, before, next.saturating_add(1));
            return look.whole(place, "NoType", words, &pieces);
        }
    }
    crate::naming::unknown(
        look,
        row,
        "NoType",
        "nothing tells the width of a comparison on this line",
    )
}
