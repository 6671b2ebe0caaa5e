//! What is told of a place at which types differ.

use crate::look::{Form, Look, width_word};
use crate::naming::{decl_span, unknown};
use crate::scope::{Decl, Scopes, Sort, size_of};
use crate::typing::{By, Clash, Ty, ty_of};
use occ_check_text::{Piece as P, Told};

const FAULT: &str = "TypeClash";

/// What is told of a clash of types.
pub fn told(look: Look, scopes: &Scopes, row: usize, clash: Clash) -> Told {
    let target = matches!((clash.by, clash.whole), (By::Item(i), false) if i == clash.from);
    match clash.found {
        _ if matches!(clash.by, By::Channel(i) if i == clash.from) => no_channel(
            look, scopes, row, clash,
        ),
        _ if target => no_target(look, scopes, row, clash),
        Ty::Chan => channel_value(look, scopes, row, clash),
        Ty::Free(value) if clash.asked > 0 => number(look, scopes, row, clash, value),
        Ty::Free(_) => bool_number(look, scopes, row, clash),
        Ty::Bits(_) => widths(look, scopes, row, clash),
        Ty::Unknown => unknown(look, row, FAULT, "two types differ on this line"),
    }
}

/// The least bits of a word that holds a value.
fn bits_for(value: usize) -> u8 {
    for bits in 1..8 {
        if value < size_of(bits) {
            return bits;
        }
    }
    8
}

/// A variable in the place of a channel.
fn no_channel(look: Look, scopes: &Scopes, row: usize, clash: Clash) -> Told {
    let name = P::B(look.src.text_of(row, clash.from));
    let words = (
        "% is a variable, and no channel",
        "expected a channel, found a variable",
        "write % := to assign",
    );
    let mut told = look.whole(look.tok(row, clash.from), FAULT, words, &[name, name]);
    if let Some(decl) = scopes.find(look.src, row, clash.from) {
        told.mark(decl_span(look, decl), "% is declared here", &[name]);
    }
    told
}

/// A channel or a replicator's name that is assigned.
fn no_target(look: Look, scopes: &Scopes, row: usize, clash: Clash) -> Told {
    let src = look.src;
    let name = P::B(src.text_of(row, clash.from));
    let words = if matches!(clash.found, Ty::Chan) {
        (
            "% is a channel, and can't be assigned",
            "expected a variable, found a channel",
            "write % ! % to output on %",
        )
    } else {
        (
            "% is a replicator's name, and can't be assigned",
            "expected a variable, found a replicator's name",
            "",
        )
    };
    let value = P::B(src.between(row, clash.to.saturating_add(1), src.count(row)));
    let place = look.toks(row, clash.from, clash.to);
    let mut told = look.whole(place, FAULT, words, &[name, name, value, name]);
    if let Some(decl) = scopes.find(src, row, clash.from) {
        told.mark(decl_span(look, decl), "% is declared here", &[name]);
    }
    told
}

/// A channel in an expression, or in the place of a variable.
fn channel_value(look: Look, scopes: &Scopes, row: usize, clash: Clash) -> Told {
    let src = look.src;
    let name = P::B(src.text_of(row, clash.from));
    let (hint, variable) = match clash.by {
        By::Item(target) if clash.whole && src.is(row, 1, ":=") => (
            "write % ? % to input from % into %",
            src.text_of(row, target),
        ),
        _ if scopes.find(src, row, clash.from).is_some() => (
            "input from % into a variable first, and name that here",
            src.text_of(row, 0),
        ),
        _ => ("", src.text_of(row, 0)),
    };
    let variable = P::B(variable);
    let words = (
        "% is a channel, and no value",
        "expected a variable or a value, found a channel",
        hint,
    );
    let pieces = [name, name, variable, name, variable];
    look.whole(look.tok(row, clash.from), FAULT, words, &pieces)
}

/// Marks what asks for a type.
fn mark_asker(look: Look, scopes: &Scopes, row: usize, by: By, told: &mut Told) {
    let (i, carries) = match by {
        By::Item(i) => (i, false),
        By::Channel(i) => (i, true),
        _ => return,
    };
    let Some(decl) = scopes.find(look.src, row, i) else {
        return;
    };
    let (words, bits) = match decl.sort {
        Sort::Chan(bits, _) if carries => ("% carries %", bits),
        Sort::Var(bits) => ("% is %", bits),
        _ => return,
    };
    let name = P::B(look.src.text_of(row, i));
    told.mark(
        decl_span(look, decl),
        words,
        &[name, P::T(width_word(bits))],
    )
}

/// A numeral, or a replicator's name, that doesn't fit.
fn number(look: Look, scopes: &Scopes, row: usize, clash: Clash, value: usize) -> Told {
    let src = look.src;
    let text = P::B(src.between(row, clash.from, clash.to));
    let counter = scopes
        .find(src, row, clash.from)
        .filter(|decl| matches!(decl.sort, Sort::Counter { .. }));
    let size = size_of(clash.asked);
    let asked = P::T(width_word(clash.asked));
    let place = look.toks(row, clash.from, clash.to);
    let mut told = look.tell(place, FAULT, "% doesn't fit into %", &[text, asked]);
    mark_asker(look, scopes, row, clash.by, &mut told);
    match counter {
        Some(decl) => counter_notes(look, size, decl, &mut told),
        None => told.here(
            "expected 0 to %, found %",
            &[P::N(size.saturating_sub(1)), text],
        ),
    }
    let (i, words) = match clash.by {
        By::Item(i) => (i, "declare % as %"),
        By::Channel(i) => (i, "let % carry %"),
        _ => return told,
    };
    let wide = P::T(width_word(bits_for(value)));
    told.hint(words, &[P::B(src.text_of(row, i)), wide]);
    if let Some(Sort::Counter { base, .. }) = counter.map(|decl| decl.sort) {
        told.hint(", or write FOR %", &[P::N(size.saturating_sub(base))]);
    }
    told
}

/// What is said of a replicator's name that doesn't fit.
fn counter_notes(look: Look, size: usize, decl: Decl, told: &mut Told) {
    let Sort::Counter { base, count } = decl.sort else {
        return;
    };
    let name = P::B(look.src.text_of(decl.row, decl.tok));
    let last = base.saturating_add(count).saturating_sub(1);
    told.mark(
        decl_span(look, decl),
        "% is % to %",
        &[name, P::N(base), P::N(last)],
    );
    let (most, first) = (P::N(size.saturating_sub(1)), P::N(base.max(size)));
    told.here(
        "expected 0 to %, found % where % = %",
        &[most, first, name, first],
    )
}

/// A numeral where BOOL is asked for.
fn bool_number(look: Look, scopes: &Scopes, row: usize, clash: Clash) -> Told {
    let said = if matches!(clash.by, By::Condition) {
        "a condition is a BOOL"
    } else {
        "a numeral is to go into a BOOL"
    };
    let hint = match look.src.between(row, clash.from, clash.to) {
        b"0" => "write FALSE",
        b"1" => "write TRUE",
        _ => "",
    };
    let place = look.toks(row, clash.from, clash.to);
    let words = (said, "expected BOOL, found a numeral", hint);
    let mut told = look.whole(place, FAULT, words, &[]);
    mark_asker(look, scopes, row, clash.by, &mut told);
    told
}

/// Two widths that differ.
fn widths(look: Look, scopes: &Scopes, row: usize, clash: Clash) -> Told {
    match (clash.by, clash.whole) {
        (By::Condition, _) => condition(look, scopes, row, clash),
        (By::Item(i), true) => into_item(look, scopes, row, (clash, i)),
        (By::Channel(i), true) => through_channel(look, scopes, row, (clash, i)),
        _ => within(look, scopes, row, clash),
    }
}

fn found_word(clash: Clash) -> &'static str {
    match clash.found {
        Ty::Bits(bits) => width_word(bits),
        _ => "a number",
    }
}

/// A word where a condition is asked for.
fn condition(look: Look, scopes: &Scopes, row: usize, clash: Clash) -> Told {
    let src = look.src;
    let text = P::B(src.between(row, clash.from, clash.to));
    let found = P::T(found_word(clash));
    let said = if clash.whole {
        "a condition is a BOOL"
    } else {
        "AND, OR and NOT take BOOL"
    };
    let words = (
        said,
        "expected BOOL, found %",
        "write % = 1; BOOL and % are different types",
    );
    let place = look.toks(row, clash.from, clash.to);
    let mut told = look.whole(place, FAULT, words, &[found, text, found]);
    if let Some(decl) = scopes.find(src, row, clash.from) {
        let name = P::B(src.text_of(row, clash.from));
        told.mark(decl_span(look, decl), "% is %", &[name, found]);
    }
    told
}

/// A value that is to go into a variable of another type.
fn into_item(look: Look, scopes: &Scopes, row: usize, at: (Clash, usize)) -> Told {
    let (clash, target) = at;
    let src = look.src;
    let (found, asked) = (P::T(found_word(clash)), P::T(width_word(clash.asked)));
    let end = crate::expr::item_end(look, row, target).unwrap_or(target);
    let name = P::B(src.between(row, target, end));
    let text = P::B(src.between(row, clash.from, clash.to));
    let place = look.toks(row, clash.from, clash.to);
    let mut told = look.tell(place, FAULT, "a % is to go into a %", &[found, asked]);
    if src.find(row, 0, ",").is_some() {
        told.here("expected % for %, found %", &[asked, name, found]);
        exchange(look, scopes, row, clash, &mut told);
        return told;
    }
    mark_asker(look, scopes, row, clash.by, &mut told);
    told.here("expected %, found %", &[asked, found]);
    let plain = clash.to == clash.from.saturating_add(1);
    if clash.asked > 0 && matches!(clash.found, Ty::Bits(0)) {
        told.hint(
            "an IF makes a number of it: % := 1 below %, 0 below TRUE",
            &[name, text],
        );
    } else if plain && clash.asked == 0 {
        told.hint(
            "say when % is to be TRUE, as % := % = 1",
            &[name, name, text],
        );
    } else if plain {
        told.hint("nothing is widened: declare % as %", &[text, asked]);
    }
    told
}

/// Two names whose values are of the other's type.
fn exchange(look: Look, scopes: &Scopes, row: usize, clash: Clash, told: &mut Told) {
    let src = look.src;
    let two = src.count(row) == 7
        && src.is(row, 1, ",")
        && src.is(row, 3, ":=")
        && src.is(row, 5, ",");
    if !two {
        return told.hint("the values go to the names in order", &[]);
    }
    let (one, other) = (P::B(src.text_of(row, 0)), P::B(src.text_of(row, 2)));
    let (first, second) = (P::B(src.text_of(row, 4)), P::B(src.text_of(row, 6)));
    let types = (ty_of(look, scopes, row, 6), ty_of(look, scopes, row, 2));
    if let (Ty::Bits(found), Ty::Bits(asked)) = types {
        if clash.from == 4 && found != asked {
            let (found, asked) = (P::T(width_word(found)), P::T(width_word(asked)));
            told.also(
                "and %, a %, is to go into %, a %",
                &[second, found, other, asked],
            );
        }
    }
    told.hint(
        "the values go to the names in order: % to %, % to %",
        &[first, one, second, other],
    )
}

/// A value that goes through a channel of another type.
fn through_channel(look: Look, scopes: &Scopes, row: usize, at: (Clash, usize)) -> Told {
    let (clash, chan) = at;
    let src = look.src;
    let input = matches!(look.form(row), Form::Input) || src.find(row, chan, "?").is_some();
    let name = P::B(src.between(row, clash.from, clash.to));
    let (found, asked) = (P::T(found_word(clash)), P::T(width_word(clash.asked)));
    let place = look.toks(row, clash.from, clash.to);
    let mut told = if input {
        look.tell(
            place,
            FAULT,
            "a % is to go into %, a %",
            &[asked, name, found],
        )
    } else {
        look.tell(
            place,
            FAULT,
            "a % is to go through a channel of %",
            &[found, asked],
        )
    };
    mark_asker(look, scopes, row, clash.by, &mut told);
    told.here("expected %, found %", &[asked, found]);
    if clash.to == clash.from.saturating_add(1) {
        if let Some(decl) = scopes.find(src, row, clash.from) {
            told.mark(decl_span(look, decl), "% is %", &[name, found]);
            if clash.asked > 0 {
                told.hint("declare % as %", &[name, asked]);
            }
        }
    }
    told
}

/// An operand of another type than its place asks for.
fn within(look: Look, scopes: &Scopes, row: usize, clash: Clash) -> Told {
    let src = look.src;
    let (found, asked) = (P::T(found_word(clash)), P::T(width_word(clash.asked)));
    let name = P::B(src.text_of(row, clash.from));
    let decl = scopes.find(src, row, clash.from);
    let widens = decl.is_some() && clash.asked > 0 && !matches!(clash.found, Ty::Bits(0));
    let words = (
        "a % stands where a % is asked for",
        "expected %, found %",
        if widens {
            "nothing is widened: declare % as %"
        } else {
            ""
        },
    );
    let place = look.toks(row, clash.from, clash.to);
    let pieces = [found, asked, asked, found, name, asked];
    let mut told = look.whole(place, FAULT, words, &pieces);
    if let Some(decl) = decl {
        told.mark(decl_span(look, decl), "% is %", &[name, found]);
    }
    let (i, words) = match clash.by {
        By::Item(i) => (i, "% is %, and asks for %"),
        By::Channel(i) => (i, "% carries %"),
        _ => return told,
    };
    told.mark(
        look.tok(row, i),
        words,
        &[P::B(src.text_of(row, i)), asked, asked],
    );
    told
}
