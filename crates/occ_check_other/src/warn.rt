//! All that is told of an accepted program.

use crate::choices::{about_if, warning};
use crate::uses::{Seen, UNSEEN, about};
use occ_check_find::{Form, Look, Memory, Piece as P, Scopes, Sides, Told};

/// The most warnings that are told.
const MOST: usize = 20;

/// SEQ, PAR, IF or ALT without parts.
fn no_parts(look: Look, row: usize) -> Told {
    let does = matches!(look.form(row), Form::Seq | Form::Par);
    let own = P::T(if does { "SKIP" } else { "STOP" });
    let word = P::B(look.src.text_of(row, 0));
    let mut told = look.tell(look.all(row), "NoParts", "this % has no parts", &[word]);
    told.here("it does what % does", &[own]);
    let level = look.src.level(row);
    match look
        .after(row)
        .filter(|next| look.src.level(*next) == level)
    {
        Some(next) => {
            told.mark(
                look.all(next),
                "this stands at its level, and not below it",
                &[],
            );
            let line = P::N(next.saturating_add(1));
            told.hint("indent line % by one level more, or write %", &[line, own]);
        }
        None => told.hint("write %", &[own]),
    }
    warning(told)
}

/// Sees the uses on a row.
fn see_row(look: Look, scopes: &Scopes, row: usize, seen: &mut Vec<Seen>) -> Result<(), Memory> {
    let sides = Sides::of(look, row);
    for tok in 0..look.src.count(row) {
        let Some(found) = sides.use_at(look, tok) else {
            continue;
        };
        let Some(place) = scopes.place_of(look.src.text_of(row, tok)) else {
            continue;
        };
        for _ in seen.len()..place.saturating_add(1) {
            seen.push(UNSEEN)?;
        }
        if let Some(entry) = seen.get_mut(place) {
            entry.see(look, found);
        }
    }
    Ok(())
}

/// What is told of a construct: that it has no parts, or, of an IF, of its choices.
fn about_group(look: Look, scopes: &Scopes, row: usize, all: &mut Vec<Told>) -> Result<(), Memory> {
    let form = look.form(row);
    if !matches!(form, Form::Seq | Form::Par | Form::If | Form::Alt) || all.len() >= MOST {
        return Ok(());
    }
    if look.last_below(row) == row {
        all.push(no_parts(look, row))?;
    } else if matches!(form, Form::If) {
        about_if(look, scopes, row, all)?;
    }
    Ok(())
}

/// What is told of an accepted program, by rows and columns.
pub fn warnings(look: Look) -> Result<Vec<Told>, Memory> {
    let mut scopes = Scopes::new(look.alloc);
    let mut seen = Vec::new(look.alloc);
    let mut all = Vec::new(look.alloc);
    for row in 0..look.src.rows() {
        if look.src.is_blank(row) {
            continue;
        }
        scopes.enter(look, row);
        see_row(look, &scopes, row, &mut seen)?;
        about_group(look, &scopes, row, &mut all)?;
        scopes.pass(look, row)?;
    }
    for (place, decl) in scopes.all.iter().enumerate() {
        if all.len() >= MOST.saturating_mul(2) {
            break;
        }
        let found = seen.get(place).copied().unwrap_or(UNSEEN);
        if let Some(told) = about(look, *decl, found)? {
            all.push(told)?;
        }
    }
    all.sort_by_key(|told| (told.place.row, told.place.at))?;
    all.truncate(MOST);
    Ok(all)
}

/// How many parts the PARs of a text have: the rows directly below a PAR that are no declaration and no PAR.
pub fn count_parts(look: Look) -> usize {
    let mut count: usize = 0;
    for row in 0..look.src.rows() {
        let Some(up) = look.parent(row) else {
            continue;
        };
        let part = matches!(look.form(up), Form::Par)
            && look.src.level(row) == look.src.level(up).saturating_add(1);
        if part && !matches!(look.form(row), Form::Declare | Form::Par) {
            count = count.saturating_add(1);
        }
    }
    count
}
