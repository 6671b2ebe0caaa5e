//! Choices that are never taken, and IFs that may be STOP.

use crate::values::Table;
use occ_check_find::{Form, Look, Memory, Piece as P, Put, Scopes, Told};

/// The most choices of an IF whose conditions are looked at.
const MOST_CHOICES: usize = 16;

/// A warning in place of an error.
pub fn warning(told: Told) -> Told {
    let mut told = told;
    told.is_warning = true;
    told
}

/// The choices of an IF, each row one; None where one isn't a plain condition.
fn choices(look: Look, row: usize) -> Result<Option<Vec<usize>>, Memory> {
    let mut found = Vec::new(look.alloc);
    let level = look.src.level(row).saturating_add(1);
    for r in row.saturating_add(1)..look.last_below(row).saturating_add(1) {
        if look.src.is_blank(r) || look.src.level(r) != level {
            continue;
        }
        if !matches!(look.form(r), Form::Condition) {
            return Ok(None);
        }
        found.push(r)?;
    }
    Ok(Some(found))
}

fn is_true(look: Look, row: usize) -> bool {
    look.src.is(row, 0, "TRUE") && look.src.count(row) == 1
}

/// What is told of an IF and its choices.
pub fn about_if(
    look: Look,
    scopes: &Scopes,
    row: usize,
    all: &mut Vec<Told>,
) -> Result<(), Memory> {
    if look.repeats(row) {
        return Ok(());
    }
    let Some(rows) = choices(look, row)? else {
        return Ok(());
    };
    let count = rows.iter().take_while(|r| !is_true(look, **r)).count();
    let (open, rest) = rows.as_slice().split_at(count.min(rows.len()));
    if let [always, next, ..] = rest {
        all.push(behind_true(look, *always, *next))?;
    }
    if open.len() > MOST_CHOICES {
        return Ok(());
    }
    let table = Table::read(look, scopes, open)?;
    covered(look, &table, open, all)?;
    let nested = look
        .parent(row)
        .is_some_and(|parent| matches!(look.form(parent), Form::If));
    if rest.is_empty() && !nested {
        if let Some(told) = open_if(look, &table, row) {
            all.push(told)?;
        }
    }
    Ok(())
}

/// A choice that is never taken.
fn never(look: Look, row: usize) -> Told {
    warning(look.tell(
        look.all(row),
        "NeverTaken",
        "this choice is never taken",
        &[],
    ))
}

/// A choice behind TRUE.
fn behind_true(look: Look, always: usize, next: usize) -> Told {
    let mut told = never(look, next);
    told.mark(look.all(always), "this choice is always true", &[]);
    told.here("not reached", &[]);
    told.hint("put TRUE last", &[]);
    told
}

/// A choice that holds only where an earlier one does.
fn taken_first(look: Look, earlier: usize, row: usize) -> Told {
    let text = P::B(look.src.between(row, 0, look.src.count(row)));
    let mut told = never(look, row);
    told.mark(
        look.all(earlier),
        "wherever %, this choice is taken first",
        &[text],
    );
    told.here("never true here", &[]);
    told.hint("put the narrower condition first", &[]);
    told
}

/// What is told of choices of which an earlier one holds wherever they do.
fn covered(look: Look, table: &Table, rows: &[usize], all: &mut Vec<Told>) -> Result<(), Memory> {
    for (k, row) in rows.iter().enumerate() {
        for (i, earlier) in rows.iter().enumerate() {
            if i >= k {
                break;
            }
            if table.covers(i, k) {
                all.push(taken_first(look, *earlier, *row))?;
                break;
            }
        }
    }
    Ok(())
}

/// An IF without a choice that is always true, where its conditions don't hold at all values.
fn open_if(look: Look, table: &Table, row: usize) -> Option<Told> {
    let mut values = Put::new(look.alloc);
    if table.known {
        let at = table.open_at()?;
        for (i, var) in table.vars.iter().enumerate() {
            let front = P::T(if i == 0 { ", as for " } else { ", " });
            let name = P::B(look.src.text_of(var.row, var.tok));
            values.say("%% = %", &[front, name, P::N(table.value_of(i, at).value)]);
        }
    }
    let mut told = look.tell(
        look.all(row),
        "NoTrueChoice",
        "this IF has no choice TRUE",
        &[],
    );
    told.here("where no condition is true it is STOP%", &[P::W(&values)]);
    told.hint(
        "add TRUE with SKIP below it as the last choice, if nothing is to be done then",
        &[],
    );
    Some(warning(told))
}
