ghost use Rattle.std.specs.Prelude.{◌≡◌, ◌∷◌, [], ◌≤◌, ◌<◌, ◌+◌, length, IfOk, OnOk};
ghost use Rattle.std.specs.Option.{MatchOption};
ghost use Rattle.occ_nform_table.specs.occ_lex.Rows.{rows};
ghost use Rattle.occ_syntax.specs.Counts.{bits_of_scope};
ghost use Rattle.occ_nform_table.specs.Lines.{AreNamed, HaveWidths, end_of, accept_of, offer_of, is_row, row_of_state, next_param};
ghost use Rattle.occ_nform_table.specs.Reading.{params_in, row_behind, rows_in, states_in, taken};

use crate::events::{accept_of, offer_of};
use crate::params::next_param;
use crate::states::{end_of, row_of_state};
use crate::words::{between, is_number};
use occ_nform_table::{EventSets, RowNumbers, States, TableOffers, TableRow, TableRows, first_row};
use occ_syntax::{Kind, Memory, Name, Names, Scope};
use std::alloc::Global;

/// The first line of a text, with its line feed, and the text behind it.
pub fn first_line(text: &[u8]) -> Option<(&[u8], &[u8])>
    ensures { MatchOption result (rows text.now ≡ []) (λ parts. (rows text.now ≡ parts.0.now ∷ rows parts.1.now) × (length parts.1.now < length text.now)) }
{
    if text.is_empty() {
        return None;
    }
    let line = first_row(text);
    Some((line, &text[line.len()..]))
}

/// The states of the END lines in front, and the text behind them.
fn ends_in<'a>(
    alloc: Global,
    params: &[(Name, Kind)],
    text: &'a [u8],
) -> Result<(States, &'a [u8]), Memory>
    requires { HaveWidths params.now }
    ensures { IfOk result (λ found. (found.0, rows found.1.now) ≡ taken (end_of params.now) (rows text.now)) }
{
    let mut ends = States::new(alloc);
    let mut rest = text;
    while let Some((line, after)) = first_line(rest) {
        let Some(state) = end_of(alloc, params, line)? else {
            return Ok((ends, rest));
        };
        ends.push(state)?;
        rest = after;
    }
    Ok((ends, rest))
}

/// The sets of the ACCEPT lines in front, and the text behind them.
fn accepts_in<'a>(
    alloc: Global,
    names: &Names,
    params: &[(Name, Kind)],
    text: &'a [u8],
) -> Result<(EventSets, &'a [u8]), Memory>
    requires named { AreNamed names.now params.now }
    requires wide { HaveWidths params.now }
    requires few { length params.now ≤ 16 }
    ensures { IfOk result (λ found. (found.0, rows found.1.now) ≡ taken (accept_of names.now params.now) (rows text.now)) }
{
    let mut sets = EventSets::new(alloc);
    let mut rest = text;
    while let Some((line, after)) = first_line(rest) {
        let Some(set) = accept_of(alloc, names, params, line)? else {
            return Ok((sets, rest));
        };
        sets.push(set)?;
        rest = after;
    }
    Ok((sets, rest))
}

/// The offers of the OFFER lines of row n in front, and the text behind them.
fn offers_in<'a>(
    alloc: Global,
    names: &Names,
    params: &[(Name, Kind)],
    n: u64,
    text: &'a [u8],
) -> Result<(TableOffers, &'a [u8]), Memory>
    requires named { AreNamed names.now params.now }
    requires wide { HaveWidths params.now }
    requires number { n ≤ 4294967295 }
    ensures { IfOk result (λ found. (found.0, rows found.1.now) ≡ taken (offer_of names.now params.now n) (rows text.now)) }
{
    let mut offers = TableOffers::new(alloc);
    let mut rest = text;
    while let Some((line, after)) = first_line(rest) {
        let Some(offer) = offer_of(names, params, n, line) else {
            return Ok((offers, rest));
        };
        offers.push(offer)?;
        rest = after;
    }
    Ok((offers, rest))
}

/// Whether a line is that of row n.
#[tactic(auto, unfolding(occ_nform_table::specs::Lines::is_row))]
pub fn is_row(n: u64, line: &[u8]) -> bool
    requires { n ≤ 4294967295 }
    ensures { result ≡ is_row n line.now }
{
    match between(b"ROW ", b"\n", line) {
        Some(numeral) => is_number(n, numeral),
        None => false,
    }
}

/// Row n by the lines behind its ROW line, and the text behind it.
#[tactic(auto, unfolding(occ_nform_table::specs::Reading::row_behind))]
pub fn row_behind<'a>(
    alloc: Global,
    names: &Names,
    params: &[(Name, Kind)],
    n: u64,
    text: &'a [u8],
) -> Result<(TableRow, &'a [u8]), Memory>
    requires named { AreNamed names.now params.now }
    requires wide { HaveWidths params.now }
    requires few { length params.now ≤ 16 }
    requires number { n ≤ 4294967295 }
    ensures { IfOk result (λ found. (found.0, rows found.1.now) ≡ row_behind names.now params.now n (rows text.now)) }
{
    let (ends, rest) = ends_in(alloc, params, text)?;
    let (accepts, rest) = accepts_in(alloc, names, params, rest)?;
    let (offers, rest) = offers_in(alloc, names, params, n, rest)?;
    let row = TableRow {
        ends,
        accepts,
        offers,
    };
    Ok((row, rest))
}
