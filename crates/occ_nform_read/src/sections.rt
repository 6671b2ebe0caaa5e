ghost use Rattle.std.specs.Prelude.{◌≡◌, ◌∷◌, [], ◌≤◌, ◌<◌, ◌+◌, length, IfOk};
ghost use Rattle.occ_nform_table.specs.occ_lex.Rows.{rows};
ghost use Rattle.occ_syntax.specs.Counts.{bits_of_scope};
ghost use Rattle.occ_nform_table.specs.Lines.{HaveWidths};
ghost use Rattle.occ_nform_table.specs.Reading.{params_in, rows_in, states_in};
ghost use Rattle.occ_nform_table.specs.Tables.{IsInterface};
ghost use Rattle.occ_nform_read.specs.Found.{AreApart};

use crate::params::next_param;
use crate::reading::{first_line, is_row, row_behind};
use crate::states::row_of_state;
use occ_nform_table::{RowNumbers, TableRows};
use occ_syntax::{Kind, Memory, Name, Names, Scope};
use std::alloc::Global;

/// The parameters of the PARAM lines in front, whose names are put into the table, and the text behind them.
pub fn params_in<'a>(
    alloc: Global,
    names: &mut Names,
    text: &'a [u8],
) -> Result<(Scope, &'a [u8]), Memory>
    ensures header { IfOk result (λ found. params_in names.old [] (rows text.now) ≡ record { names = names.new; params = found.0; rest = rows found.1.now }) }
    ensures interface { IfOk result (λ found. IsInterface names.new found.0) }
    ensures apart { IfOk result (λ found. AreApart found.0) }
{
    let mut params = Scope::new(alloc);
    let mut rest = text;
    while let Some((line, after)) = first_line(rest) {
        let Some((name, kind)) = next_param(names, params.items(), line) else {
            return Ok((params, rest));
        };
        let name = names.intern(name)?;
        params.push((name, kind))?;
        rest = after;
    }
    Ok((params, rest))
}

/// The rows in front, and the text behind them.
pub fn rows_in<'a>(
    alloc: Global,
    names: &Names,
    params: &[(Name, Kind)],
    text: &'a [u8],
) -> Result<(TableRows, &'a [u8]), Memory>
    requires interface { IsInterface names.now params.now }
    requires short { length (rows text.now) ≤ 67108864 }
    ensures { IfOk result (λ found. (found.0, rows found.1.now) ≡ rows_in names.now params.now (length (rows text.now)) 0 (rows text.now)) }
{
    let mut found = TableRows::new(alloc);
    let mut rest = text;
    while let Some((line, after)) = first_line(rest) {
        let n = found.items().len() as u64;
        if !is_row(n, line) {
            return Ok((found, rest));
        }
        let (row, left) = row_behind(alloc, names, params, n, after)?;
        found.push(row)?;
        rest = left;
    }
    Ok((found, rest))
}

/// The row of each state that a STATE line in front names, where there are n rows, and the text behind them.
pub fn states_in<'a>(
    alloc: Global,
    params: &[(Name, Kind)],
    n: u64,
    text: &'a [u8],
) -> Result<(RowNumbers, &'a [u8]), Memory>
    requires wide { HaveWidths params.now }
    requires bits { bits_of_scope params.now ≤ 16 }
    requires few { length params.now ≤ 16 }
    requires number { n ≤ 4294967295 }
    ensures { IfOk result (λ found. (found.0, rows found.1.now) ≡ states_in params.now n 0 (rows text.now)) }
{
    let mut states = RowNumbers::new(alloc);
    let mut rest = text;
    while let Some((line, after)) = first_line(rest) {
        let k = states.items().len() as u64;
        let Some(row) = row_of_state(alloc, params, n, k, line)? else {
            return Ok((states, rest));
        };
        states.push(row)?;
        rest = after;
    }
    Ok((states, rest))
}
