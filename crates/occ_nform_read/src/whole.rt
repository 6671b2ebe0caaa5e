ghost use Rattle.std.specs.Prelude.{◌≡◌, ◌+◌, ◌<◌, ◌≤◌, [], length, Option, None, IfOk};
ghost use Rattle.std.specs.List.{AllByRecursion};
ghost use Rattle.occ_nform_table.specs.Judging.{rows_marks, is_empty_row};
ghost use Rattle.occ_nform_table.specs.Normal.{Parts, first_mark, first_empty, table_fault};
ghost use Rattle.occ_nform_table.specs.Tables.{IsInterface, AreRowsOf};

use crate::lines::{Standing, height_over, lines_of, row_fault};
use crate::reach::reach_fault;
use occ_nform_table::{TableFault, TableRow, row_text};
use occ_syntax::{Kind, Memory, Name, Names};
use std::alloc::Global;

/// The first fault of the lines of rows: a line that is out of order, or whose set is no least acceptance.
fn rows_fault(
    alloc: Global,
    names: &Names,
    params: &[(Name, Kind)],
    rows: &[TableRow],
) -> Result<Option<TableFault>, Memory>
    requires interface { IsInterface names.now params.now }
    requires rows { AreRowsOf params.now 0 rows.now }
    requires lines { 2 + length params.now + length (rows_marks names.now params.now [] None rows.now) ≤ 4294967295 }
    ensures { IfOk result (λ fault. fault ≡ first_mark (2 + length params.now) (rows_marks names.now params.now [] None rows.now)) }
{
    let mut line = 2 + params.len() as u32;
    let mut heights = Vec::new(alloc);
    let mut before = None;
    for row in rows {
        let height = height_over(heights.as_slice(), row.offers.items());
        let text = row_text(alloc, names, row)?;
        let here = Standing { height, text };
        let fault = row_fault(alloc, params, line, &before, &here, row)?;
        if fault.is_some() {
            return Ok(fault);
        }
        line += lines_of(row);
        heights.push(height)?;
        before = Some(here);
    }
    Ok(None)
}

fn is_empty_row(row: &TableRow) -> bool
    ensures { result ≡ is_empty_row row.now }
{
    row.ends.items().is_empty() && row.accepts.items().is_empty()
}

/// The first row without END and ACCEPT.
fn empty_fault(rows: &[TableRow]) -> Option<TableFault>
    requires { length rows.now ≤ 4294967295 }
    ensures { result ≡ first_empty 0 rows.now }
{
    let mut n = 0;
    for row in rows {
        if is_empty_row(row) {
            return Some(TableFault::Empty { row: n });
        }
        n += 1;
    }
    None
}

/// The first fault of a table whose lines have their forms: on the least line that is out of order or no least
/// acceptance, then the least row that is empty, then the least that isn't reached from a STATE line.
pub fn judge(
    alloc: Global,
    names: &Names,
    params: &[(Name, Kind)],
    rows: &[TableRow],
    states: &[u32],
) -> Result<Option<TableFault>, Memory>
    requires interface { IsInterface names.now params.now }
    requires rows { AreRowsOf params.now 0 rows.now }
    requires lines { 2 + length params.now + length (rows_marks names.now params.now [] None rows.now) ≤ 4294967295 }
    requires states { AllByRecursion (λ n. n < length rows.now) states.now }
    ensures { IfOk result (λ fault. fault ≡ table_fault (record { names = names.now; params = params.now; rows = rows.now; states = states.now })) }
{
    let fault = rows_fault(alloc, names, params, rows)?;
    if fault.is_some() {
        return Ok(fault);
    }
    let fault = empty_fault(rows);
    if fault.is_some() {
        return Ok(fault);
    }
    reach_fault(alloc, rows, states)
}
