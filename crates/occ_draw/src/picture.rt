ghost use Rattle.std.specs.Prelude.{◌≡◌, ◌++◌, OnOk, IfOk};
ghost use Rattle.std.specs.List.{All};
ghost use Rattle.occ_tool_run.specs.occ_nform_table.Rows.{RowIsNamed};
ghost use Rattle.occ_tool_run.specs.occ_nform_table.Tables.{IsInterface};
ghost use Rattle.occ_draw.specs.Pictures.{dot_text, rows_text};

use crate::entries::push_entries;
use crate::rows::push_row;
use occ_syntax::{Memory, Names};
use occ_tool_run::{Table, TableRow};
use std::alloc::Global;

/// The picture of a table as a text of the DOT language: a directed graph whose nodes are the rows. A row's label has its
/// number, its final states and its acceptances; an edge has the events of all offers to one row on one channel, with values
/// that follow one another as a range; an entry has the initial states that lead to one row. All that is named in the table has
/// a name in the table of names. The time grows as the table and its picture are long.
pub fn dot_text(alloc: Global, names: &Names, table: &Table) -> Result<Vec<u8>, Memory>
    requires interface { IsInterface names.now table.now.params }
    requires rows { All (RowIsNamed names.now) table.now.rows }
    ensures { IfOk result (λ text. text.items ≡ dot_text names.now table.now.params table.now.rows table.now.states) }
{
    let rows = table.rows.items();
    let mut text = Vec::new(alloc);
    text.extend_from_slice(b"digraph rows {\n  node [shape=box];\n")?;
    push_entries(
        alloc,
        &mut text,
        table.params.items(),
        table.states.items(),
        rows.len() as u64,
    )?;
    push_rows(alloc, &mut text, names, rows)?;
    text.extend_from_slice(b"}\n")?;
    Ok(text)
}

fn push_rows(
    alloc: Global,
    text: &mut Vec<u8>,
    names: &Names,
    rows: &[TableRow],
) -> Result<(), Memory>
    requires { All (RowIsNamed names.now) rows.now }
    ensures { OnOk result (text.new.items ≡ text.old.items ++ rows_text names.now 0 rows.now) }
{
    for (number, row) in rows.iter().enumerate() {
        push_row(alloc, text, names, number as u64, row)?;
    }
    Ok(())
}
