//! The body of a normal program.

ghost use Rattle.std.specs.Prelude.{◌≡◌, ◌≤◌, ◌<◌, [], IfOk, length, map};
ghost use Rattle.std.specs.List.{All};
ghost use Rattle.occ_nform_table.specs.Lines.{HaveWidths};
ghost use Rattle.occ_nform_table.specs.Tables.{AreRowsOf};
ghost use Rattle.occ_syntax.specs.Counts.{bits_of_scope};
ghost use Rattle.occ_syntax.specs.View.{cases, in_choices, in_procs, tree};
ghost use Rattle.occ_target.specs.Program.{body_over, processes, state_choices};
ghost use Rattle.occ_target.specs.Rows.{choices};

use crate::events::Frame;
use crate::state::{condition, state_at};
use occ_nform_table::{Table, TableRow};
use occ_syntax::{Choices, Kind, Memory, Name, Proc, Procs};
use std::alloc::Global;

/// The processes of rows, each built on those of the rows before it.
fn processes(
    alloc: Global,
    params: &[(Name, Kind)],
    inputs: &[(Name, Kind)],
    rows: &[TableRow],
) -> Result<Procs, Memory>
    requires { AreRowsOf params.now 0 rows.now }
    ensures parts { IfOk result (λ parts. map tree (in_procs parts) ≡ processes params.now inputs.now [] rows.now) }
    ensures count { IfOk result (λ parts. length (in_procs parts) ≡ length rows.now) }
{
    let mut made = Procs::new(alloc);
    for row in rows {
        let frame = Frame {
            params,
            inputs,
            parts: made.items(),
        };
        let part = frame.row_process(alloc, row)?;
        made.push(part)?;
    }
    Ok(made)
}

/// For each initial state the choice of its row's process.
fn state_choices(
    alloc: Global,
    params: &[(Name, Kind)],
    parts: &[Proc],
    states: &[u32],
) -> Result<Choices, Memory>
    requires wide { HaveWidths params.now }
    requires few { bits_of_scope params.now ≤ 16 }
    requires states { All (λ n. n < length parts.now) states.now }
    ensures { IfOk result (λ made. cases (in_choices made) ≡ choices (state_choices params.now (map tree parts.now) 0 states.now)) }
{
    let mut made = Choices::new(alloc);
    for (place, row) in states.iter().enumerate() {
        let state = state_at(alloc, params, place as u64)?;
        let part = parts[*row as usize].copy(alloc)?;
        made.push((condition(alloc, params, state.items())?, part))?;
    }
    Ok(made)
}

/// The body of the normal program, with these variables for inputs.
pub(crate) fn body_over(
    alloc: Global,
    inputs: &[(Name, Kind)],
    table: &Table,
) -> Result<Proc, Memory>
    requires wide { HaveWidths table.now.params }
    requires few { bits_of_scope table.now.params ≤ 16 }
    requires rows { AreRowsOf table.now.params 0 table.now.rows }
    requires states { All (λ n. n < length table.now.rows) table.now.states }
    ensures { IfOk result (λ body. tree body ≡ body_over table.now.params inputs.now table.now.rows table.now.states) }
{
    let params = table.params.items();
    let rows = table.rows.items();
    let states = table.states.items();
    let parts = processes(alloc, params, inputs, rows)?;
    let made = state_choices(alloc, params, parts.items(), states)?;
    let body = Proc::If(made).within(alloc, inputs)?;
    Ok(body)
}
