//! The normal program of a table.

ghost use Rattle.std.specs.Prelude.{◌≡◌, ◌≤◌, IfErr, IfOk, OnOk};
ghost use Rattle.occ_nform_table.specs.Tables.{IsNormal};
ghost use Rattle.occ_syntax.specs.Counts.{controls};
ghost use Rattle.occ_syntax.specs.View.{tree};
ghost use Rattle.occ_target.specs.Inputs.{input_names};
ghost use Rattle.occ_target.specs.Program.{normal_body};
ghost use Rattle.occ_target.specs.Refused.{IsRefused};

use crate::TargetFault;
use crate::count::table_size;
use crate::inputs::input_variables;
use crate::program::body_over;
use occ_nform_table::Table;
use occ_syntax::{Names, Program};
use occ_usage::Accepted;
use std::alloc::Global;

/// The most controls of a program.
const MOST_CONTROLS: u64 = 4_096;

/// The normal program of an accepted program, whose normal table is given: it has its header, and the table says its behaviours. The
/// names of the variables into which it inputs are in the table of names afterwards. `Long` comes exactly where it would have more than
/// 4,096 controls; it isn't built before they are counted, and the names stay as they are.
pub fn target(
    alloc: Global,
    names: &mut Names,
    accepted: &Accepted,
    table: &Table,
) -> Result<Program, TargetFault>
    requires params { table.now.params ≡ accepted.now.program.params }
    requires normal { IsNormal (record { names = names.old; params = table.now.params; rows = table.now.rows; states = table.now.states }) }
    ensures name { IfOk result (λ program. program.name ≡ accepted.now.program.name) }
    ensures params { IfOk result (λ program. program.params ≡ accepted.now.program.params) }
    ensures body { IfOk result (λ program. tree program.body ≡ normal_body names.old table.now.params table.now.rows table.now.states) }
    ensures names { OnOk result (names.new ≡ input_names names.old table.now.params) }
    ensures fits { OnOk result (controls (normal_body names.old table.now.params table.now.rows table.now.states) ≤ 4096) }
    ensures refused { IfErr result (IsRefused
        (normal_body names.old table.now.params table.now.rows table.now.states) names.old names.new) }
{
    let size = table_size(alloc, names, table)?;
    if size > MOST_CONTROLS {
        return Err(TargetFault::Long);
    }
    let params = table.params.items();
    let inputs = input_variables(alloc, names, params)?;
    let body = body_over(alloc, inputs.items(), table)?;
    let program = accepted.program();
    Ok(Program {
        name: program.name,
        params: program.params.copy(alloc)?,
        body,
    })
}
