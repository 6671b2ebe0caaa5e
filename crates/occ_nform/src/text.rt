ghost use Rattle.std.specs.Prelude.{◌≡◌, ◌<◌, ◌^◌, [], true, length, IfOk};
ghost use Rattle.occ_syntax.specs.occ_base.Names.{IsDistinct};
ghost use Rattle.occ_syntax.specs.Tree.{Tree};
ghost use Rattle.occ_nform_rows.specs.occ_compare.Interface.{HasNodes, IsOfInterface};
ghost use Rattle.occ_nform_rows.specs.occ_nform_table.Tables.{are_params, IsInterface};
ghost use Rattle.occ_nform_rows.specs.occ_nform_table.Texts.{table_text};
ghost use Rattle.occ_nform.specs.Lines.{RowsAreNamed};
ghost use Rattle.occ_nform.specs.Written.{IsNormalText, IsRootOf};

use crate::lines::{push_params, push_rows, push_states};
use crate::tabulate;
use occ_nform_rows::{Root, Table, World};
use occ_syntax::{Memory, Names};
use std::alloc::Global;

/// The text of a table: the version, a PARAM line for each parameter, the rows and the STATE lines. All that is named in it has a name in
/// the table of names.
pub fn table_text(alloc: Global, names: &Names, table: &Table) -> Result<Vec<u8>, Memory>
    requires interface { IsInterface names.now table.now.params }
    requires rows { RowsAreNamed names.now table.now.rows }
    ensures text { IfOk result (λ text. text.items ≡ table_text names.now table.now.params table.now.rows table.now.states) }
    ensures distinct { IfOk result (λ text. 0 < length table.now.params → IsDistinct names.now) }
{
    let params = table.params.items();
    let mut text = Vec::new(alloc);
    text.extend_from_slice(b"occam-normal 1\n")?;
    push_params(&mut text, names, params)?;
    push_rows(alloc, &mut text, names, table.rows.items())?;
    push_states(alloc, &mut text, params, table.states.items())?;
    Ok(text)
}

/// The normal text of each program whose behaviours the root has: the text of the root's normal table. The world is given up.
pub fn write(alloc: Global, names: &Names, world: World, root: &Root) -> Result<Vec<u8>, Memory>
    requires interface { IsInterface names.now root.now.params }
    requires params { are_params names.now [] root.now.params ≡ true }
    requires nodes { HasNodes world root.now.states }
    requires within { IsOfInterface world root.now }
    ensures { IfOk result (λ text. (p : Tree) → IsRootOf world root.now.params p root.now.states
        → IsNormalText names.now root.now.params p text.items) }
{
    let table = tabulate(alloc, names, world, root)?;
    bound_rows(&table);
    table_text(alloc, names, &table)
}

/// A table in memory has fewer than 2 ^ 64 rows.
pub fn bound_rows(table: &Table)
    ensures { length table.now.rows < 2 ^ 64 }
{
    let _count = table.rows.items().len();
}
