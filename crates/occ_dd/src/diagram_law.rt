ghost use Rattle.occ_dd.specs.Diagram.{IsCanonical};
ghost use Rattle.occ_dd.specs.Table.{nodes_of};

use crate::{Label, Table};

/// Equal functions have equal numbers in every table (Bryant 1986).
pub fn functions_have_one_number<T: Label>(_table: &Table<T>)
    ensures { IsCanonical (nodes_of _table.now) }
{}
