ghost use Rattle.std.specs.Prelude.{◌≡◌, ◌<◌, ◌^◌, [], length, true, IfOk};
ghost use Rattle.occ_syntax.specs.View.{tree};
ghost use Rattle.occ_nform_rows.specs.occ_nform_table.Tables.{IsInterface, are_params};
ghost use Rattle.occ_nform.specs.Written.{IsNormalText};
ghost use Rattle.occ_nform.specs.Counted.{HasCounts};
ghost use Rattle.occ_nform.specs.Tabled.{IsTableOf};

use crate::{Counts, bound_rows, count, table_text, tabulate, write};
use occ_nform_rows::{Table, World};
use occ_norm::{Accepted, normalise};
use occ_syntax::{Memory, Names};
use std::alloc::Global;

/// The normal text of a program: the one text that all programs with these parameters have that mean the same. Its
/// parameters are names of the table that a program can have.
pub fn normal_text(alloc: Global, names: &Names, accepted: &Accepted) -> Result<Vec<u8>, Memory>
    requires interface { IsInterface names.now accepted.now.program.params }
    requires params { are_params names.now [] accepted.now.program.params ≡ true }
    ensures { IfOk result (λ text. IsNormalText names.now accepted.now.program.params (tree accepted.now.program.body) text.items) }
{
    let mut world = World::new(alloc)?;
    let root = normalise(alloc, accepted, &mut world)?;
    write(alloc, names, world, &root)
}

/// The normal table of a program: that of its normal text.
pub fn normal_table(alloc: Global, names: &Names, accepted: &Accepted) -> Result<Table, Memory>
    requires interface { IsInterface names.now accepted.now.program.params }
    requires params { are_params names.now [] accepted.now.program.params ≡ true }
    ensures { IfOk result (λ t. IsTableOf names.now accepted.now.program.params (tree accepted.now.program.body) t) }
{
    let mut world = World::new(alloc)?;
    let root = normalise(alloc, accepted, &mut world)?;
    tabulate(alloc, names, world, &root)
}

/// The figures of the normal text of a program.
pub fn measured(alloc: Global, names: &Names, accepted: &Accepted) -> Result<Counts, Memory>
    requires interface { IsInterface names.now accepted.now.program.params }
    requires params { are_params names.now [] accepted.now.program.params ≡ true }
    ensures { IfOk result (λ counts. HasCounts names.now accepted.now.program.params (tree accepted.now.program.body) counts) }
{
    let mut world = World::new(alloc)?;
    let root = normalise(alloc, accepted, &mut world)?;
    let table = tabulate(alloc, names, world, &root)?;
    bound_rows(&table);
    let text = table_text(alloc, names, &table)?;
    bound_bytes(text.as_slice());
    count(alloc, &table)
}

// A text in memory has fewer than 2 ^ 64 bytes.
fn bound_bytes(text: &[u8])
    ensures { length text.now < 2 ^ 64 }
{
    let _bytes = text.len();
}
