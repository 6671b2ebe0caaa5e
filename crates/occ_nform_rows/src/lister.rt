ghost use Rattle.std.specs.Prelude.{◌≡◌, ◌≤◌, true};
ghost use Rattle.occ_syntax.specs.Counts.{bits_of_scope};
ghost use Rattle.occ_syntax.specs.Types.{scope_kept};

use occ_syntax::{Kind, Name};
use std::alloc::Global;

/// Lists the rows of nodes over some parameters, of which no name stands twice and whose variables have at most 16 bits.
#[derive(Clone, Copy)]
pub struct Lister<'a> {
    /// Where memory comes from.
    pub alloc: Global,
    /// The parameters.
    pub params: &'a [(Name, Kind)],
    pub ghost few: { bits_of_scope params.now ≤ 16 },
    pub ghost kept: { scope_kept params.now ≡ true },
}
