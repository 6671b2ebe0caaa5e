ghost use Rattle.std.specs.Prelude.{◌≡◌, IfOk};
ghost use Rattle.occ_syntax.specs.Declarations.{declaring};
ghost use Rattle.occ_syntax.specs.View.{tree};

use occ_syntax::{Kind, Memory, Name, Proc};
use std::alloc::Global;

/// A declaration without the process under it.
#[derive(Clone, Copy)]
pub(crate) struct Declaration {
    pub name: Name,
    pub kind: Kind,
}

impl Declaration {
    /// A copy of a process under this declaration.
    pub fn over(self, alloc: Global, body: &Proc) -> Result<Proc, Memory>
        ensures { IfOk result (λ made. tree made ≡ declaring self.name.0 self.kind (tree body.now)) }
    {
        body.copy(alloc)?.declare(alloc, self.name, self.kind)
    }
}
