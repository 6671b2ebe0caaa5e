//! Names that stand nowhere yet.

ghost use Rattle.std.specs.Prelude.{◌≡◌, true};
ghost use Rattle.occ_derive_trail.specs.occ_lex.Growth.{GrowsByNames};
ghost use Rattle.occ_derive_trail.specs.occ_lex.Spelling.{is_letter};

use occ_derive_trail::{Lost, NameSet, numbered};
use occ_syntax::{Kind, Name, Names};
use std::alloc::Global;

/// The names that are used, and the number of the name that was made last.
#[derive(Drop)]
pub(crate) struct Fresh {
    used: NameSet,
    number: u64,
}

impl Fresh {
    /// Before any name was made.
    pub(crate) fn new(used: NameSet) -> Fresh {
        Fresh { used, number: 1 }
    }

    /// A name for a thing of that kind, which is used nowhere.
    #[tactic(auto, using(crate::proofs::grows_not, crate::proofs::grows_on))]
    pub(crate) fn name(
        &mut self,
        alloc: Global,
        names: &mut Names,
        kind: Kind,
    ) -> Result<Name, Lost>
        ensures { GrowsByNames names.old names.new }
    {
        for number in self.number..u64::MAX {
            let name = numbered(alloc, names, letter(kind), number)?;
            if !self.used.contains(name) {
                self.number = number;
                self.used.insert(name)?;
                return Ok(name);
            }
        }
        Err(Lost::NoStep)
    }
}

fn letter(kind: Kind) -> u8
    ensures { is_letter result ≡ true }
{
    match kind {
        Kind::Var(_) => b'v',
        Kind::Chan(_, _) => b'c',
    }
}
