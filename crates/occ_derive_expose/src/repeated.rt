//! Declarations of names that are used already.

use occ_derive_trail::{NameSet, Path};
use occ_syntax::{Expr, Guard, Memory, Name, Proc};
use std::alloc::Global;

/// The names used so far, where the search stands, and the declarations found.
#[derive(Drop)]
pub(crate) struct Search {
    alloc: Global,
    pub(crate) used: NameSet,
    place: Vec<u32>,
    pub(crate) found: Vec<Path>,
}

impl Search {
    /// A search in which these names are used already.
    pub(crate) fn new(alloc: Global, taken: &[Name]) -> Result<Search, Memory> {
        let mut used = NameSet::new(alloc);
        for name in taken {
            used.insert(*name)?;
        }
        Ok(Search {
            alloc,
            used,
            place: Vec::new(alloc),
            found: Vec::new(alloc),
        })
    }

    /// Goes through a part in preorder. The declarations round a process are a loop, since there may be thousands.
    #[cycle(search)]
    pub(crate) fn part(&mut self, part: &Proc) -> Result<(), Memory> {
        let before = self.place.len();
        let mut rest = part;
        while let Some((name, _, body)) = rest.declared() {
            self.declaration(name)?;
            self.place.push(0)?;
            rest = body;
        }
        self.undeclared(rest)?;
        self.place.truncate(before);
        Ok(())
    }

    fn declaration(&mut self, name: Name) -> Result<(), Memory> {
        if !self.used.contains(name) {
            return self.used.insert(name);
        }
        let mut path = Path::new(self.alloc);
        for number in self.place.as_slice() {
            path.push(*number)?;
        }
        self.found.push(path)?;
        Ok(())
    }

    #[tactic(auto, unfolding(crate::specs::tree))]
    #[cycle(search)]
    fn undeclared(&mut self, part: &Proc) -> Result<(), Memory> {
        match part {
            Proc::Seq(parts) => self.parts(parts.items()),
            Proc::Par(parts) => self.parts(parts.items()),
            Proc::If(choices) => self.choices(choices.items()),
            Proc::Alt(alternatives) => self.alternatives(alternatives.items()),
            _ => Ok(()),
        }
    }

    #[cycle(search)]
    fn parts(&mut self, parts: &[Proc]) -> Result<(), Memory> {
        let mut number: u32 = 0;
        for part in parts {
            self.child(number, part)?;
            number = number.saturating_add(1);
        }
        Ok(())
    }

    #[cycle(search)]
    fn choices(&mut self, choices: &[(Expr, Proc)]) -> Result<(), Memory> {
        let mut number: u32 = 0;
        for choice in choices {
            self.child(number, &choice.1)?;
            number = number.saturating_add(1);
        }
        Ok(())
    }

    #[cycle(search)]
    fn alternatives(&mut self, alternatives: &[(Guard, Proc)]) -> Result<(), Memory> {
        let mut number: u32 = 0;
        for alternative in alternatives {
            self.child(number, &alternative.1)?;
            number = number.saturating_add(1);
        }
        Ok(())
    }

    #[cycle(search)]
    fn child(&mut self, number: u32, part: &Proc) -> Result<(), Memory> {
        self.place.push(number)?;
        self.part(part)?;
        let _ = self.place.pop();
        Ok(())
    }
}
