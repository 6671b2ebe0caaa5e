ghost use Rattle.std.specs.Prelude.{◌≡◌, ◌++◌, ℕ, OnOk, IfOk};
ghost use Rattle.occ_syntax.specs.occ_base.declared.event.Dir.{Dir};
ghost use Rattle.occ_syntax.specs.Names.{is_in};
ghost use Rattle.occ_syntax.specs.Tree.{Trees};
ghost use Rattle.occ_syntax.specs.View.{numbers, tree, trees};
ghost use Rattle.occ_names.specs.Once.{has};
ghost use Rattle.occ_names.specs.Mentions.{same_end};
ghost use Rattle.occ_usage.specs.Faults.{first, variable_faults, end_faults, shared_variable, shared_end};
ghost use Rattle.occ_usage.specs.Sharing.{Shares, with_part};

use crate::UsageFault;
use crate::share::{add_ends, add_names, share_ends, share_names};
use occ_names::{EndSet, NameSet, ends, free, written};
use occ_syntax::{Dir, Memory, Name, Proc};
use std::alloc::Global;

/// What the parts of a PAR so far name, write and use, and what they share against the rule.
#[derive(Drop)]
pub struct Sharing {
    named: NameSet,
    written: NameSet,
    used: EndSet,
    shared: NameSet,
    shared_ends: EndSet,
}

impl Sharing {
    /// What these parts share.
    pub fn of(alloc: Global, parts: &[Proc]) -> Result<Sharing, Memory>
        ensures { IfOk result (λ all. Shares (trees parts.now) all.named all.written all.used all.shared all.shared_ends) }
    {
        let mut sharing = Sharing {
            named: NameSet::new(alloc),
            written: NameSet::new(alloc),
            used: EndSet::new(alloc),
            shared: NameSet::new(alloc),
            shared_ends: EndSet::new(alloc),
        };
        for part in parts {
            sharing.add(alloc, part)?;
        }
        Ok(sharing)
    }

    // Adds one part behind those so far.
    fn add(&mut self, alloc: Global, part: &Proc) -> Result<(), Memory>
        ensures { OnOk result ((ps : Trees) → Shares ps self.old.named self.old.written self.old.used self.old.shared self.old.shared_ends
            → Shares (with_part ps (tree part.now)) self.new.named self.new.written self.new.used self.new.shared self.new.shared_ends) }
    {
        let free = free(alloc, part)?;
        let written = written(alloc, part)?;
        let ends = ends(alloc, part)?;
        let named = free.as_slice();
        let set = written.as_slice();
        let used = ends.as_slice();
        share_names(&mut self.shared, named, &self.written)?;
        share_names(&mut self.shared, set, &self.named)?;
        share_ends(&mut self.shared_ends, used, &self.used)?;
        add_names(&mut self.named, named)?;
        add_names(&mut self.written, set)?;
        add_ends(&mut self.used, used)?;
        Ok(())
    }

    /// The first fault of the PAR of that number, among names in the order of their scope: a variable, or else an end.
    pub fn fault(&self, node: u32, names: &[Name]) -> Option<UsageFault>
        ensures { (ps : Trees) → Shares ps self.now.named self.now.written self.now.used self.now.shared self.now.shared_ends
            → result ≡ first (variable_faults (shared_variable ps) node (numbers names.now) ++ end_faults (shared_end ps) node (numbers names.now)) }
    {
        match shared_variable_of(&self.shared, node, names) {
            Some(fault) => Some(fault),
            None => shared_end_of(&self.shared_ends, node, names),
        }
    }
}

fn shared_variable_of(shared: &NameSet, node: u32, names: &[Name]) -> Option<UsageFault>
    ensures { result ≡ first (variable_faults (is_in shared.now) node (numbers names.now)) }
{
    for name in names {
        if shared.contains(*name) {
            return Some(UsageFault::SharedVariable { node, name: *name });
        }
    }
    None
}

fn shared_end_of(shared: &EndSet, node: u32, names: &[Name]) -> Option<UsageFault>
    ensures { result ≡ first (end_faults (λ c d. has same_end shared.now (c, d)) node (numbers names.now)) }
{
    for name in names {
        if shared.contains((*name, Dir::Input)) {
            return Some(UsageFault::SharedEnd {
                node,
                name: *name,
                dir: Dir::Input,
            });
        }
        if shared.contains((*name, Dir::Output)) {
            return Some(UsageFault::SharedEnd {
                node,
                name: *name,
                dir: Dir::Output,
            });
        }
    }
    None
}
