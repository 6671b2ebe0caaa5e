ghost use Rattle.std.specs.Prelude.{◌≡◌, ◌++◌, OnOk, IfOk, IfNone, false};
ghost use Rattle.occ_syntax.specs.Declarations.{is_declaration};
ghost use Rattle.occ_syntax.specs.View.{numbers, tree, trees, cases, branches};
ghost use Rattle.occ_usage.specs.Faults.{after, after_all, after_cases, after_branches, faults, faults_of_all, faults_of_cases, faults_of_branches, first, variable_faults, end_faults, shared_variable, shared_end, names_of};
ghost use Rattle.occ_usage.specs.Accepted.{usage_faults};

use crate::UsageFault;
use crate::sharing::Sharing;
use occ_syntax::{Expr, Guard, Kind, Memory, Name, Proc, Program};
use std::alloc::Global;

/// The first fault of a program; None where it has none.
pub fn first_fault(alloc: Global, program: &Program) -> Result<Option<UsageFault>, Memory>
    ensures { IfOk result (λ found. found ≡ first (usage_faults program.now)) }
{
    let names = names_in(alloc, program.params.items())?;
    let mut checker = Checker {
        alloc,
        names,
        next: 0,
    };
    checker.part(&program.body)
}

/// The names of a scope, in its order.
pub fn names_in(alloc: Global, scope: &[(Name, Kind)]) -> Result<Vec<Name>, Memory>
    ensures { IfOk result (λ names. numbers names.items ≡ names_of scope.now) }
{
    let mut names = Vec::new(alloc);
    for (name, _) in scope {
        names.push(*name)?;
    }
    Ok(names)
}

// A walk over the processes of a program in preorder.
#[derive(Drop)]
struct Checker {
    alloc: Global,
    // the names in scope, from outside in
    names: Vec<Name>,
    // the number of the next process
    next: u32,
}

impl Checker {
    // The declarations round a process are a loop, since there may be thousands.
    #[cycle(check)]
    fn part(&mut self, part: &Proc) -> Result<Option<UsageFault>, Memory>
        ensures found { IfOk result (λ found. found ≡ first (faults (tree part.now) self.old.next (numbers self.old.names.items))) }
        ensures names { OnOk result (self.new.names.items ≡ self.old.names.items) }
        ensures next { IfOk result (λ found. IfNone found (self.new.next ≡ after (tree part.now) self.old.next)) }
    {
        let before = self.names.len();
        let mut rest = part;
        while let Some((name, _, body)) = rest.declared() {
            self.names.push(name)?;
            self.next = self.next.saturating_add(1);
            rest = body;
        }
        let found = self.undeclared(rest)?;
        self.names.truncate(before);
        Ok(found)
    }

    #[tactic(auto, unfolding(crate::specs::tree))]
    #[cycle(check)]
    fn undeclared(&mut self, part: &Proc) -> Result<Option<UsageFault>, Memory>
        requires { is_declaration (tree part.now) ≡ false }
        ensures found { IfOk result (λ found. found ≡ first (faults (tree part.now) self.old.next (numbers self.old.names.items))) }
        ensures names { OnOk result (self.new.names.items ≡ self.old.names.items) }
        ensures next { IfOk result (λ found. IfNone found (self.new.next ≡ after (tree part.now) self.old.next)) }
    {
        let node = self.next;
        self.next = node.saturating_add(1);
        match part {
            Proc::Skip | Proc::Stop => Ok(None),
            Proc::Assign { .. } | Proc::Input { .. } | Proc::Output { .. } => Ok(None),
            Proc::Seq(parts) => self.parts(parts.items()),
            Proc::Par(parts) => self.parallel(node, parts.items()),
            Proc::If(choices) => self.choices(choices.items()),
            Proc::Alt(alternatives) => self.alternatives(alternatives.items()),
            Proc::Var { .. } | Proc::Chan { .. } => unreachable!(),
        }
    }

    // The parts of the PAR of that number, after what they share.
    #[cycle(check)]
    fn parallel(&mut self, node: u32, parts: &[Proc]) -> Result<Option<UsageFault>, Memory>
        ensures found { IfOk result (λ found. found ≡ first ((variable_faults (shared_variable (trees parts.now)) node (numbers self.old.names.items)
            ++ end_faults (shared_end (trees parts.now)) node (numbers self.old.names.items))
            ++ faults_of_all (trees parts.now) self.old.next (numbers self.old.names.items))) }
        ensures names { OnOk result (self.new.names.items ≡ self.old.names.items) }
        ensures next { IfOk result (λ found. IfNone found (self.new.next ≡ after_all (trees parts.now) self.old.next)) }
    {
        let sharing = Sharing::of(self.alloc, parts)?;
        if let Some(fault) = sharing.fault(node, self.names.as_slice()) {
            return Ok(Some(fault));
        }
        self.parts(parts)
    }

    #[cycle(check)]
    fn parts(&mut self, parts: &[Proc]) -> Result<Option<UsageFault>, Memory>
        ensures found { IfOk result (λ found. found ≡ first (faults_of_all (trees parts.now) self.old.next (numbers self.old.names.items))) }
        ensures names { OnOk result (self.new.names.items ≡ self.old.names.items) }
        ensures next { IfOk result (λ found. IfNone found (self.new.next ≡ after_all (trees parts.now) self.old.next)) }
    {
        for part in parts {
            if let Some(fault) = self.part(part)? {
                return Ok(Some(fault));
            }
        }
        Ok(None)
    }

    #[cycle(check)]
    fn choices(&mut self, choices: &[(Expr, Proc)]) -> Result<Option<UsageFault>, Memory>
        ensures found { IfOk result (λ found. found ≡ first (faults_of_cases (cases choices.now) self.old.next (numbers self.old.names.items))) }
        ensures names { OnOk result (self.new.names.items ≡ self.old.names.items) }
        ensures next { IfOk result (λ found. IfNone found (self.new.next ≡ after_cases (cases choices.now) self.old.next)) }
    {
        for (_, part) in choices {
            if let Some(fault) = self.part(part)? {
                return Ok(Some(fault));
            }
        }
        Ok(None)
    }

    #[cycle(check)]
    fn alternatives(&mut self, alternatives: &[(Guard, Proc)]) -> Result<Option<UsageFault>, Memory>
        ensures found { IfOk result (λ found. found ≡ first (faults_of_branches (branches alternatives.now) self.old.next (numbers self.old.names.items))) }
        ensures names { OnOk result (self.new.names.items ≡ self.old.names.items) }
        ensures next { IfOk result (λ found. IfNone found (self.new.next ≡ after_branches (branches alternatives.now) self.old.next)) }
    {
        for (_, part) in alternatives {
            if let Some(fault) = self.part(part)? {
                return Ok(Some(fault));
            }
        }
        Ok(None)
    }
}
