ghost use Rattle.std.specs.Prelude.{◌≡◌, IfOk, false};
ghost use Rattle.occ_syntax.specs.Declarations.{is_declaration};
ghost use Rattle.occ_syntax.specs.View.{tree, trees, cases, branches, in_procs, in_choices, in_alternatives};

use crate::{Alternatives, Choices, Proc, Procs, Program, Scope};
use occ_base::Memory;
use std::alloc::Global;

impl Proc {
    /// The same process.
    #[cycle(copy)]
    pub fn copy(&self, alloc: Global) -> Result<Proc, Memory>
        ensures { IfOk result (λ copy. tree copy ≡ tree self.now) }
    {
        let mut declarations = Scope::new(alloc);
        let mut rest = self;
        while let Some((name, kind, body)) = rest.declared() {
            declarations.push((name, kind))?;
            rest = body;
        }
        let copy = rest.copy_undeclared(alloc)?;
        copy.within(alloc, declarations.items())
    }

    #[tactic(auto, unfolding(crate::specs::View::tree))]
    #[cycle(copy)]
    fn copy_undeclared(&self, alloc: Global) -> Result<Proc, Memory>
        requires { is_declaration (tree self.now) ≡ false }
        ensures { IfOk result (λ copy. tree copy ≡ tree self.now) }
    {
        match self {
            Proc::Skip => Ok(Proc::Skip),
            Proc::Stop => Ok(Proc::Stop),
            Proc::Assign { vars, values } => Ok(Proc::Assign {
                vars: vars.copy(alloc)?,
                values: values.copy(alloc)?,
            }),
            Proc::Input { chan, var } => Ok(Proc::Input {
                chan: *chan,
                var: *var,
            }),
            Proc::Output { chan, value } => Ok(Proc::Output {
                chan: *chan,
                value: value.copy(alloc)?,
            }),
            Proc::Seq(parts) => Ok(Proc::Seq(parts.copy(alloc)?)),
            Proc::Par(parts) => Ok(Proc::Par(parts.copy(alloc)?)),
            Proc::If(choices) => Ok(Proc::If(choices.copy(alloc)?)),
            Proc::Alt(alternatives) => Ok(Proc::Alt(alternatives.copy(alloc)?)),
            Proc::Var { .. } | Proc::Chan { .. } => unreachable!(),
        }
    }
}

impl Procs {
    /// The list of the same processes.
    #[cycle(copy)]
    pub fn copy(&self, alloc: Global) -> Result<Procs, Memory>
        ensures { IfOk result (λ copy. trees (in_procs copy) ≡ trees (in_procs self.now)) }
    {
        let mut copy = Procs::new(alloc);
        for part in self.items() {
            copy.push(part.copy(alloc)?)?;
        }
        Ok(copy)
    }
}

impl Choices {
    /// The list of the same choices.
    #[cycle(copy)]
    pub fn copy(&self, alloc: Global) -> Result<Choices, Memory>
        ensures { IfOk result (λ copy. cases (in_choices copy) ≡ cases (in_choices self.now)) }
    {
        let mut copy = Choices::new(alloc);
        for (condition, part) in self.items() {
            copy.push((condition.copy(alloc)?, part.copy(alloc)?))?;
        }
        Ok(copy)
    }
}

impl Alternatives {
    /// The list of the same alternatives.
    #[cycle(copy)]
    pub fn copy(&self, alloc: Global) -> Result<Alternatives, Memory>
        ensures { IfOk result (λ copy. branches (in_alternatives copy) ≡ branches (in_alternatives self.now)) }
    {
        let mut copy = Alternatives::new(alloc);
        for (guard, part) in self.items() {
            copy.push((guard.copy(alloc)?, part.copy(alloc)?))?;
        }
        Ok(copy)
    }
}

impl Program {
    /// The same program.
    pub fn copy(&self, alloc: Global) -> Result<Program, Memory>
        ensures name { IfOk result (λ copy. copy.name ≡ self.now.name) }
        ensures params { IfOk result (λ copy. copy.params ≡ self.now.params) }
        ensures body { IfOk result (λ copy. tree copy.body ≡ tree self.now.body) }
    {
        Ok(Program {
            name: self.name,
            params: self.params.copy(alloc)?,
            body: self.body.copy(alloc)?,
        })
    }
}
