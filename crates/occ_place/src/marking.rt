ghost use Rattle.std.specs.Prelude.{◌≡◌, IfOk};

use crate::walking::Layout;
use occ_syntax::{
    Alternatives, Choices, Dir, Expr, Guard, Kind, Memory, Name, Proc, Procs, Program, Scope, Wait,
    Width,
};
use std::alloc::Global;

/// Who uses an end of a channel, and on which line.
#[derive(Clone, Copy, Debug, PartialEq, Eq)]
pub struct End {
    pub chan: Name,
    pub dir: Dir,
    pub part: usize,
    pub line: u32,
}

/// A walk that copies a program with marks: each process at which a part can stand, and each process behind a guard, is the body of a
/// channel that nothing uses, whose name is `base` and the process's number together.
#[derive(Drop)]
pub(crate) struct Marker<'l> {
    pub(crate) alloc: Global,
    pub(crate) layout: &'l Layout,
    pub(crate) base: usize,
    pub(crate) next: usize,
    pub(crate) ends: Vec<End>,
}

/// Whether a part can stand at a process.
fn is_stop(part: &Proc) -> bool {
    match part {
        Proc::Skip | Proc::Seq(_) | Proc::Par(_) | Proc::Chan { .. } => false,
        Proc::Stop | Proc::Assign { .. } | Proc::Input { .. } | Proc::Output { .. } => true,
        Proc::If(_) | Proc::Alt(_) | Proc::Var { .. } => true,
    }
}

impl<'l> Marker<'l> {
    /// The marked copy of a program.
    pub(crate) fn program(&mut self, program: &Program) -> Result<Program, Memory>
        ensures { IfOk result (λ marked. marked.params ≡ program.now.params) }
    {
        Ok(Program {
            name: program.name,
            params: program.params.copy(self.alloc)?,
            body: self.part(&program.body, false)?,
        })
    }

    fn number(&mut self) -> usize {
        let number = self.next;
        self.next = number.saturating_add(1);
        number
    }

    fn mark(&self, number: usize) -> (Name, Kind) {
        let name = Name(self.base.saturating_add(number));
        (name, Kind::Chan(Width::Bool, None))
    }

    #[cycle(mark)]
    fn part(&mut self, part: &Proc, behind: bool) -> Result<Proc, Memory> {
        let mut declarations = Scope::new(self.alloc);
        let mut rest = part;
        let mut behind = behind;
        while let Some((name, kind, body)) = rest.declared() {
            let number = self.number();
            if behind || is_stop(rest) {
                declarations.push(self.mark(number))?;
            }
            behind = false;
            declarations.push((name, kind))?;
            rest = body;
        }
        let number = self.number();
        if behind || is_stop(rest) {
            declarations.push(self.mark(number))?;
        }
        let copy = self.undeclared(rest, number)?;
        copy.within(self.alloc, declarations.items())
    }

    #[tactic(auto, unfolding(crate::specs::tree))]
    #[cycle(mark)]
    fn undeclared(&mut self, part: &Proc, number: usize) -> Result<Proc, Memory> {
        match part {
            Proc::Input { chan, .. } => self.uses(*chan, Dir::Input, number)?,
            Proc::Output { chan, .. } => self.uses(*chan, Dir::Output, number)?,
            _ => {}
        }
        match part {
            Proc::Seq(parts) => Ok(Proc::Seq(self.parts(parts.items())?)),
            Proc::Par(parts) => Ok(Proc::Par(self.parts(parts.items())?)),
            Proc::If(choices) => self.choices(choices.items()),
            Proc::Alt(alternatives) => self.alternatives(alternatives.items(), number),
            _ => part.copy(self.alloc),
        }
    }

    #[cycle(mark)]
    fn parts(&mut self, parts: &[Proc]) -> Result<Procs, Memory> {
        let mut copy = Procs::new(self.alloc);
        for part in parts {
            copy.push(self.part(part, false)?)?;
        }
        Ok(copy)
    }

    #[cycle(mark)]
    fn choices(&mut self, choices: &[(Expr, Proc)]) -> Result<Proc, Memory> {
        let mut copy = Choices::new(self.alloc);
        for (condition, part) in choices {
            copy.push((condition.copy(self.alloc)?, self.part(part, false)?))?;
        }
        Ok(Proc::If(copy))
    }

    #[cycle(mark)]
    fn alternatives(
        &mut self,
        alternatives: &[(Guard, Proc)],
        number: usize,
    ) -> Result<Proc, Memory> {
        let mut copy = Alternatives::new(self.alloc);
        for (guard, part) in alternatives {
            let line = self.layout.line_before(self.next, number);
            match &guard.wait {
                Wait::Skip => {}
                Wait::Get { chan, .. } => self.uses_on(*chan, Dir::Input, number, line)?,
                Wait::Put { chan, .. } => self.uses_on(*chan, Dir::Output, number, line)?,
            }
            copy.push((guard.copy(self.alloc)?, self.part(part, true)?))?;
        }
        Ok(Proc::Alt(copy))
    }

    fn uses(&mut self, chan: Name, dir: Dir, number: usize) -> Result<(), Memory> {
        let line = self.layout.site_at(number).line;
        self.uses_on(chan, dir, number, line)
    }

    fn uses_on(&mut self, chan: Name, dir: Dir, number: usize, line: u32) -> Result<(), Memory> {
        let part = self.layout.site_at(number).part;
        self.ends.push(End {
            chan,
            dir,
            part,
            line,
        })?;
        Ok(())
    }
}
