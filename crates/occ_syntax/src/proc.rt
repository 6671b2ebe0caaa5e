ghost use Rattle.std.specs.Prelude.{◌≡◌, ◌<◌, [], ◌∷◌, ◌++◌, ◌^◌, ◌-◌, OnOk, OnErr, IfOk, IsSome, MatchOption, length, slice_index_or, slice_set};
ghost use Rattle.occ_syntax.specs.Declarations.{IsDeclared, declaring, declaring_all};
ghost use Rattle.occ_syntax.specs.View.{tree, trees, cases, branches, in_procs, in_choices, in_alternatives};

use crate::{Expr, Exprs, Guard, Kind, NameList};
use occ_base::{Memory, Name, Width};
use std::alloc::Global;
use std::mem::replace;

/// A process.
#[derive(Debug)]
#[cycle(proc)]
pub enum Proc {
    /// Ends at once and changes nothing.
    Skip,
    /// Neither communicates nor ends.
    Stop,
    /// Evaluates all values first, and then gives them to the variables, one to each.
    Assign {
        vars: NameList,
        values: Exprs,
    },
    /// Inputs one value from a channel into a variable.
    Input {
        chan: Name,
        var: Name,
    },
    /// Outputs one value to a channel.
    Output {
        chan: Name,
        value: Expr,
    },
    /// The parts one after another.
    Seq(Procs),
    /// The parts at once. It ends when all have ended.
    Par(Procs),
    /// The first choice whose condition is true; STOP where there is none.
    If(Choices),
    /// Waits until a guard is ready, and takes one that is.
    Alt(Alternatives),
    /// A variable for one process. It begins with any value of its width.
    Var {
        name: Name,
        width: Width,
        body: Box<Proc>,
    },
    /// A channel for one process. Nothing on it reaches the outside.
    Chan {
        name: Name,
        width: Width,
        body: Box<Proc>,
    },
}

/// A list of processes.
#[derive(Debug, Drop)]
#[cycle(proc)]
pub struct Procs {
    list: Vec<Proc>,
}

/// A list of choices: conditions with their processes.
#[derive(Debug, Drop)]
#[cycle(proc)]
pub struct Choices {
    list: Vec<(Expr, Proc)>,
}

/// A list of alternatives: guards with their processes.
#[derive(Debug, Drop)]
#[cycle(proc)]
pub struct Alternatives {
    list: Vec<(Guard, Proc)>,
}

impl Drop for Proc {
    // A loop over declarations, of which there may be thousands in a row.
    fn drop(mut self) {
        loop {
            match self {
                Proc::Skip | Proc::Stop => return,
                Proc::Assign { vars: _, values: _ } => return,
                Proc::Input { chan: _, var: _ } => return,
                Proc::Output { chan: _, value: _ } => return,
                Proc::Seq(_) | Proc::Par(_) => return,
                Proc::If(_) => return,
                Proc::Alt(_) => return,
                Proc::Var {
                    name: _,
                    width: _,
                    body,
                } => self = Box::into_inner(body),
                Proc::Chan {
                    name: _,
                    width: _,
                    body,
                } => self = Box::into_inner(body),
            }
        }
    }
}

impl Proc {
    /// What a declaration governs; None where the process isn't a declaration. Whoever goes through a process takes a
    /// row of declarations by it in a loop, since there may be thousands.
    #[tactic(auto, unfolding(crate::specs::View::tree))]
    pub fn declared(&self) -> Option<(Name, Kind, &Proc)>
        ensures { IsDeclared (tree self.now) result }
    {
        match self {
            Proc::Var { name, width, body } => Some((*name, Kind::Var(*width), body)),
            Proc::Chan { name, width, body } => Some((*name, Kind::Chan(*width, None), body)),
            _ => None,
        }
    }

    /// The declaration of a name for this process. A channel is declared without a mark, whatever its kind has.
    #[tactic(auto, unfolding(crate::specs::View::tree))]
    pub fn declare(self, alloc: Global, name: Name, kind: Kind) -> Result<Proc, Memory>
        ensures { IfOk result (λ part. tree part ≡ declaring name.0 kind (tree self)) }
    {
        let body = Box::new(alloc, self)?;
        match kind {
            Kind::Var(width) => Ok(Proc::Var { name, width, body }),
            Kind::Chan(width, _) => Ok(Proc::Chan { name, width, body }),
        }
    }

    /// This process within a row of declarations, the first outermost: each name is in scope in the declarations that
    /// follow it and in the process. However long the row is, it needs no more stack.
    pub fn within(self, alloc: Global, declarations: &[(Name, Kind)]) -> Result<Proc, Memory>
        ensures { IfOk result (λ part. tree part ≡ declaring_all declarations.now (tree self)) }
    {
        let mut part = self;
        for (name, kind) in declarations.iter().rev() {
            part = part.declare(alloc, *name, *kind)?;
        }
        Ok(part)
    }
}

#[tactic(auto, unfolding(crate::specs::View::in_procs))]
impl Procs {
    /// The empty list. It takes no memory.
    pub fn new(alloc: Global) -> Procs
        ensures { in_procs result ≡ [] }
    {
        Procs {
            list: Vec::new(alloc),
        }
    }

    /// Adds a process at the end. Where memory runs out, the list is as before.
    pub fn push(&mut self, item: Proc) -> Result<(), Memory>
        ensures ok { OnOk result (in_procs self.new ≡ in_procs self.old ++ item ∷ []) }
        ensures err { OnErr result (in_procs self.new ≡ in_procs self.old) }
    {
        self.list.push(item)?;
        Ok(())
    }

    /// The processes in order. It takes no memory.
    pub fn items(&self) -> &[Proc]
        ensures { result.now ≡ in_procs self.now }
    {
        self.list.as_slice()
    }

    /// Puts a process in the place of the one that stands there, and gives that one. It takes no memory.
    pub fn exchange(&mut self, place: usize, item: Proc) -> Proc
        requires { place < length (in_procs self.old) }
        ensures taken { result ≡ slice_index_or (in_procs self.old) place result }
        ensures put { in_procs self.new ≡ slice_set (in_procs self.old) place item }
    {
        replace(&mut self.list[place], item)
    }
}

#[tactic(auto, unfolding(crate::specs::View::in_choices))]
impl Choices {
    /// The empty list. It takes no memory.
    pub fn new(alloc: Global) -> Choices
        ensures { in_choices result ≡ [] }
    {
        Choices {
            list: Vec::new(alloc),
        }
    }

    /// Adds a choice at the end. Where memory runs out, the list is as before.
    pub fn push(&mut self, item: (Expr, Proc)) -> Result<(), Memory>
        ensures ok { OnOk result (in_choices self.new ≡ in_choices self.old ++ item ∷ []) }
        ensures err { OnErr result (in_choices self.new ≡ in_choices self.old) }
    {
        self.list.push(item)?;
        Ok(())
    }

    /// The choices in order. It takes no memory.
    pub fn items(&self) -> &[(Expr, Proc)]
        ensures { result.now ≡ in_choices self.now }
    {
        self.list.as_slice()
    }

    /// Puts a choice in the place of the one that stands there, and gives that one. It takes no memory.
    pub fn exchange(&mut self, place: usize, item: (Expr, Proc)) -> (Expr, Proc)
        requires { place < length (in_choices self.old) }
        ensures taken { result ≡ slice_index_or (in_choices self.old) place result }
        ensures put { in_choices self.new ≡ slice_set (in_choices self.old) place item }
    {
        replace(&mut self.list[place], item)
    }
}

#[tactic(auto, unfolding(crate::specs::View::in_alternatives))]
impl Alternatives {
    /// The empty list. It takes no memory.
    pub fn new(alloc: Global) -> Alternatives
        ensures { in_alternatives result ≡ [] }
    {
        Alternatives {
            list: Vec::new(alloc),
        }
    }

    /// Adds an alternative at the end. Where memory runs out, the list is as before.
    pub fn push(&mut self, item: (Guard, Proc)) -> Result<(), Memory>
        ensures ok { OnOk result (in_alternatives self.new ≡ in_alternatives self.old ++ item ∷ []) }
        ensures err { OnErr result (in_alternatives self.new ≡ in_alternatives self.old) }
    {
        self.list.push(item)?;
        Ok(())
    }

    /// The alternatives in order. It takes no memory.
    pub fn items(&self) -> &[(Guard, Proc)]
        ensures { result.now ≡ in_alternatives self.now }
    {
        self.list.as_slice()
    }

    /// Puts an alternative in the place of the one that stands there, and gives that one. It takes no memory.
    pub fn exchange(&mut self, place: usize, item: (Guard, Proc)) -> (Guard, Proc)
        requires { place < length (in_alternatives self.old) }
        ensures taken { result ≡ slice_index_or (in_alternatives self.old) place result }
        ensures put { in_alternatives self.new ≡ slice_set (in_alternatives self.old) place item }
    {
        replace(&mut self.list[place], item)
    }
}
