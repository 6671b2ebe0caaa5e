//! The machine: what it holds, and how that is put there and taken.

ghost use Rattle.std.specs.Prelude.{◌≡◌, ◌∷◌, ◌++◌, [], IfOk, IfSome, IfNone, suc};
ghost use Rattle.occ_derive_search.specs.Piles.{and_exp, and_part, and_wait, begun, nothing};
ghost use Rattle.occ_derive_search.specs.Seen.{held};
ghost use Rattle.occ_engine.specs.Moved.{moves_of};
ghost use Rattle.occ_syntax.specs.View.{exp, tree, waiting};

use occ_derive_moves::{Direction, Path};
use occ_engine::{Done, Dones, LawId};
use occ_syntax::{Expr, Memory, Proc, Wait};
use std::alloc::Global;
use std::mem::replace;

/// The machine that builds steps.
#[derive(Drop)]
pub(crate) struct Machine {
    pub(crate) alloc: Global,
    number: usize,
    kept: usize,
    exprs: Vec<Expr>,
    waits: Vec<Wait>,
    parts: Vec<Proc>,
    path: Path,
    steps: Dones,
}

#[tactic(auto, unfolding(crate::specs::Seen::held, crate::specs::Seen::pile))]
impl Machine {
    /// It holds nothing. It takes no memory.
    pub(crate) fn new(alloc: Global) -> Machine
        ensures { held result ≡ nothing }
    {
        Machine {
            alloc,
            number: 0,
            kept: 0,
            exprs: Vec::new(alloc),
            waits: Vec::new(alloc),
            parts: Vec::new(alloc),
            path: Path::new(alloc),
            steps: Dones::new(alloc),
        }
    }

    /// The number grows by one.
    pub(crate) fn grow(&mut self) -> Result<(), Memory>
        ensures { IfOk result (λ done. held self.new ≡ record (held self.old) { number = suc (held self.old).number }) }
    {
        let Some(number) = self.number.checked_add(1) else {
            return Err(Memory);
        };
        self.number = number;
        Ok(())
    }

    /// The number is kept, and the next one begins.
    pub(crate) fn keep(&mut self)
        ensures { held self.new ≡ record (held self.old) { number = 0; kept = (held self.old).number } }
    {
        self.kept = self.number;
        self.number = 0;
    }

    /// The kept number and the number; both begin again.
    pub(crate) fn take_numbers(&mut self) -> (usize, usize)
        ensures kept { result.0 ≡ (held self.old).kept }
        ensures number { result.1 ≡ (held self.old).number }
        ensures begun { held self.new ≡ begun (held self.old) }
    {
        let numbers = (self.kept, self.number);
        self.kept = 0;
        self.number = 0;
        numbers
    }

    /// Puts an expression on its pile.
    pub(crate) fn push_expr(&mut self, expr: Expr) -> Result<(), Memory>
        ensures { IfOk result (λ done. held self.new ≡ and_exp (exp expr) (held self.old)) }
    {
        self.exprs.push(expr)?;
        Ok(())
    }

    /// Puts a wait on its pile.
    pub(crate) fn push_wait(&mut self, wait: Wait) -> Result<(), Memory>
        ensures { IfOk result (λ done. held self.new ≡ and_wait (waiting wait) (held self.old)) }
    {
        self.waits.push(wait)?;
        Ok(())
    }

    /// Puts a part on its pile.
    pub(crate) fn push_part(&mut self, part: Proc) -> Result<(), Memory>
        ensures { IfOk result (λ done. held self.new ≡ and_part (tree part) (held self.old)) }
    {
        self.parts.push(part)?;
        Ok(())
    }

    /// Takes the last expression, if there is one.
    pub(crate) fn pop_expr(&mut self) -> Option<Expr>
        ensures last { IfSome result (λ expr. held self.old ≡ and_exp (exp expr) (held self.new)) }
        ensures none { IfNone result ((held self.old).exps ≡ []) }
    {
        self.exprs.pop()
    }

    /// Takes the last wait, if there is one.
    pub(crate) fn pop_wait(&mut self) -> Option<Wait>
        ensures last { IfSome result (λ wait. held self.old ≡ and_wait (waiting wait) (held self.new)) }
        ensures none { IfNone result ((held self.old).waits ≡ []) }
    {
        self.waits.pop()
    }

    /// Takes the last part, if there is one.
    pub(crate) fn pop_part(&mut self) -> Option<Proc>
        ensures last { IfSome result (λ part. held self.old ≡ and_part (tree part) (held self.new)) }
        ensures none { IfNone result ((held self.old).parts ≡ []) }
    {
        self.parts.pop()
    }

    /// The path of the next step goes on by the number. `Memory` comes too where that is 2^32 or more.
    pub(crate) fn enter(&mut self) -> Result<(), Memory>
        ensures { IfOk result (λ done. held self.new ≡ record (held self.old) {
          number = 0;
          kept = 0;
          path = (held self.old).path ++ (held self.old).number ∷ [];
        }) }
    {
        let Ok(number) = u32::try_from(self.number) else {
            return Err(Memory);
        };
        self.path.push(number)?;
        self.kept = 0;
        self.number = 0;
        Ok(())
    }

    /// A step on the path, which begins again.
    pub(crate) fn push_step(&mut self, law: LawId, dir: Direction, part: Proc) -> Result<(), Memory>
        ensures { IfOk result (λ done. held self.new ≡ record (held self.old) {
          path = [];
          moves = (held self.old).moves ++ record { law = law.0; dir = dir; path = (held self.old).path; part = tree part } ∷ [];
        }) }
    {
        let path = replace(&mut self.path, Path::new(self.alloc));
        self.steps.push(Done {
            law,
            dir,
            path,
            part,
        })?;
        Ok(())
    }

    /// The steps that it has built.
    pub(crate) fn into_steps(self) -> Dones
        ensures { moves_of result ≡ (held self).moves }
    {
        self.steps
    }
}
