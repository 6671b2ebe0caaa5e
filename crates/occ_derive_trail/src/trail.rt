use crate::Lost;
use occ_script_write::{Direction, Done, Law, Path};
use occ_syntax::{List, Memory, Proc};
use std::alloc::Global;

/// Steps in order.
pub type Dones = List<Done>;

/// The steps that a strategy has proposed so far, and the place of the part on which it works now.
#[derive(Drop)]
pub struct Trail {
    alloc: Global,
    steps: Dones,
    place: Vec<u32>,
}

impl Trail {
    /// No steps, at the whole.
    pub fn new(alloc: Global) -> Trail {
        Trail {
            alloc,
            steps: Dones::new(alloc),
            place: Vec::new(alloc),
        }
    }

    /// The allocator.
    pub fn alloc(&self) -> Global {
        self.alloc
    }

    /// Goes on with the part of that number in the present one.
    pub fn enter(&mut self, number: u32) -> Result<(), Memory> {
        self.place.push(number)?;
        Ok(())
    }

    /// Goes back to the part round the present one.
    pub fn leave(&mut self) {
        let _ = self.place.pop();
    }

    /// A law used forward: it makes the present part this one.
    pub fn forward(&mut self, law: Law, part: &Proc) -> Result<(), Lost> {
        self.step(law, Direction::Forward, part)
    }

    /// A law used backward: it makes the present part this one.
    pub fn backward(&mut self, law: Law, part: &Proc) -> Result<(), Lost> {
        self.step(law, Direction::Backward, part)
    }

    fn step(&mut self, law: Law, dir: Direction, part: &Proc) -> Result<(), Lost> {
        let path = copied(self.alloc, self.place.as_slice())?;
        let part = part.copy(self.alloc)?;
        self.steps.push(Done {
            law: law.id(),
            dir,
            path,
            part,
        })?;
        Ok(())
    }

    /// All steps.
    pub fn into_steps(self) -> Dones {
        self.steps
    }
}

/// The path of these numbers.
fn copied(alloc: Global, place: &[u32]) -> Result<Path, Memory> {
    let mut path = Path::new(alloc);
    for number in place {
        path.push(*number)?;
    }
    Ok(path)
}
