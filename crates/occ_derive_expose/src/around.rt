use occ_derive_trail::Trail;
use occ_syntax::{Guard, Memory, Name, Proc, Width};
use std::alloc::Global;

/// How a part stands.
#[derive(Drop)]
pub(crate) enum Turn {
    /// It is to be worked.
    Work(Proc),
    /// It has its head form.
    Head(Proc),
}

/// What stands directly round the part that is worked.
#[derive(Drop)]
pub(crate) enum Around {
    /// A SEQ, in which these follow the part.
    Before(Vec<Proc>),
    /// The declaration of a channel.
    Hidden(Name, Width),
    /// A PAR of the part and this one.
    First(Proc),
    /// A PAR of an ALT with these branches and the part.
    Second(Vec<(Guard, Proc)>),
}

/// All that stands round the part that is worked, from outside in.
#[derive(Drop)]
pub(crate) struct Rounds {
    rounds: Vec<Around>,
}

impl Rounds {
    /// Nothing.
    pub(crate) fn new(alloc: Global) -> Rounds {
        Rounds {
            rounds: Vec::new(alloc),
        }
    }

    /// Goes on with the part of that number.
    pub(crate) fn enter(
        &mut self,
        trail: &mut Trail,
        number: u32,
        next: Around,
    ) -> Result<(), Memory> {
        trail.enter(number)?;
        self.rounds.push(next)?;
        Ok(())
    }

    /// Goes back to what stands directly round; None at the whole.
    pub(crate) fn leave(&mut self, trail: &mut Trail) -> Option<Around> {
        match self.rounds.pop() {
            Some(next) => {
                trail.leave();
                Some(next)
            }
            None => None,
        }
    }
}
