use crate::constants::{Pairs, first_unknown, value_in};
use crate::layers::{Layer, Layers};
use crate::row::first_of;
use occ_derive_expose::{Lost, Piece, Trail, assign_of};
use occ_syntax::{Expr, Guard, Name, Proc, Wait};

/// A configuration taken apart: what is known of the state, and what stands round the assignment that says it.
#[derive(Drop)]
pub(crate) struct Spine {
    pub(crate) known: Pairs,
    pub(crate) layers: Layers,
}

/// What the first thing to do in a configuration waits for.
#[derive(Clone, Copy)]
pub(crate) enum Standing {
    /// Nothing: there is a step.
    Moves,
    /// It reads a variable whose value isn't known.
    Reads(Name),
    /// It is an ALT: one of its guards.
    Chooses,
}

impl Spine {
    /// A configuration taken apart; the trail goes to its assignment.
    pub(crate) fn down(trail: &mut Trail, part: Proc) -> Result<Spine, Lost> {
        let alloc = trail.alloc();
        let mut layers = Layers::new(alloc);
        let mut rest = part;
        // Each turn takes a layer off.
        for _ in 0..u64::MAX {
            match Piece::of(alloc, rest)? {
                Piece::Assign(known) => return Ok(Spine { known, layers }),
                Piece::Skip => {
                    let known = Vec::new(alloc);
                    return Ok(Spine { known, layers });
                }
                Piece::Seq(parts) => {
                    let (first, parts) = first_of(parts)?;
                    layers.push(trail, Layer::Seq(parts))?;
                    rest = first;
                }
                Piece::Var(name, width, body) => {
                    layers.push(trail, Layer::Var(name, width))?;
                    rest = body;
                }
                _ => return Err(Lost::NoStep),
            }
        }
        Err(Lost::NoStep)
    }

    /// The configuration put together; the trail goes back to it.
    pub(crate) fn close(self, trail: &mut Trail) -> Result<Proc, Lost> {
        let Spine { known, layers } = self;
        let inner = assign_of(trail.alloc(), known.as_slice())?;
        layers.close(trail, inner)
    }

    /// What the first thing to do waits for.
    pub(crate) fn standing(&self, head: &Proc) -> Standing {
        match head {
            Proc::Assign { values, .. } => match self.unknown_of(values.items()) {
                Some(name) => Standing::Reads(name),
                None => Standing::Moves,
            },
            Proc::If(choices) => match self.unknown_to_decide(choices.items()) {
                Some(name) => Standing::Reads(name),
                None => Standing::Moves,
            },
            Proc::Alt(alternatives) => match self.unknown_of_guards(alternatives.items()) {
                Some(name) => Standing::Reads(name),
                None => Standing::Chooses,
            },
            Proc::Skip
            | Proc::Stop
            | Proc::Input { .. }
            | Proc::Output { .. }
            | Proc::Seq(_)
            | Proc::Par(_)
            | Proc::Var { .. }
            | Proc::Chan { .. } => Standing::Moves,
        }
    }

    fn unknown_of(&self, values: &[Expr]) -> Option<Name> {
        for value in values {
            if let Some(name) = first_unknown(value, self.known.as_slice()) {
                return Some(name);
            }
        }
        None
    }

    // Conditions behind the first that is TRUE aren't read.
    fn unknown_to_decide(&self, choices: &[(Expr, Proc)]) -> Option<Name> {
        for (condition, _) in choices {
            if let Some(name) = first_unknown(condition, self.known.as_slice()) {
                return Some(name);
            }
            if self.holds(condition) {
                return None;
            }
        }
        None
    }

    fn unknown_of_guards(&self, alternatives: &[(Guard, Proc)]) -> Option<Name> {
        for (guard, _) in alternatives {
            if let Some(name) = self.unknown_of_guard(guard) {
                return Some(name);
            }
        }
        None
    }

    fn unknown_of_guard(&self, guard: &Guard) -> Option<Name> {
        if let Some(name) = first_unknown(&guard.condition, self.known.as_slice()) {
            return Some(name);
        }
        match &guard.wait {
            Wait::Put { value, .. } => first_unknown(value, self.known.as_slice()),
            Wait::Skip | Wait::Get { .. } => None,
        }
    }

    /// Whether a condition is TRUE in what is known.
    pub(crate) fn holds(&self, condition: &Expr) -> bool {
        match value_in(condition, self.known.as_slice()) {
            Some((_, value)) => value != 0,
            None => false,
        }
    }

    /// The place of the first choice whose condition is TRUE; how many they are where there is none.
    pub(crate) fn chosen(&self, choices: &[(Expr, Proc)]) -> usize {
        for (place, (condition, _)) in choices.iter().enumerate() {
            if self.holds(condition) {
                return place;
            }
        }
        choices.len()
    }
}
