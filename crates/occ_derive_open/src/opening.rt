use crate::constants::{greatest, made_constant, substituted};
use crate::layers::{Layer, Layers};
use crate::prefixing::prefix;
use crate::row::{declared, first_of};
use crate::spine::{Spine, Standing};
use crate::turning::turn_input;
use occ_derive_expose::{
    Frame, Law, Lost, Piece, Trail, alt_of, assign_of, constant, seq_of, seq_of_two, unseen, var_of,
};
use occ_syntax::{Expr, Guard, Name, Proc, Wait, Width};
use std::alloc::Global;

/// The branches of an ALT.
pub(crate) type Branches = Vec<(Guard, Proc)>;

/// A configuration that waits becomes an ALT of configurations behind constant guards: one for each value of a variable that it
/// reads and whose value isn't known, or one for each guard of its ALT that may be taken.
pub fn open(trail: &mut Trail, frame: &Frame, part: Proc) -> Result<Proc, Lost> {
    let alloc = trail.alloc();
    let mut spine = Spine::down(trail, part)?;
    match spine.layers.pop(trail) {
        None => end(trail, &spine),
        Some(Layer::Var(_, _)) => Err(Lost::NoStep),
        Some(Layer::Seq(rest)) => {
            let (head, rest) = first_of(rest)?;
            match spine.standing(&head) {
                Standing::Moves => Err(Lost::NoStep),
                Standing::Reads(name) => {
                    spine.put(trail, head, rest)?;
                    split(trail, frame, spine, name)
                }
                Standing::Chooses => {
                    let head = spine.focus(trail, head, rest)?;
                    let branches = spine.offer(trail, head)?;
                    let branches = evaluated(trail, branches)?;
                    let branches = possible(trail, branches)?;
                    let branches = inputs(trail, frame, &spine.layers, branches)?;
                    outward(trail, spine.layers, alt_of(alloc, branches)?)
                }
            }
        }
    }
}

// Nothing is left to do: the end is the one branch.
fn end(trail: &mut Trail, spine: &Spine) -> Result<Proc, Lost> {
    let alloc = trail.alloc();
    let mut branches = Vec::new(alloc);
    branches.push((unseen(), assign_of(alloc, spine.known.as_slice())?))?;
    let whole = alt_of(alloc, branches)?;
    trail.backward(Law::AltSkip, &whole)?;
    Ok(whole)
}

/// A configuration that reads a variable whose value isn't known becomes an ALT with a branch for each of its values.
fn split(trail: &mut Trail, frame: &Frame, spine: Spine, name: Name) -> Result<Proc, Lost> {
    let alloc = trail.alloc();
    let Spine { known, mut layers } = spine;
    let mut part = assign_of(alloc, known.as_slice())?;
    for _ in 0..layers.count() {
        match layers.pop(trail) {
            Some(Layer::Var(other, width)) if other == name => {
                let whole = any_value(trail, (name, width), part)?;
                let whole = known_values(trail, frame, whole)?;
                return outward(trail, layers, whole);
            }
            Some(layer) => part = layer.round(alloc, part)?,
            None => return Err(Lost::NoStep),
        }
    }
    Err(Lost::NoStep)
}

/// A declared variable for a process becomes the ALT of the process after each value of the variable.
fn any_value(trail: &mut Trail, (name, width): (Name, Width), part: Proc) -> Result<Proc, Lost> {
    let alloc = trail.alloc();
    let mut branches = Vec::new(alloc);
    for value in 0..=greatest(width) {
        let mut pairs = Vec::new(alloc);
        pairs.push((name, constant(width, value)))?;
        let first = assign_of(alloc, pairs.as_slice())?;
        let inner = seq_of_two(alloc, first, part.copy(alloc)?)?;
        branches.push((unseen(), var_of(alloc, name, width, inner)?))?;
    }
    let whole = alt_of(alloc, branches)?;
    trail.forward(Law::VarAny, &whole)?;
    Ok(whole)
}

/// In each branch the value of the declared variable is brought in to the known ones.
fn known_values(trail: &mut Trail, frame: &Frame, part: Proc) -> Result<Proc, Lost> {
    let alloc = trail.alloc();
    let mut branches = Vec::new(alloc);
    let mut place: u32 = 0;
    for (guard, part) in branches_of_alt(alloc, part)? {
        let (name, width, inner) = declared(alloc, part)?;
        trail.enter(place)?;
        trail.enter(0)?;
        let inner = prefix(trail, frame, inner)?;
        trail.leave();
        trail.leave();
        branches.push((guard, var_of(alloc, name, width, inner)?))?;
        place = place.saturating_add(1);
    }
    Ok(alt_of(alloc, branches)?)
}

pub(crate) fn branches_of_alt(alloc: Global, part: Proc) -> Result<Branches, Lost> {
    match Piece::of(alloc, part)? {
        Piece::Alt(branches) => Ok(branches),
        _ => Err(Lost::NoStep),
    }
}

impl Spine {
    /// What is known goes into each branch of the ALT behind it; under an input without the pair for its variable.
    fn offer(&self, trail: &mut Trail, head: Proc) -> Result<Branches, Lost> {
        let alloc = trail.alloc();
        let mut branches = Vec::new(alloc);
        for (guard, part) in branches_of_alt(alloc, head)? {
            let kept = self.kept_under(alloc, &guard)?;
            branches.push((
                self.known_guard(alloc, guard)?,
                seq_of_two(alloc, kept, part)?,
            ))?;
        }
        let whole = alt_of(alloc, branches)?;
        trail.forward(Law::AssignAlt, &whole)?;
        branches_of_alt(alloc, whole)
    }

    fn kept_under(&self, alloc: Global, guard: &Guard) -> Result<Proc, Lost> {
        let Wait::Get { var, .. } = &guard.wait else {
            return Ok(assign_of(alloc, self.known.as_slice())?);
        };
        let mut pairs = Vec::new(alloc);
        for (name, value) in self.known.as_slice() {
            if name != var {
                pairs.push((*name, value.copy(alloc)?))?;
            }
        }
        Ok(assign_of(alloc, pairs.as_slice())?)
    }

    fn known_guard(&self, alloc: Global, guard: Guard) -> Result<Guard, Lost> {
        let Guard { condition, wait } = guard;
        let condition = substituted(alloc, &condition, self.known.as_slice())?;
        let wait = match wait {
            Wait::Put { chan, value } => Wait::Put {
                chan,
                value: substituted(alloc, &value, self.known.as_slice())?,
            },
            other => other,
        };
        Ok(Guard { condition, wait })
    }
}

/// The conditions and values of an ALT become constants.
fn evaluated(trail: &mut Trail, branches: Branches) -> Result<Branches, Lost> {
    let alloc = trail.alloc();
    let mut is_changed = false;
    let mut constants = Vec::new(alloc);
    for (guard, part) in branches {
        let Guard { condition, wait } = guard;
        let condition = match made_constant(&condition) {
            Some(made) => {
                is_changed = true;
                made
            }
            None => condition,
        };
        let (wait, is_made) = constant_wait(wait);
        is_changed = is_changed || is_made;
        constants.push((Guard { condition, wait }, part))?;
    }
    if !is_changed {
        return Ok(constants);
    }
    let whole = alt_of(alloc, constants)?;
    trail.forward(Law::Expr, &whole)?;
    branches_of_alt(alloc, whole)
}

/// The value of an output as a constant, and whether it was none.
fn constant_wait(wait: Wait) -> (Wait, bool) {
    match wait {
        Wait::Put { chan, value } => match made_constant(&value) {
            Some(value) => (Wait::Put { chan, value }, true),
            None => (Wait::Put { chan, value }, false),
        },
        other => (other, false),
    }
}

/// The branches whose condition isn't FALSE: one after another of the others is dropped.
fn possible(trail: &mut Trail, branches: Branches) -> Result<Branches, Lost> {
    let alloc = trail.alloc();
    let mut left = branches;
    for _ in 0..left.len() {
        let Some(place) = first_false(left.as_slice()) else {
            return Ok(left);
        };
        if place < left.len() {
            let _ = left.remove(place);
        }
        let whole = alt_of(alloc, left)?;
        trail.forward(Law::AltFalse, &whole)?;
        left = branches_of_alt(alloc, whole)?;
    }
    Ok(left)
}

fn first_false(branches: &[(Guard, Proc)]) -> Option<usize> {
    for (place, (guard, _)) in branches.iter().enumerate() {
        if matches!(guard.condition, Expr::Bool(false)) {
            return Some(place);
        }
    }
    None
}

/// Each input takes in to the target of its width.
fn inputs(
    trail: &mut Trail,
    frame: &Frame,
    layers: &Layers,
    branches: Branches,
) -> Result<Branches, Lost> {
    let mut turned = branches;
    for place in 0..turned.len() {
        turned = turn_input(trail, frame, layers, turned, place)?;
    }
    Ok(turned)
}

/// What stands round an ALT goes into each of its branches, from inside out.
fn outward(trail: &mut Trail, layers: Layers, part: Proc) -> Result<Proc, Lost> {
    let mut layers = layers;
    let mut whole = part;
    for _ in 0..layers.count() {
        match layers.pop(trail) {
            Some(Layer::Seq(rest)) => whole = into_seq(trail, whole, rest)?,
            Some(Layer::Var(name, width)) => whole = into_var(trail, whole, (name, width))?,
            None => return Err(Lost::NoStep),
        }
    }
    Ok(whole)
}

/// The declaration round an ALT goes into each of its branches.
fn into_var(trail: &mut Trail, part: Proc, variable: (Name, Width)) -> Result<Proc, Lost> {
    let alloc = trail.alloc();
    let (name, width) = variable;
    let mut branches = Vec::new(alloc);
    for (guard, part) in branches_of_alt(alloc, part)? {
        branches.push((guard, var_of(alloc, name, width, part)?))?;
    }
    let whole = alt_of(alloc, branches)?;
    trail.forward(Law::VarAlt, &whole)?;
    Ok(whole)
}

fn into_seq(trail: &mut Trail, part: Proc, rest: Vec<Proc>) -> Result<Proc, Lost> {
    let alloc = trail.alloc();
    let mut branches = Vec::new(alloc);
    for (guard, part) in branches_of_alt(alloc, part)? {
        let mut parts = Vec::new(alloc);
        parts.push(part)?;
        for next in rest.as_slice() {
            parts.push(next.copy(alloc)?)?;
        }
        branches.push((guard, seq_of(alloc, parts)?))?;
    }
    let whole = alt_of(alloc, branches)?;
    trail.forward(Law::SeqAlt, &whole)?;
    Ok(whole)
}
