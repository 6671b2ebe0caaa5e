use crate::constants::Pairs;
use crate::joining::join_pairs;
use crate::layers::Layers;
use crate::opening::{Branches, branches_of_alt};
use crate::row::{declared, first_of, flatten, group, two_of_seq};
use occ_derive_expose::{
    Frame, Law, Lost, Piece, Trail, alt_of, assign_of, constant, seq_of_two, var_of,
};
use occ_syntax::{Expr, Guard, Name, Proc, Wait, Width};
use std::alloc::Global;

/// What one input is about: its channel, its variable with the width, the target of that width, and a name that stands nowhere.
#[derive(Clone, Copy)]
struct Turning {
    chan: Name,
    var: Name,
    width: Width,
    target: Name,
    spare: Name,
}

/// The branch at a place of an ALT, where it is an input behind which a configuration without its variable stands, becomes the input
/// into the target of its width behind which the variable has the target's value.
pub(crate) fn turn_input(
    trail: &mut Trail,
    frame: &Frame,
    layers: &Layers,
    branches: Branches,
    place: usize,
) -> Result<Branches, Lost> {
    let Some((chan, var)) = input_at(branches.as_slice(), place) else {
        return Ok(branches);
    };
    let width = match frame.width_of(var) {
        Some(width) => width,
        None => match layers.width_of(var) {
            Some(width) => width,
            None => return Err(Lost::NoStep),
        },
    };
    let Some(target) = frame.target(width) else {
        return Err(Lost::NoStep);
    };
    let turning = Turning {
        chan,
        var,
        width,
        target,
        spare: frame.spare,
    };
    turning.turn(trail, frame, branches, place)
}

/// The channel and the variable of the input at a place.
fn input_at(branches: &[(Guard, Proc)], place: usize) -> Option<(Name, Name)> {
    let (guard, _) = branches.get(place)?;
    match &guard.wait {
        Wait::Get { chan, var } => Some((*chan, *var)),
        Wait::Skip | Wait::Put { .. } => None,
    }
}

impl Turning {
    fn turn(
        self,
        trail: &mut Trail,
        frame: &Frame,
        branches: Branches,
        place: usize,
    ) -> Result<Branches, Lost> {
        let whole = self.declare(trail.alloc(), branches)?;
        trail.backward(Law::VarUnused, &whole)?;
        let whole = self.into_spare(trail, whole, place)?;
        let whole = self.into_target(trail, frame, whole, place)?;
        let branches = self.undeclare(trail.alloc(), whole)?;
        let whole = alt_of(trail.alloc(), branches)?;
        trail.forward(Law::VarUnused, &whole)?;
        branches_of_alt(trail.alloc(), whole)
    }

    fn declare(self, alloc: Global, branches: Branches) -> Result<Proc, Lost> {
        let inner = alt_of(alloc, branches)?;
        Ok(var_of(alloc, self.spare, self.width, inner)?)
    }

    fn undeclare(self, alloc: Global, whole: Proc) -> Result<Branches, Lost> {
        let (_, _, inner) = declared(alloc, whole)?;
        branches_of_alt(alloc, inner)
    }

    fn guard(self, condition: Expr, var: Name) -> Guard {
        let chan = self.chan;
        Guard {
            condition,
            wait: Wait::Get { chan, var },
        }
    }

    /// The input takes in to the spare variable, which is then assigned.
    fn into_spare(self, trail: &mut Trail, whole: Proc, place: usize) -> Result<Proc, Lost> {
        let alloc = trail.alloc();
        let mut branches = self.undeclare(alloc, whole)?;
        let (guard, part) = taken(&mut branches, place)?;
        let mut pairs = Vec::new(alloc);
        pairs.push((self.var, Expr::Var(self.spare)))?;
        let first = assign_of(alloc, pairs.as_slice())?;
        let part = seq_of_two(alloc, first, part)?;
        let guard = self.guard(guard.condition, self.spare);
        put(&mut branches, place, (guard, part))?;
        let whole = self.declare(alloc, branches)?;
        trail.forward(Law::VarAlt, &whole)?;
        Ok(whole)
    }

    /// The input takes in to the target.
    fn into_target(
        self,
        trail: &mut Trail,
        frame: &Frame,
        whole: Proc,
        place: usize,
    ) -> Result<Proc, Lost> {
        let alloc = trail.alloc();
        let mut branches = self.undeclare(alloc, whole)?;
        let (guard, part) = taken(&mut branches, place)?;
        let Ok(number) = u32::try_from(place) else {
            return Err(Lost::NoStep);
        };
        trail.enter(0)?;
        trail.enter(number)?;
        let part = self.retarget(trail, frame, part)?;
        trail.leave();
        trail.leave();
        let guard = self.guard(guard.condition, self.target);
        put(&mut branches, place, (guard, part))?;
        let whole = self.declare(alloc, branches)?;
        trail.backward(Law::VarAlt, &whole)?;
        Ok(whole)
    }

    /// The assignment of the spare variable to the input's, in front of a configuration without this, becomes one to the target, which
    /// is given up, in front of the configuration that has the target's value for the input's variable.
    fn retarget(self, trail: &mut Trail, frame: &Frame, part: Proc) -> Result<Proc, Lost> {
        let alloc = trail.alloc();
        let (first, inner) = two_of_seq(alloc, part)?;
        let (known, rest) = two_of_seq(alloc, inner)?;
        let mut parts = Vec::new(alloc);
        parts.push(known)?;
        parts.push(rest)?;
        let (first, parts) = flatten(trail, first, parts)?;
        let (known, parts) = first_of(parts)?;
        let (first, known, parts) = group(trail, first, known, parts)?;
        trail.enter(0)?;
        let known = self.exchange(trail, frame, first, known)?;
        trail.leave();
        let (target, rest) = self.apart(trail, known, parts)?;
        let (known, rest) = first_of(rest)?;
        let (rest, _) = first_of(rest)?;
        let inner = seq_of_two(alloc, known, rest)?;
        let whole = seq_of_two(alloc, target, inner)?;
        trail.backward(Law::SeqFlat, &whole)?;
        let (_, inner) = two_of_seq(alloc, whole)?;
        Ok(inner)
    }

    // The assignment to the target, and what follows, in one SEQ.
    fn apart(
        self,
        trail: &mut Trail,
        known: Proc,
        parts: Vec<Proc>,
    ) -> Result<(Proc, Vec<Proc>), Lost> {
        let alloc = trail.alloc();
        let mut pairs = Vec::new(alloc);
        pairs.push((self.target, Expr::Var(self.spare)))?;
        let target = assign_of(alloc, pairs.as_slice())?;
        let mut rest = parts;
        rest.insert(0, known)?;
        flatten(trail, target, rest)
    }

    /// A SEQ of the assignment of the spare variable and one of what is known becomes a SEQ of the assignment to the target and one of
    /// what is known, with the target's value for the input's variable; the second is given.
    fn exchange(
        self,
        trail: &mut Trail,
        frame: &Frame,
        first: Proc,
        known: Proc,
    ) -> Result<Proc, Lost> {
        let alloc = trail.alloc();
        let Piece::Assign(first) = Piece::of(alloc, first)? else {
            return Err(Lost::NoStep);
        };
        let Piece::Assign(known) = Piece::of(alloc, known)? else {
            return Err(Lost::NoStep);
        };
        let joined = join_pairs(trail, frame, first, known)?;
        let kept = self.kept(alloc, joined.as_slice())?;
        let front = self.front(alloc, joined.as_slice())?;
        let known = assign_of(alloc, kept.as_slice())?;
        let whole = seq_of_two(alloc, assign_of(alloc, front.as_slice())?, known)?;
        trail.backward(Law::AssignJoin, &whole)?;
        trail.enter(0)?;
        self.narrow(trail, front.as_slice())?;
        trail.leave();
        let (_, known) = two_of_seq(alloc, whole)?;
        Ok(known)
    }

    /// What is known, with the target's value for the input's variable, and none for the target.
    fn kept(self, alloc: Global, joined: &[(Name, Expr)]) -> Result<Pairs, Lost> {
        let mut pairs = Vec::new(alloc);
        for (name, value) in joined {
            let value = if *name == self.var {
                Expr::Var(self.target)
            } else if *name == self.target {
                constant(self.width, 0)
            } else {
                value.copy(alloc)?
            };
            pairs.push((*name, value))?;
        }
        Ok(pairs)
    }

    /// The target gets the value of the spare variable, and all others keep theirs.
    fn front(self, alloc: Global, joined: &[(Name, Expr)]) -> Result<Pairs, Lost> {
        let mut pairs = Vec::new(alloc);
        for (name, _) in joined {
            let value = if *name == self.target {
                self.spare
            } else {
                *name
            };
            pairs.push((*name, Expr::Var(value)))?;
        }
        Ok(pairs)
    }

    /// Of that assignment the pair of the target alone is left.
    fn narrow(self, trail: &mut Trail, front: &[(Name, Expr)]) -> Result<(), Lost> {
        let alloc = trail.alloc();
        let mut pairs = Vec::new(alloc);
        pairs.push((self.target, Expr::Var(self.spare)))?;
        for (name, value) in front {
            if *name != self.target {
                pairs.push((*name, value.copy(alloc)?))?;
            }
        }
        if !self.leads(front) {
            trail.forward(Law::AssignOrder, &assign_of(alloc, pairs.as_slice())?)?;
        }
        for _ in 1..pairs.len() {
            let _ = pairs.pop();
            trail.backward(Law::AssignPad, &assign_of(alloc, pairs.as_slice())?)?;
        }
        Ok(())
    }

    fn leads(self, pairs: &[(Name, Expr)]) -> bool {
        match pairs.first() {
            Some((name, _)) => *name == self.target,
            None => false,
        }
    }
}

fn taken(branches: &mut Branches, place: usize) -> Result<(Guard, Proc), Lost> {
    if place < branches.len() {
        return Ok(branches.remove(place));
    }
    Err(Lost::NoStep)
}

fn put(branches: &mut Branches, place: usize, branch: (Guard, Proc)) -> Result<(), Lost> {
    if place <= branches.len() {
        branches.insert(place, branch)?;
        return Ok(());
    }
    Err(Lost::NoStep)
}
