use crate::constants::{Pairs, held, substituted};
use crate::joining::join_pairs;
use crate::layers::Layer;
use crate::row::{
    MOST, choices_of_if, declared, first_of, flatten, into_scope, parts_of_seq, seq_with,
    two_of_seq,
};
use crate::spine::{Spine, Standing};
use occ_derive_expose::{
    Frame, Law, Lost, Piece, Trail, alt_of, assign_of, expose, if_of, seq_of, seq_of_two, var_of,
};
use occ_syntax::{Expr, Guard, Name, Proc, Wait, Width};
use std::mem::replace;

/// A configuration goes on until it waits: until nothing is left to do, its first thing to do reads a variable whose value isn't
/// known, or this is an ALT.
pub fn advance(trail: &mut Trail, frame: &Frame, part: Proc) -> Result<Proc, Lost> {
    let mut spine = Spine::down(trail, part)?;
    for _ in 0..MOST {
        if !spine.go(trail, frame)? {
            return spine.close(trail);
        }
    }
    Err(Lost::NoStep)
}

impl Spine {
    /// One step, and whether there was one.
    fn go(&mut self, trail: &mut Trail, frame: &Frame) -> Result<bool, Lost> {
        match self.layers.pop(trail) {
            None => Ok(false),
            Some(Layer::Var(name, _)) => {
                self.forget(trail, name)?;
                Ok(true)
            }
            Some(Layer::Seq(rest)) => {
                if rest.is_empty() {
                    let assignment = assign_of(trail.alloc(), self.known.as_slice())?;
                    trail.forward(Law::SeqOne, &assignment)?;
                    return Ok(true);
                }
                let (head, rest) = first_of(rest)?;
                self.follow(trail, frame, head, rest)
            }
        }
    }

    /// A step of the first thing to do, and whether there is one.
    fn follow(
        &mut self,
        trail: &mut Trail,
        frame: &Frame,
        head: Proc,
        rest: Vec<Proc>,
    ) -> Result<bool, Lost> {
        match self.standing(&head) {
            Standing::Moves => {
                self.take(trail, frame, head, rest)?;
                Ok(true)
            }
            Standing::Reads(_) | Standing::Chooses => {
                self.put(trail, head, rest)?;
                Ok(false)
            }
        }
    }

    fn take(
        &mut self,
        trail: &mut Trail,
        frame: &Frame,
        head: Proc,
        rest: Vec<Proc>,
    ) -> Result<(), Lost> {
        match Piece::of(trail.alloc(), head)? {
            Piece::Skip => self.skip(trail, rest),
            Piece::Stop => self.stop(trail, rest),
            Piece::Assign(pairs) => self.assign(trail, frame, pairs, rest),
            Piece::Input(chan, var) => self.wait(trail, Wait::Get { chan, var }, rest),
            Piece::Output(chan, value) => self.wait(trail, Wait::Put { chan, value }, rest),
            Piece::Seq(parts) => self.flatten(trail, parts, rest),
            Piece::If(choices) => self.choose(trail, choices, rest),
            Piece::Var(name, width, body) => self.declare(trail, (name, width), body, rest),
            Piece::Par(parts) => self.expose(trail, Piece::Par(parts), rest),
            Piece::Chan(name, width, body) => {
                self.expose(trail, Piece::Chan(name, width, body), rest)
            }
            Piece::Alt(_) => Err(Lost::NoStep),
        }
    }

    /// The first thing to do and what follows it stand behind what is known.
    pub(crate) fn put(
        &mut self,
        trail: &mut Trail,
        head: Proc,
        rest: Vec<Proc>,
    ) -> Result<(), Lost> {
        let mut parts = rest;
        parts.insert(0, head)?;
        self.layers.push(trail, Layer::Seq(parts))
    }

    fn assignment(&self, trail: &Trail) -> Result<Proc, Lost> {
        Ok(assign_of(trail.alloc(), self.known.as_slice())?)
    }

    /// What is known and the first thing to do become a SEQ of their own, to which the trail goes.
    pub(crate) fn focus(
        &mut self,
        trail: &mut Trail,
        head: Proc,
        rest: Vec<Proc>,
    ) -> Result<Proc, Lost> {
        let assignment = self.assignment(trail)?;
        let (_, head) = self.layers.focus(trail, assignment, head, rest)?;
        Ok(head)
    }

    // Nothing is left in the scope of a variable.
    fn forget(&mut self, trail: &mut Trail, name: Name) -> Result<(), Lost> {
        let alloc = trail.alloc();
        if held(self.known.as_slice(), name).is_none() {
            let assignment = self.assignment(trail)?;
            trail.forward(Law::VarUnused, &assignment)?;
            return Ok(());
        }
        let mut others = Vec::new(alloc);
        for (other, value) in self.known.as_slice() {
            if *other != name {
                others.push((*other, value.copy(alloc)?))?;
            }
        }
        self.known = others;
        let assignment = self.assignment(trail)?;
        trail.forward(Law::VarAssign, &assignment)?;
        Ok(())
    }

    fn skip(&mut self, trail: &mut Trail, rest: Vec<Proc>) -> Result<(), Lost> {
        let alloc = trail.alloc();
        let whole = seq_with(alloc, self.assignment(trail)?, rest)?;
        trail.forward(Law::SeqSkip, &whole)?;
        let (_, rest) = first_of(parts_of_seq(alloc, whole)?)?;
        self.layers.push(trail, Layer::Seq(rest))
    }

    // What follows STOP is dropped, and STOP becomes the ALT without branches.
    fn stop(&mut self, trail: &mut Trail, rest: Vec<Proc>) -> Result<(), Lost> {
        let alloc = trail.alloc();
        if !rest.is_empty() {
            let whole = seq_of_two(alloc, self.assignment(trail)?, Proc::Stop)?;
            trail.forward(Law::SeqStop, &whole)?;
        }
        let none = alt_of(alloc, Vec::new(alloc))?;
        trail.enter(1)?;
        trail.backward(Law::AltNone, &none)?;
        trail.leave();
        self.put(trail, none, Vec::new(alloc))
    }

    fn assign(
        &mut self,
        trail: &mut Trail,
        frame: &Frame,
        pairs: Pairs,
        rest: Vec<Proc>,
    ) -> Result<(), Lost> {
        let alloc = trail.alloc();
        let _ = self.focus(trail, assign_of(alloc, pairs.as_slice())?, rest)?;
        let known = replace(&mut self.known, Vec::new(alloc));
        self.known = join_pairs(trail, frame, known, pairs)?;
        Ok(())
    }

    // An input or an output becomes an ALT of one branch.
    fn wait(&mut self, trail: &mut Trail, wait: Wait, rest: Vec<Proc>) -> Result<(), Lost> {
        let alloc = trail.alloc();
        let condition = Expr::Bool(true);
        let mut branches = Vec::new(alloc);
        branches.push((Guard { condition, wait }, Proc::Skip))?;
        let whole = alt_of(alloc, branches)?;
        trail.enter(1)?;
        trail.forward(Law::IoAlt, &whole)?;
        trail.leave();
        self.put(trail, whole, rest)
    }

    fn flatten(
        &mut self,
        trail: &mut Trail,
        parts: Vec<Proc>,
        rest: Vec<Proc>,
    ) -> Result<(), Lost> {
        let alloc = trail.alloc();
        let head = self.focus(trail, seq_of(alloc, parts)?, rest)?;
        let parts = parts_of_seq(alloc, head)?;
        let (_, parts) = flatten(trail, self.assignment(trail)?, parts)?;
        self.layers.push(trail, Layer::Seq(parts))
    }

    // The first choice whose condition is TRUE in what is known; STOP where there is none.
    fn choose(
        &mut self,
        trail: &mut Trail,
        choices: Vec<(Expr, Proc)>,
        rest: Vec<Proc>,
    ) -> Result<(), Lost> {
        let alloc = trail.alloc();
        let place = self.chosen(choices.as_slice());
        let is_none = place == choices.len();
        let mut head = self.focus(trail, if_of(alloc, choices)?, rest)?;
        if is_none {
            head = with_else(trail, head)?;
        }
        let choices = self.into_choices(trail, head)?;
        let part = only_choice(trail, choices, place)?;
        let (_, part) = two_of_seq(alloc, part)?;
        self.put(trail, part, Vec::new(alloc))
    }

    // What is known goes into each choice.
    fn into_choices(&self, trail: &mut Trail, head: Proc) -> Result<Vec<(Expr, Proc)>, Lost> {
        let alloc = trail.alloc();
        let mut choices = Vec::new(alloc);
        for (condition, part) in choices_of_if(trail, head)? {
            let condition = substituted(alloc, &condition, self.known.as_slice())?;
            let part = seq_of_two(alloc, self.assignment(trail)?, part)?;
            choices.push((condition, part))?;
        }
        let whole = if_of(alloc, choices)?;
        trail.forward(Law::AssignIf, &whole)?;
        choices_of_if(trail, whole)
    }

    // A declaration comes to stand round what is known.
    fn declare(
        &mut self,
        trail: &mut Trail,
        (name, width): (Name, Width),
        body: Proc,
        rest: Vec<Proc>,
    ) -> Result<(), Lost> {
        let alloc = trail.alloc();
        let head = self.focus(trail, var_of(alloc, name, width, body)?, rest)?;
        let (_, _, body) = declared(alloc, head)?;
        let body = into_scope(trail, self.assignment(trail)?, (name, width), body)?;
        self.layers.push(trail, Layer::Var(name, width))?;
        self.put(trail, body, Vec::new(alloc))
    }

    fn expose(&mut self, trail: &mut Trail, head: Piece, rest: Vec<Proc>) -> Result<(), Lost> {
        let head = head.into_proc(trail.alloc())?;
        trail.enter(1)?;
        let head = expose(trail, head)?;
        trail.leave();
        self.put(trail, head, rest)
    }
}

/// The IF behind an assignment gets a last choice, which stops.
fn with_else(trail: &mut Trail, head: Proc) -> Result<Proc, Lost> {
    let mut choices = choices_of_if(trail, head)?;
    choices.push((Expr::Bool(true), Proc::Stop))?;
    let whole = if_of(trail.alloc(), choices)?;
    trail.enter(1)?;
    trail.backward(Law::IfElseStop, &whole)?;
    trail.leave();
    Ok(whole)
}

/// The choice at a place, which is TRUE, of an IF in which all in front of it are FALSE.
fn only_choice(trail: &mut Trail, choices: Vec<(Expr, Proc)>, place: usize) -> Result<Proc, Lost> {
    let mut left = choices;
    for _ in 0..place {
        if left.is_empty() {
            return Err(Lost::NoStep);
        }
        let _ = left.remove(0);
        let whole = if_of(trail.alloc(), left)?;
        trail.forward(Law::IfFalse, &whole)?;
        left = choices_of_if(trail, whole)?;
    }
    if left.is_empty() {
        return Err(Lost::NoStep);
    }
    let (_, part) = left.remove(0);
    trail.forward(Law::IfTrue, &part)?;
    Ok(part)
}
