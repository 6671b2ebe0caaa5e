//! Declared channels round a head form.

use crate::around::{Around, Rounds, Turn};
use crate::build::{alone, cut, in_two, parted};
use occ_derive_trail::{
    Law, Lost, NameSet, Piece, Trail, alt_of, free, if_of, seq_of, seq_of_two, var_of,
};
use occ_syntax::{Expr, Guard, Memory, Name, Proc, Wait, Width};
use std::alloc::Global;

/// A declared channel, and those declared next in it, are worked at what they govern. Channels that this doesn't name go.
pub(crate) fn declared(
    trail: &mut Trail,
    rounds: &mut Rounds,
    name: Name,
    width: Width,
    body: Proc,
) -> Result<Turn, Lost> {
    let used = used_below(trail.alloc(), &body)?;
    let mut chan = Channel { name, width };
    let mut rest = body;
    for _ in 0..u64::MAX {
        chan.open(trail, rounds, &used, &rest)?;
        rest = match Piece::of(trail.alloc(), rest)? {
            Piece::Chan(name, width, body) => {
                chan = Channel { name, width };
                body
            }
            other => return Ok(Turn::Work(other.into_proc(trail.alloc())?)),
        };
    }
    Err(Lost::NoStep)
}

// The names that stand free in what a row of declarations governs.
fn used_below(alloc: Global, part: &Proc) -> Result<NameSet, Memory> {
    let mut rest = part;
    while let Some((_, _, body)) = rest.declared() {
        rest = body;
    }
    let mut used = NameSet::new(alloc);
    for name in free(alloc, rest)? {
        used.insert(name)?;
    }
    Ok(used)
}

/// A declared channel goes into a head form.
pub(crate) fn hidden(
    trail: &mut Trail,
    name: Name,
    width: Width,
    head: Piece,
) -> Result<Proc, Lost> {
    let alloc = trail.alloc();
    let chan = Channel { name, width };
    let (whole, law) = match head {
        Piece::Seq(parts) => return chan.in_order(trail, parts),
        Piece::If(choices) => (chan.choices(alloc, choices)?, Law::ChanIf),
        Piece::Alt(branches) => (chan.branches(alloc, branches)?, Law::ChanAlt),
        Piece::Var(name, width, body) => {
            let whole = var_of(alloc, name, width, chan.round(alloc, body)?)?;
            trail.backward(Law::VarSwap, &whole)?;
            return Ok(whole);
        }
        head => (head.into_proc(alloc)?, Law::ChanUnused),
    };
    trail.forward(law, &whole)?;
    Ok(whole)
}

// A declared channel.
#[derive(Clone, Copy)]
struct Channel {
    name: Name,
    width: Width,
}

impl Channel {
    // Goes on with what the declaration governs; the declaration goes where that uses none of its names.
    fn open(
        self,
        trail: &mut Trail,
        rounds: &mut Rounds,
        used: &NameSet,
        body: &Proc,
    ) -> Result<(), Lost> {
        if used.contains(self.name) {
            rounds.enter(trail, 0, Around::Hidden(self.name, self.width))?;
        } else {
            trail.forward(Law::ChanUnused, body)?;
        }
        Ok(())
    }

    // The declaration of the channel for a part.
    fn round(self, alloc: Global, part: Proc) -> Result<Proc, Memory> {
        let body = Box::new(alloc, part)?;
        Ok(Proc::Chan {
            name: self.name,
            width: self.width,
            body,
        })
    }

    // Round a SEQ that begins with an assignment it goes behind it.
    fn in_order(self, trail: &mut Trail, parts: Vec<Proc>) -> Result<Proc, Lost> {
        let alloc = trail.alloc();
        let Some((first, rest)) = cut(alloc, parts)? else {
            return Err(Lost::NoStep);
        };
        if rest.is_empty() {
            let whole = seq_of(alloc, alone(alloc, first)?)?;
            trail.forward(Law::ChanUnused, &whole)?;
            return Ok(whole);
        }
        trail.enter(0)?;
        let (first, second) = in_two(trail, first, rest)?;
        trail.leave();
        self.behind(trail, first, second)
    }

    // Round a SEQ of an assignment and what follows it goes behind the assignment.
    fn behind(self, trail: &mut Trail, first: Proc, second: Proc) -> Result<Proc, Lost> {
        let alloc = trail.alloc();
        let at_first = self.round(alloc, first.copy(alloc)?)?;
        let whole = seq_of_two(alloc, at_first, self.round(alloc, second)?)?;
        trail.forward(Law::ChanSeq, &whole)?;
        trail.enter(0)?;
        trail.forward(Law::ChanUnused, &first)?;
        trail.leave();
        let (_, second) = parted(alloc, whole)?;
        Ok(seq_of_two(alloc, first, second)?)
    }

    fn choices(self, alloc: Global, choices: Vec<(Expr, Proc)>) -> Result<Proc, Memory> {
        let mut made = Vec::new(alloc);
        for (condition, part) in choices {
            made.push((condition, self.round(alloc, part)?))?;
        }
        if_of(alloc, made)
    }

    // Branches that wait for a communication on the channel go.
    fn branches(self, alloc: Global, branches: Vec<(Guard, Proc)>) -> Result<Proc, Memory> {
        let mut made = Vec::new(alloc);
        for (guard, part) in branches {
            if !self.is_in(&guard) {
                made.push((guard, self.round(alloc, part)?))?;
            }
        }
        alt_of(alloc, made)
    }

    fn is_in(self, guard: &Guard) -> bool {
        match &guard.wait {
            Wait::Skip => false,
            Wait::Get { chan, var: _ } => *chan == self.name,
            Wait::Put { chan, value: _ } => *chan == self.name,
        }
    }
}
