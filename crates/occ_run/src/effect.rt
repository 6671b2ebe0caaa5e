ghost use Rattle.std.specs.Prelude.{◌≡◌, IfOk};
ghost use Rattle.occ_run.specs.Effects.{offered};

use occ_syntax::{Event, Memory, Name, Proc, Width};
use std::alloc::Global;
use std::rc::Rc;

/// What a process with steps becomes by one of them.
#[derive(Clone, Copy)]
pub enum Next<'a> {
    /// Nothing is left of it.
    Done,
    /// SKIP, which isn't begun.
    Ready,
    /// A process that isn't begun.
    Process(&'a Proc),
    /// The body of a VAR, whose variable has begun with that value.
    Variable {
        name: Name,
        width: Width,
        value: u8,
        body: &'a Proc,
    },
}

/// How a step changes a control tree.
#[derive(Drop)]
pub enum Effect<'a> {
    /// A process becomes that.
    Leaf(Next<'a>),
    /// The variable of a VAR has that value then, and its body changes so.
    Within(u8, Rc<Effect<'a>>),
    /// One of controls at once, counted from 0, changes so.
    One(usize, Rc<Effect<'a>>),
    /// Two of controls at once change so.
    Two(usize, Rc<Effect<'a>>, usize, Rc<Effect<'a>>),
}

/// A step that can be taken: what is seen of it, the new values of variables, and how it changes the control tree.
#[derive(Drop)]
pub struct Offer<'a> {
    pub event: Option<Event>,
    pub changes: Vec<(Name, u8)>,
    pub effect: Rc<Effect<'a>>,
}

impl<'a> Offer<'a> {
    /// The same step.
    pub(crate) fn copy(&self, alloc: Global) -> Result<Offer<'a>, Memory>
        ensures { IfOk result (λ copy. offered copy ≡ offered self.now) }
    {
        Ok(Offer {
            event: self.event,
            changes: Vec::from_slice(alloc, &self.changes)?,
            effect: self.effect.clone()?,
        })
    }
}
