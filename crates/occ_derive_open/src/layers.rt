use crate::row::{group, seq_with};
use occ_derive_expose::{Lost, Trail, var_of};
use occ_syntax::{Name, Proc, Width};
use std::alloc::Global;

/// What stands directly round the first part of a process.
#[derive(Drop)]
pub(crate) enum Layer {
    /// A SEQ, with the parts that follow the first.
    Seq(Vec<Proc>),
    /// A declared variable.
    Var(Name, Width),
}

impl Layer {
    /// The layer round a process.
    pub(crate) fn round(self, alloc: Global, inner: Proc) -> Result<Proc, Lost> {
        match self {
            Layer::Seq(rest) => seq_with(alloc, inner, rest),
            Layer::Var(name, width) => Ok(var_of(alloc, name, width, inner)?),
        }
    }
}

/// What stands round a process, each time as the first part, from outside in. The trail stands at the process.
#[derive(Drop)]
pub(crate) struct Layers {
    list: Vec<Layer>,
}

impl Layers {
    /// Nothing stands round it.
    pub(crate) fn new(alloc: Global) -> Layers {
        Layers {
            list: Vec::new(alloc),
        }
    }

    /// Goes on with the first part of a process.
    pub(crate) fn push(&mut self, trail: &mut Trail, layer: Layer) -> Result<(), Lost> {
        match self.list.push(layer) {
            Ok(()) => {}
            Err(_cause) => return Err(Lost::Memory),
        }
        trail.enter(0)?;
        Ok(())
    }

    /// The first two parts of a SEQ become a SEQ of their own, to which the trail goes. Both are given back.
    pub(crate) fn focus(
        &mut self,
        trail: &mut Trail,
        first: Proc,
        second: Proc,
        rest: Vec<Proc>,
    ) -> Result<(Proc, Proc), Lost> {
        let (first, second, rest) = group(trail, first, second, rest)?;
        if rest.is_empty() {
            return Ok((first, second));
        }
        self.push(trail, Layer::Seq(rest))?;
        Ok((first, second))
    }

    /// Goes back to what stands directly round the process.
    pub(crate) fn pop(&mut self, trail: &mut Trail) -> Option<Layer> {
        let layer = self.list.pop()?;
        trail.leave();
        Some(layer)
    }

    /// How many they are.
    pub(crate) fn count(&self) -> usize {
        self.list.len()
    }

    /// The width of a variable that is declared there; None where it isn't.
    pub(crate) fn width_of(&self, name: Name) -> Option<Width> {
        for layer in self.list.as_slice() {
            match layer {
                Layer::Seq(_) => {}
                Layer::Var(other, width) => {
                    if *other == name {
                        return Some(*width);
                    }
                }
            }
        }
        None
    }

    /// All of them round a process.
    pub(crate) fn close(mut self, trail: &mut Trail, inner: Proc) -> Result<Proc, Lost> {
        let alloc = trail.alloc();
        let mut part = inner;
        while let Some(layer) = self.list.pop() {
            trail.leave();
            part = layer.round(alloc, part)?;
        }
        Ok(part)
    }
}
