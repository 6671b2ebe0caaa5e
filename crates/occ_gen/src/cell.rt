ghost use Rattle.std.specs.Prelude.{◌≡◌, ◌++◌, ◌≤◌, IfOk, OnOk};
ghost use Rattle.occ_gen.specs.Programs.{cell, channel as channel_of, lines_text, opening, sends, source as source_of};

use crate::Shape;
use crate::line::push_line;
use itoa::Buffer;
use occ_script::{Memory, push_number};
use std::alloc::Global;

/// The channel from a stage to the next.
pub fn channel(alloc: Global, stage: u64) -> Result<Vec<u8>, Memory>
    ensures { IfOk result (λ name. name.items ≡ channel_of stage) }
{
    let mut name = Vec::from_slice(alloc, b"c")?;
    push_number(&mut name, stage)?;
    Ok(name)
}

/// The channel that a stage reads from.
fn source(alloc: Global, stage: u64) -> Result<Vec<u8>, Memory>
    requires { 1 ≤ stage }
    ensures { IfOk result (λ name. name.items ≡ source_of stage) }
{
    if stage == 1 {
        Ok(Vec::from_slice(alloc, b"in")?)
    } else {
        channel(alloc, stage - 1)
    }
}

/// Adds the declaration of a cell's variable, and the loop over its messages.
fn push_opening(text: &mut Vec<u8>, shape: Shape, level: u64) -> Result<(), Memory>
    requires { level ≤ 48 }
    ensures { OnOk result (text.new.items ≡ text.old.items ++ lines_text (opening shape level)) }
{
    let mut buffer = Buffer::new();
    let messages = buffer.format(shape.messages());
    push_line(text, level, &[shape.width(), b" v:"])?;
    push_line(text, level, &[b"SEQ i = 0 FOR ", messages.as_bytes()])?;
    push_line(text, level + 1, &[b"SEQ"])?;
    Ok(())
}

/// One cell of a chain.
#[derive(Drop)]
pub struct Cell<'a> {
    pub shape: Shape,
    /// The number of its stage, from 1.
    pub stage: u64,
    /// The channel that it sends to.
    pub target: &'a [u8],
}

impl Cell<'_> {
    /// Adds the lines of the cell at a level.
    pub fn push(&self, alloc: Global, text: &mut Vec<u8>, level: u64) -> Result<(), Memory>
        requires stage { 1 ≤ self.now.stage }
        requires level { level ≤ 48 }
        ensures { OnOk result (text.new.items ≡ text.old.items ++ lines_text (cell self.now.shape self.now.stage self.now.target.now level)) }
    {
        push_opening(text, self.shape, level)?;
        let source = source(alloc, self.stage)?;
        push_line(text, level + 2, &[source.as_slice(), b" ? v"])?;
        self.push_sends(text, level + 2)
    }

    fn push_sends(&self, text: &mut Vec<u8>, level: u64) -> Result<(), Memory>
        requires { level ≤ 50 }
        ensures { OnOk result (text.new.items ≡ text.old.items ++ lines_text (sends self.now.shape self.now.stage self.now.target.now level)) }
    {
        match self.shape {
            Shape::Buffers => push_line(text, level, &[self.target, b" ! v"]),
            Shape::Adders => push_line(text, level, &[self.target, b" ! v PLUS 1"]),
            Shape::Muxes => self.push_switch(text, level),
        }
    }

    fn push_switch(&self, text: &mut Vec<u8>, level: u64) -> Result<(), Memory>
        requires { level ≤ 50 }
        ensures { OnOk result (text.new.items ≡ text.old.items ++ lines_text (sends Shape.Muxes self.now.stage self.now.target.now level)) }
    {
        let mut buffer = Buffer::new();
        let turned = buffer.format(self.stage % 16);
        push_line(text, level, &[b"IF"])?;
        push_line(text, level + 1, &[b"s = ", turned.as_bytes()])?;
        push_line(text, level + 2, &[self.target, b" ! ~ v"])?;
        push_line(text, level + 1, &[b"TRUE"])?;
        push_line(text, level + 2, &[self.target, b" ! v"])
    }
}
