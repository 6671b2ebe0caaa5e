ghost use Rattle.std.specs.Prelude.{◌≡◌, ◌++◌, ◌+◌, ◌-◌, ◌≤◌, ◌<◌, ◌∷◌, ◌↔◌, codes, IfOk, OnOk, IsErrOf};
ghost use Rattle.occ_gen.specs.Programs.{cell, channel as channel_of, line, lines_text, program_text, stages, width};

use crate::cell::{Cell, channel};
use crate::line::push_line;
use crate::{GenFault, Shape};
use occ_script::Memory;
use std::alloc::Global;

/// The greatest number of stages.
const MOST: u64 = 48;

/// The text of the chain of `n` cells, from 1 to 48. `Range` comes exactly where `n` isn't one of these numbers.
pub fn generate(alloc: Global, shape: Shape, n: u64) -> Result<Vec<u8>, GenFault>
    ensures text { IfOk result (λ text. text.items ≡ program_text shape n) }
    ensures range { IsErrOf result GenFault.Range ↔ ¬ (1 ≤ n × n ≤ 48) }
{
    if n < 1 || n > MOST {
        return Err(GenFault::Range);
    }
    Ok(program(alloc, shape, n)?)
}

fn program(alloc: Global, shape: Shape, n: u64) -> Result<Vec<u8>, Memory>
    requires some { 1 ≤ n }
    requires most { n ≤ 48 }
    ensures { IfOk result (λ text. text.items ≡ program_text shape n) }
{
    let mut text = Vec::new(alloc);
    push_line(&mut text, 0, &[shape.header()])?;
    push_stages(alloc, &mut text, shape, n)?;
    push_line(&mut text, 0, &[b":"])?;
    Ok(text)
}

fn push_stages(alloc: Global, text: &mut Vec<u8>, shape: Shape, n: u64) -> Result<(), Memory>
    requires some { 1 ≤ n }
    requires most { n ≤ 48 }
    ensures { OnOk result (text.new.items ≡ text.old.items ++ lines_text (stages shape 1 1 (n - 1))) }
{
    for stage in 1..n {
        push_stage(alloc, text, shape, stage)?;
    }
    let last = Cell {
        shape,
        stage: n,
        target: b"out",
    };
    last.push(alloc, text, n)?;
    Ok(())
}

/// Adds the declaration of the channel behind a stage, and the stage's cell beside what comes next.
fn push_stage(alloc: Global, text: &mut Vec<u8>, shape: Shape, stage: u64) -> Result<(), Memory>
    requires some { 1 ≤ stage }
    requires most { stage < 48 }
    ensures { OnOk result (text.new.items ≡ text.old.items ++ lines_text (line stage (codes "CHAN OF " ++ width shape ++ codes " " ++ channel_of stage ++ codes ":")
        ∷ line stage (codes "PAR") ∷ cell shape stage (channel_of stage) (stage + 1))) }
{
    let target = channel(alloc, stage)?;
    push_line(
        text,
        stage,
        &[b"CHAN OF ", shape.width(), b" ", target.as_slice(), b":"],
    )?;
    push_line(text, stage, &[b"PAR"])?;
    let cell = Cell {
        shape,
        stage,
        target: target.as_slice(),
    };
    cell.push(alloc, text, stage + 1)
}
