ghost use Rattle.std.specs.Prelude.{◌≡◌, ◌+◌, ◌^◌, ◌<◌, ◌++◌, length, IfOk, OnOk, option_to_list};
ghost use Rattle.occ_lex.specs.Rows.{line_of, lines_of, reading_of};
ghost use Rattle.occ_lex.specs.Gives.{Gives};

use crate::row::{first_row, line};
use crate::{LexFault, Line, LineFault, RowFault};
use occ_base::Memory;
use std::alloc::Global;

/// What a text reads as: the lines that aren't blank, up to the least faulty line, and that line's number and fault
/// where there is one.
#[derive(Debug, Drop)]
pub struct Reading {
    pub lines: Vec<Line>,
    pub fault: Option<(u32, LineFault)>,
}

fn keep(lines: &mut Vec<Line>, line: Option<Line>) -> Result<(), Memory>
    ensures { OnOk result (lines.new.items ≡ lines.old.items ++ option_to_list line) }
{
    if let Some(line) = line {
        lines.push(line)?;
    }
    Ok(())
}

fn judged_line(
    alloc: Global,
    number: u32,
    first: u32,
    row: &[u8],
) -> Result<Result<Option<Line>, LineFault>, Memory>
    requires { first + length row.now < 2 ^ 32 }
    ensures { IfOk result (λ judged. line_of number first row.now ≡ judged) }
{
    match line(alloc, number, first, row) {
        Ok(line) => Ok(Ok(line)),
        Err(fault) => match fault {
            RowFault::Fault(fault) => Ok(Err(fault)),
            RowFault::Memory => Err(Memory),
        },
    }
}

/// Reads a text's lines up to its least faulty one, in one pass.
pub fn read(alloc: Global, text: &[u8]) -> Result<Reading, Memory>
    requires { length text.now < 4294967295 }
    ensures { IfOk result (λ reading. (reading.lines.items, reading.fault) ≡ reading_of text.now) }
{
    let mut lines = Vec::new(alloc);
    let mut number = 1;
    let mut at = 0;
    while at < text.len() {
        let row = first_row(&text[at..]);
        match judged_line(alloc, number, at as u32, row)? {
            Ok(line) => keep(&mut lines, line)?,
            Err(fault) => {
                let fault = Some((number, fault));
                return Ok(Reading { lines, fault });
            }
        }
        number += 1;
        at += row.len();
    }
    Ok(Reading { lines, fault: None })
}

/// The lines of a text that aren't blank. `Line` comes exactly where a line has a fault, for the least such line.
pub fn lines(alloc: Global, text: &[u8]) -> Result<Vec<Line>, LexFault>
    requires { length text.now < 4294967295 }
    ensures { Gives (λ lines. lines.items) result (lines_of text.now) }
{
    let Reading { lines, fault } = read(alloc, text)?;
    match fault {
        Some((line, fault)) => Err(LexFault::Line { line, fault }),
        None => Ok(lines),
    }
}
