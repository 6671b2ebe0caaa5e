//! The lines of sections.

ghost use Rattle.std.specs.Prelude.{◌≡◌, ◌+◌, ◌^◌, ◌<◌, ◌++◌, length, option_to_list, IfOk, OnOk};
ghost use Rattle.occ_lex.specs.Rows.{line_of};
ghost use Rattle.occ_script_lines.specs.Sections.{reading_in, section as seen};

use crate::section::Section;
use occ_lex::{Line, LineFault, Memory, Reading, RowFault, first_row, line};
use std::alloc::Global;

fn keep(lines: &mut Vec<Line>, line: Option<Line>) -> Result<(), Memory>
    ensures { OnOk result (lines.new.items ≡ lines.old.items ++ option_to_list line) }
{
    if let Some(line) = line {
        lines.push(line)?;
    }
    Ok(())
}

fn judged_line(
    alloc: Global,
    number: u32,
    first: u32,
    row: &[u8],
) -> Result<Result<Option<Line>, LineFault>, Memory>
    requires { first + length row.now < 2 ^ 32 }
    ensures { IfOk result (λ judged. line_of number first row.now ≡ judged) }
{
    match line(alloc, number, first, row) {
        Ok(line) => Ok(Ok(line)),
        Err(fault) => match fault {
            RowFault::Fault(fault) => Ok(Err(fault)),
            RowFault::Memory => Err(Memory),
        },
    }
}

/// The lines of a section that aren't blank, up to its least faulty one, and that one's number and fault.
pub fn lines(alloc: Global, section: &Section) -> Result<Reading, Memory>
    ensures { IfOk result (λ reading. (reading.lines.items, reading.fault) ≡ reading_in (seen section.now)) }
{
    let text = section.upto;
    let mut lines = Vec::new(alloc);
    let mut number = section.number + 1;
    let mut at = section.end;
    while at < text.len() {
        let row = first_row(&text[at..]);
        match judged_line(alloc, number, at as u32, row)? {
            Ok(line) => keep(&mut lines, line)?,
            Err(fault) => {
                let fault = Some((number, fault));
                return Ok(Reading { lines, fault });
            }
        }
        number += 1;
        at += row.len();
    }
    Ok(Reading { lines, fault: None })
}
