ghost use Rattle.std.specs.Prelude.{◌≡◌, length, IfOk};
ghost use Rattle.occ_syntax.specs.View.{tree};
ghost use Rattle.occ_print.specs.Known.{ProgramIsKnown, PartIsKnown};
ghost use Rattle.occ_print.specs.Spelled.{part_text, program_text};

use crate::level::Level;
use crate::line::push_line;
use crate::part::push_part;
use crate::simple::push_header;
use occ_parse_forms::{Sign, Symbol, Symbols};
use occ_syntax::{Memory, Names, Proc, Program};
use std::alloc::Global;

/// The text of a program: its header, its body one level below, and the closing line. Its names are names of the table;
/// it is refused only where memory runs out.
pub fn print(alloc: Global, names: &Names, program: &Program) -> Result<Vec<u8>, Memory>
    requires { ProgramIsKnown names.now program.now.name.0 program.now.params (tree program.now.body) }
    ensures { IfOk result (λ text. text.items ≡ program_text names.now program.now.name.0 program.now.params (tree program.now.body)) }
{
    let mut text = Vec::new(alloc);
    let mut header = Symbols::new(alloc);
    push_header(&mut header, program.name, program.params.items())?;
    push_line(&mut text, names, &Level::Outer(0), header.items())?;
    push_part(alloc, &mut text, names, &Level::Outer(1), &program.body)?;
    push_line(
        &mut text,
        names,
        &Level::Outer(0),
        &[Symbol::Sign(Sign::Colon)],
    )?;
    Ok(text)
}

/// The text of a part whose first line stands at a level. Its names are names of the table; it is refused only where
/// memory runs out.
pub fn print_part(alloc: Global, names: &Names, part: &Proc, level: u32) -> Result<Vec<u8>, Memory>
    requires { PartIsKnown (length names.now) (tree part.now) }
    ensures { IfOk result (λ text. text.items ≡ part_text names.now level (tree part.now)) }
{
    let mut text = Vec::new(alloc);
    push_part(alloc, &mut text, names, &Level::Outer(level), part)?;
    Ok(text)
}
