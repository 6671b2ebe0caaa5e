ghost use Rattle.std.specs.Prelude.{IfOk};
ghost use Rattle.occ_parse_forms.specs.Lines.{IsForm};
ghost use Rattle.occ_parse_forms.specs.Shape.{shape};

use crate::Form;
use crate::fault::Fault;
use crate::line::line;
use occ_lex::{Memory, Symbol};
use std::alloc::Global;

/// What a line says, from its symbols alone. It is `Form::Nothing` exactly where the symbols are spelled as none of the
/// other forms. It takes time in proportion to the number of symbols, but for the names on the left side of an
/// assignment, which are compared with one another; it goes as deep as brackets stand in one another.
pub fn read_form(alloc: Global, symbols: &[Symbol]) -> Result<Form, Memory>
    ensures { IfOk result (λ form. IsForm symbols.now (shape form)) }
{
    match line(alloc, symbols) {
        Ok(form) => Ok(form),
        Err(fault) => match fault {
            Fault::Form => Ok(Form::Nothing),
            Fault::Memory => Err(Memory),
        },
    }
}
