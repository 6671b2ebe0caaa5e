//! Scripts as they are read.

ghost use Rattle.std.specs.Prelude.{◌≡◌, ◌⊎◌, ◌<◌, length, true, IfErr, IfOk};
ghost use Rattle.occ_script_lines.specs.occ_lex.Symbols.{Extends};
ghost use Rattle.occ_parse_part.specs.occ_parse.Known.{NamesAreKnown};
ghost use Rattle.occ_parse_part.specs.occ_parse.Limits.{is_limited};
ghost use Rattle.occ_script.specs.declared.fault.ScriptFault.TheVariants as fault;
ghost use Rattle.occ_script.specs.Refusals.{IsBadText, IsScriptFault};
ghost use Rattle.occ_script.specs.Scripts.{IsProgram, IsScript};
ghost use Rattle.occ_script_lines.specs.occ_usage.Accepted.{IsTyped};

use crate::fault::text_fault;
use crate::forming::formed;
use crate::{Script, ScriptFault};
use occ_parse_part::{Bound, ParseFault, Text, Which, parse};
use occ_syntax::Names;
use std::alloc::Global;

pub(crate) const MOST_BYTES: usize = 4_194_304;

/// The program that a text reads as.
fn program(alloc: Global, names: &mut Names, text: &[u8], bound: Bound) -> Result<Text, ScriptFault>
    requires { length text.now < 4294967295 }
    ensures found { IfOk result (λ read. IsProgram bound text.now names.old names.new read.program read.lines) }
    ensures typed { IfOk result (λ read. is_limited bound ≡ true → IsTyped read.program) }
    ensures known { IfOk result (λ read. NamesAreKnown names.new read.program) }
    ensures refused { IfErr result (λ e. IsBadText bound text.now names.old e ⊎ (e ≡ fault.Memory)) }
    ensures extends { Extends names.old names.new }
{
    match parse(alloc, names, text, bound) {
        Ok(read) => Ok(read),
        Err(fault) => Err(text_fault(fault)),
    }
}

/// Reads a text as a script. Its names are kept in the table, also where it is refused. `Memory` comes only where memory is short,
/// and each other fault is the first one that the text has: its length; version 1; the least line with a fault of tokens or of form,
/// or over a limit of lines; names, types, directions and limits of the program behind FROM; and names, types and directions of the
/// one behind TO. The program behind FROM keeps names, types, directions and limits, as `check` of `occ_usage` asks. The names of both
/// programs have texts in the table, and the steps are fewer than 4,294,967,295.
pub fn read(alloc: Global, names: &mut Names, text: &[u8]) -> Result<Script, ScriptFault>
    ensures found { IfOk result (λ script. IsScript text.now names.old names.new script) }
    ensures typed { IfOk result (λ script. IsTyped script.from.program) }
    ensures known { IfOk result (λ script. NamesAreKnown names.new script.to) }
    ensures known_from { IfOk result (λ script. NamesAreKnown names.new script.from.program) }
    ensures few { IfOk result (λ script. length script.steps < 4294967295) }
    ensures refused { IfErr result (λ e. IsScriptFault text.now names.old e ⊎ (e ≡ fault.Memory)) }
    ensures extends { Extends names.old names.new }
{
    if text.len() > MOST_BYTES {
        let which = Which::Bytes;
        return Err(ScriptFault::Text(ParseFault::Limit { which, line: 1 }));
    }
    let formed = formed(alloc, names, text)?;
    let from = program(alloc, names, &formed.from.text, Bound::First)?;
    let to = program(alloc, names, &formed.to.text, Bound::Script)?;
    Ok(Script {
        from,
        steps: formed.steps,
        to: to.program,
    })
}
