ghost use Rattle.std.specs.Prelude.{◌≡◌, ◌⊎◌, ◌<◌, length, true, IfOk, IfErr};
ghost use Rattle.occ_syntax.specs.View.{tree};
ghost use Rattle.occ_parse_rules.specs.occ_lex.Symbols.{Extends};
ghost use Rattle.occ_usage.specs.Accepted.{IsTyped};
ghost use Rattle.occ_parse.specs.Limits.{is_limited};
ghost use Rattle.occ_parse.specs.Reading.{IsRead, IsRefused};
ghost use Rattle.occ_parse.specs.Known.{NamesAreKnown};

use crate::drafting::draft_fault;
use crate::header::header_of;
use crate::laying::laid_out;
use crate::limits::is_too_long;
use crate::{Bound, ParseFault, Which};
use occ_parse_unroll::unroll;
use occ_syntax::{List, Names, Program};
use std::alloc::Global;

/// The numbers of lines.
pub type LineNumbers = List<u32>;

/// A program with the numbers of the lines of its processes.
#[derive(Debug, Drop)]
pub struct Text {
    /// The program.
    pub program: Program,
    /// The number of the line of each process of the body, the outer ones first.
    pub lines: LineNumbers,
}

/// Reads a text as a program. Its names are kept in the table, also where it is refused. `Memory` comes only where
/// memory runs out, and each other fault is the first one that the text has. Where the limits of programs bind the text, the program
/// that is read keeps names, types, directions and limits, as `check` of `occ_usage` asks. Its parameters and the names that it
/// declares have texts in the table.
pub fn parse(
    alloc: Global,
    names: &mut Names,
    text: &[u8],
    bound: Bound,
) -> Result<Text, ParseFault>
    requires { length text.now < 4294967295 }
    ensures found { IfOk result
        (λ read. IsRead bound text.now names.old names.new read.program.name read.program.params (tree read.program.body) read.lines) }
    ensures typed { IfOk result (λ read. is_limited bound ≡ true → IsTyped read.program) }
    ensures known { IfOk result (λ read. NamesAreKnown names.new read.program) }
    ensures refused { IfErr result
        (λ fault. IsRefused bound text.now names.old fault ⊎ (fault ≡ ParseFault.Memory)) }
    ensures extends { Extends names.old names.new }
{
    if is_too_long(bound, text) {
        let which = Which::Bytes;
        return Err(ParseFault::Limit { which, line: 1 });
    }
    let nodes = laid_out(alloc, names, text, bound)?;
    if let Some(fault) = draft_fault(alloc, bound, nodes.items())? {
        return Err(fault);
    }
    let header = header_of(nodes.items());
    // Each text stands once in the table of names.
    let _ = names.text(header.name);
    let unrolled = unroll(alloc, names, header.params, header.below)?;
    let program = Program {
        name: header.name,
        params: unrolled.params,
        body: unrolled.body,
    };
    Ok(Text {
        program,
        lines: unrolled.lines,
    })
}
