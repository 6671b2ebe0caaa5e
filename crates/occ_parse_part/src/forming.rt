ghost use Rattle.std.specs.Prelude.{◌≡◌, ◌⊎◌, ℕ, List, IfOk, IfErr};
ghost use Rattle.std.specs.List.{AllByRecursion};
ghost use Rattle.occ_parse_forms.specs.occ_lex.Placed.{IsLineOf};
ghost use Rattle.occ_parse_forms.specs.occ_lex.Symbols.{Extends, with_names_of_all};
ghost use Rattle.occ_parse_rules.specs.Forest.{forest, in_nodes, lines_at};
ghost use Rattle.occ_parse.specs.occ_parse_layout.Layout.{laid_rows};
ghost use Rattle.occ_parse_part.specs.Arrays.{array_names, arrays_of};
ghost use Rattle.occ_parse_part.specs.Elements.{elements_in, with_arrays};
ghost use Rattle.occ_parse_part.specs.Shown.{elements_of, lines_of};
ghost use Rattle.occ_parse_part.specs.Parts.{IsIllLaid, IsNoPart, IsPart, IsWellLaid};

use crate::arrays::arrays;
use crate::raw::Raw;
use crate::rows::elements;
use occ_parse::{Bound, Frame, Judged, NameSet, ParseFault, grown, judge_rows, least_bad};
use occ_parse_forms::{Line, rows};
use occ_parse_rules::Nodes;
use occ_syntax::Names;
use std::alloc::Global;

/// Lines that are well laid out as a part, and the arrays that they name.
#[derive(Drop)]
struct Laid {
    nodes: Nodes,
    arrays: NameSet,
}

/// The forest of lines that are well laid out, where no faulty line stands behind them.
fn laid_out(alloc: Global, judged: Judged) -> Result<Laid, ParseFault>
    ensures found { IfOk result (λ laid. IsWellLaid (laid_rows judged.lines.items) judged.stop (forest (in_nodes laid.nodes))) }
    ensures arrays { IfOk result (λ laid. laid.arrays ≡ arrays_of (laid_rows judged.lines.items)) }
    ensures refused { IfErr result (λ fault. IsIllLaid (laid_rows judged.lines.items) judged.stop fault ⊎ (fault ≡ ParseFault.Memory)) }
{
    let Judged { lines, stop } = judged;
    if let Some(line) = least_bad(alloc, &lines, Frame::Part, stop.is_some())? {
        return Err(ParseFault::Form { line });
    }
    match stop {
        Some(fault) => Err(fault),
        None => {
            let arrays = arrays(alloc, &lines)?;
            let nodes = grown(alloc, lines, 1)?;
            Ok(Laid { nodes, arrays })
        }
    }
}

/// Reads the lines of one part. They are lines that `occ_lex` read from the text, in order. The names of the lines are in the
/// table then, also where they are refused, and where they are read the elements 0 to 255 of each array that they name stand
/// behind those. `Memory` comes only where memory runs out, and each other fault is the first one: the least line that is over the
/// limit on tokens or badly laid out.
pub fn form(
    alloc: Global,
    names: &mut Names,
    text: &[u8],
    lines: &[Line],
) -> Result<Raw, ParseFault>
    requires { AllByRecursion (IsLineOf text.now) lines.now }
    ensures found { IfOk result (λ raw. IsPart text.now names.old lines.now (lines_of raw)) }
    ensures table { IfOk result (λ raw. names.new ≡ with_arrays (with_names_of_all text.now names.old lines.now) (array_names (lines_at 1 (lines_of raw)))) }
    ensures elements { IfOk result (λ raw. (t : List (List ℕ)) → Extends names.new t → elements_of raw ≡ elements_in t (array_names (lines_at 1 (lines_of raw)))) }
    ensures refused { IfErr result (λ fault.
        (IsNoPart text.now names.old lines.now fault × (names.new ≡ with_names_of_all text.now names.old lines.now)) ⊎ (fault ≡ ParseFault.Memory)) }
    ensures extends { Extends names.old names.new }
{
    let rows = rows(alloc, names, text, lines)?;
    let judged = judge_rows(alloc, Bound::Script, &rows, None)?;
    let laid = laid_out(alloc, judged)?;
    let elements = elements(alloc, names, laid.arrays.names())?;
    Ok(Raw {
        nodes: laid.nodes,
        elements,
    })
}
