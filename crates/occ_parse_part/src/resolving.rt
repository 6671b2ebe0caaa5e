ghost use Rattle.std.specs.Prelude.{◌≡◌, ◌⊎◌, None, Some, true, IfOk, IfErr};
ghost use Rattle.occ_syntax.specs.Scopes.{environment};
ghost use Rattle.occ_syntax.specs.Types.{scope_kept, types_kept};
ghost use Rattle.occ_syntax.specs.View.{tree};
ghost use Rattle.occ_parse_part.specs.Resolving.{part_fault, part_process, scope_params};
ghost use Rattle.occ_parse_part.specs.Seen.{seen};
ghost use Rattle.occ_parse_part.specs.Shown.{part_of};

use crate::elements::Elements;
use crate::faults::fault_in;
use crate::numbering::Known;
use crate::raw::Raw;
use occ_parse::{Context, ParseFault, slot};
use occ_parse_forms::Param;
use occ_syntax::{Kind, Memory, Name, Names, Proc, Scope};
use std::alloc::Global;

/// What is in scope, as declarations.
fn params_of(
    alloc: Global,
    elements: &Elements,
    scope: &[(Name, Kind)],
) -> Result<Vec<Param>, Memory>
    ensures { IfOk result (λ params. params.items ≡ scope_params (seen elements.now) scope.now) }
{
    let mut params = Vec::new(alloc);
    for entry in scope {
        let (name, kind) = *entry;
        params.push(Param {
            declared: elements.declared(name),
            kind,
        })?;
    }
    Ok(params)
}

/// The process that a part is in a scope, with the width of each numeral. The scope has the names round the part with their
/// kinds, from outside in. Refused is the first fault: of names, then of types, then of directions, each on the least line that
/// has one. `Memory` comes only where memory runs out. Where no name stands twice in the scope and its widths are widths, the process
/// keeps names, types and directions in it.
pub fn resolve(alloc: Global, scope: &Scope, raw: &Raw) -> Result<Proc, ParseFault>
    ensures fault { IfOk result (λ p. part_fault (part_of raw.now) scope.now ≡ None) }
    ensures found { IfOk result (λ p. tree p ≡ part_process (part_of raw.now) scope.now) }
    ensures typed { IfOk result (λ p. scope_kept scope.now ≡ true → types_kept (tree p) (environment scope.now) ≡ true) }
    ensures refused { IfErr result (λ fault. (part_fault (part_of raw.now) scope.now ≡ Some fault) ⊎ (fault ≡ ParseFault.Memory)) }
{
    let params = params_of(alloc, &raw.elements, scope.items())?;
    let mut context = Context::new(alloc);
    context.scopes.declare_params(params.as_slice())?;
    let nodes = raw.nodes.items();
    if let Some(fault) = fault_in(alloc, &mut context.scopes, nodes)? {
        return Err(fault);
    }
    let known = Known {
        alloc,
        elements: &raw.elements,
    };
    let mut names = Names::new(alloc);
    let process = slot(&known, &mut names, &mut context, nodes)?;
    Ok(process)
}
