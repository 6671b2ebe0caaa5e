ghost use Rattle.std.specs.Prelude.{◌≡◌, ◌↔◌, IfOk, IsTrue};
ghost use Rattle.occ_syntax.specs.Scopes.{environment};
ghost use Rattle.occ_syntax.specs.Types.{scope_kept as is_scope_kept, types_kept};
ghost use Rattle.occ_syntax.specs.View.{tree};
ghost use Rattle.occ_usage.specs.Accepted.{KeepsRules};
ghost use Rattle.occ_usage.specs.Typed.{widths_kept as are_widths_kept};

use crate::checker::{first_fault, names_in};
use crate::kinds::Kinds;
use crate::types::{distinct, is_width, width_of};
use crate::typing::Typing;
use occ_syntax::{Kind, Memory, Name, Proc, Program, Scope};
use std::alloc::Global;

/// Whether names, types, directions and usage are kept in a program, whatever its size.
pub fn keeps(alloc: Global, program: &Program) -> Result<bool, Memory>
    ensures { IfOk result (λ kept. IsTrue kept ↔ KeepsRules program.now) }
{
    if !keeps_scope(alloc, program.params.items())? {
        return Ok(false);
    }
    if !keeps_types(alloc, &program.params, &program.body)? {
        return Ok(false);
    }
    let fault = first_fault(alloc, program)?;
    Ok(fault.is_none())
}

/// Whether names, types and directions are kept in a part in that scope: names are declared before they are used, none is
/// declared again inside its own scope, and types and directions fit. Where a name stands twice in the scope, the first
/// counts.
pub fn keeps_types(alloc: Global, scope: &Scope, part: &Proc) -> Result<bool, Memory>
    ensures { IfOk result (λ kept. kept ≡ types_kept (tree part.now) (environment scope.now)) }
{
    let kinds = kinds_of(alloc, scope.items())?;
    let mut typing = Typing { alloc, kinds };
    typing.part(part)
}

/// Whether no name stands twice in a scope, and widths are widths.
pub fn keeps_scope(alloc: Global, scope: &[(Name, Kind)]) -> Result<bool, Memory>
    ensures { IfOk result (λ kept. kept ≡ is_scope_kept scope.now) }
{
    if !widths_kept(scope) {
        return Ok(false);
    }
    let names = names_in(alloc, scope)?;
    distinct(alloc, names.as_slice())
}

fn widths_kept(scope: &[(Name, Kind)]) -> bool
    ensures { result ≡ are_widths_kept scope.now }
{
    for (_, kind) in scope {
        if !is_width(width_of(*kind)) {
            return false;
        }
    }
    true
}

fn kinds_of(alloc: Global, scope: &[(Name, Kind)]) -> Result<Kinds, Memory>
    ensures { IfOk result (λ kinds. environment kinds ≡ environment scope.now) }
{
    let mut kinds = Kinds::new(alloc);
    for (name, kind) in scope {
        kinds.enter_first(*name, *kind)?;
    }
    Ok(kinds)
}
