ghost use Rattle.std.specs.Prelude.{◌≡◌, [], true, IfOk, None};
ghost use Rattle.occ_parse_forms.specs.Shape.{shape};
ghost use Rattle.occ_parse_rules.specs.Forest.{forest};
ghost use Rattle.occ_parse_rules.specs.Judging.{first_fault};
ghost use Rattle.occ_parse_rules.specs.Names.{name_fault};
ghost use Rattle.occ_parse_rules.specs.Types.{type_fault};
ghost use Rattle.occ_parse_types.specs.Asking.{plain_counters};

use crate::line::{line_clashes, line_untyped};
use crate::lost::has_lost;
use occ_parse_forms::Form;
use occ_parse_rules::{Node, TypeFault};
use occ_parse_scopes::Scopes;
use occ_syntax::Memory;
use std::alloc::Global;

/// The fault of a line's types, where its names are in order.
fn line_fault(scopes: &Scopes, form: &Form) -> Option<TypeFault>
    requires kept { plain_counters scopes.now ≡ true }
    requires names { name_fault scopes.now (shape form.now) ≡ None }
    ensures { result ≡ type_fault scopes.now (shape form.now) }
{
    if has_lost(scopes, form) || line_clashes(scopes, form) {
        return Some(TypeFault::TypeClash);
    }
    if line_untyped(scopes, form) {
        return Some(TypeFault::NoType);
    }
    None
}

/// The first of the lines at one level, and of those below them, that has a fault in its types, and that fault. The scope
/// stays where there is none.
fn first_in(scopes: &mut Scopes, nodes: &[Node]) -> Result<Option<(u32, TypeFault)>, Memory>
    requires kept { plain_counters scopes.old ≡ true }
    requires names { first_fault name_fault scopes.old scopes.old (forest nodes.now) ≡ None }
    ensures fault { IfOk result (λ r. r ≡ first_fault type_fault scopes.old scopes.old (forest nodes.now)) }
    ensures same { IfOk result (λ r. r ≡ None → scopes.new ≡ scopes.old) }
{
    let outer = scopes.depth();
    for node in nodes {
        let (line, form, below) = node.seen();
        if let Some(fault) = line_fault(scopes, form) {
            return Ok(Some((line, fault)));
        }
        let depth = scopes.depth();
        scopes.enter(form)?;
        if let Some(found) = first_in(scopes, below)? {
            return Ok(Some(found));
        }
        scopes.close(depth);
        scopes.pass(form, outer)?;
    }
    scopes.close(outer);
    Ok(None)
}

/// The first line of a text that has a fault in its types, and that fault, where the names of all lines are in order; None
/// where no line has one. Each line is judged in its scope, for all values that the indices in scope take together: types
/// that differ come before a comparison of two operands without a width.
pub fn type_fault(alloc: Global, nodes: &[Node]) -> Result<Option<(u32, TypeFault)>, Memory>
    requires { first_fault name_fault [] [] (forest nodes.now) ≡ None }
    ensures { IfOk result (λ r. r ≡ first_fault type_fault [] [] (forest nodes.now)) }
{
    let mut scopes = Scopes::new(alloc);
    first_in(&mut scopes, nodes)
}

/// The same for lines that stand in a scope. The scope stays where there is no fault.
pub fn type_fault_in(
    scopes: &mut Scopes,
    nodes: &[Node],
) -> Result<Option<(u32, TypeFault)>, Memory>
    requires kept { plain_counters scopes.old ≡ true }
    requires names { first_fault name_fault scopes.old scopes.old (forest nodes.now) ≡ None }
    ensures fault { IfOk result (λ r. r ≡ first_fault type_fault scopes.old scopes.old (forest nodes.now)) }
    ensures same { IfOk result (λ r. r ≡ None → scopes.new ≡ scopes.old) }
{
    first_in(scopes, nodes)
}
