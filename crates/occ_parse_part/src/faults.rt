//! The faults of a part's lines in a scope.

ghost use Rattle.std.specs.Prelude.{◌≡◌, None, true, IfOk};
ghost use Rattle.occ_parse_rules.specs.Forest.{forest};
ghost use Rattle.occ_parse.specs.occ_parse_types.Asking.{plain_counters};
ghost use Rattle.occ_parse.specs.Drafts.{name_fault_on, type_fault_on};
ghost use Rattle.occ_parse_part.specs.Resolving.{fault_in};

use occ_parse::{ParseFault, Scopes, direction_fault_in, name_fault_in, type_fault_in};
use occ_parse_rules::{NameFault, Node, TypeFault};
use occ_syntax::Memory;
use std::alloc::Global;

fn of_names(line: u32, fault: NameFault) -> ParseFault
    ensures { result ≡ name_fault_on line fault }
{
    match fault {
        NameFault::Undeclared => ParseFault::Undeclared { line },
        NameFault::Redeclared => ParseFault::Redeclared { line },
        NameFault::Index => ParseFault::Index { line },
    }
}

fn of_types(line: u32, fault: TypeFault) -> ParseFault
    ensures { result ≡ type_fault_on line fault }
{
    match fault {
        TypeFault::TypeClash => ParseFault::TypeClash { line },
        TypeFault::NoType => ParseFault::NoType { line },
    }
}

/// The first fault of lines in a scope: of names, of types, of directions; None where there is none, and then the scope
/// is as before.
pub fn fault_in(
    alloc: Global,
    scopes: &mut Scopes,
    nodes: &[Node],
) -> Result<Option<ParseFault>, Memory>
    requires { plain_counters scopes.old ≡ true }
    ensures fault { IfOk result (λ r. r ≡ fault_in scopes.old (forest nodes.now)) }
    ensures same { IfOk result (λ r. r ≡ None → scopes.new ≡ scopes.old) }
{
    if let Some((line, fault)) = name_fault_in(alloc, scopes, nodes)? {
        return Ok(Some(of_names(line, fault)));
    }
    if let Some((line, fault)) = type_fault_in(scopes, nodes)? {
        return Ok(Some(of_types(line, fault)));
    }
    match direction_fault_in(scopes, nodes)? {
        Some(line) => Ok(Some(ParseFault::Direction { line })),
        None => Ok(None),
    }
}
