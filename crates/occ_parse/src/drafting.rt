//! What is wrong with lines that are well laid out.

ghost use Rattle.std.specs.Prelude.{◌≡◌, ◌*◌, ◌≤◌, ℕ, min, length, true, IfOk};
ghost use Rattle.occ_parse_rules.specs.Forest.{forest};
ghost use Rattle.occ_parse_rules.specs.Limits.{bits_in_scope};
ghost use Rattle.occ_parse_rules.specs.Places.{places as places_in};
ghost use Rattle.occ_parse_rules.specs.Programs.{param_scope};
ghost use Rattle.occ_parse_unroll.specs.Bits.{bits_of_params};
ghost use Rattle.occ_parse.specs.Drafts.{begins_with_header, draft_fault as fault_in_draft, limit_fault as fault_of_limit, name_fault_on, parameters, type_fault_on};

use crate::header::header_of;
use crate::limits::is_limited;
use crate::{Bound, ParseFault, Which};
use occ_parse_rules::{NameFault, Node, Param, ParseFormsDeclared as Declared, TypeFault};
use occ_parse_types::{direction_fault, name_fault, type_fault};
use occ_parse_unroll::{bits_fault, controls, count_fault};
use occ_syntax::Memory;
use std::alloc::Global;

const MOST_PARAMETERS: u64 = 16;

const MOST_CONTROLS: u64 = 4_096;

const MOST_BITS: u64 = 16;

/// One more than the most parameters and the most of their bits: a count that passes it stops there.
const STOP: u64 = 17;

fn of_names(line: u32, fault: NameFault) -> ParseFault
    ensures { result ≡ name_fault_on line fault }
{
    match fault {
        NameFault::Undeclared => ParseFault::Undeclared { line },
        NameFault::Redeclared => ParseFault::Redeclared { line },
        NameFault::Index => ParseFault::Index { line },
    }
}

fn of_types(line: u32, fault: TypeFault) -> ParseFault
    ensures { result ≡ type_fault_on line fault }
{
    match fault {
        TypeFault::TypeClash => ParseFault::TypeClash { line },
        TypeFault::NoType => ParseFault::NoType { line },
    }
}

/// How many parameters a declaration stands for.
fn places(declared: Declared) -> u64
    ensures number { result ≡ length (places_in declared) }
    ensures few { result ≤ 255 }
{
    match declared {
        Declared::Plain(_) => 1,
        Declared::Element(_, _) => 1,
        Declared::Array(_, count) => u64::from(count),
    }
}

/// How many parameters there are, counted up to 17.
fn parameter_count(params: &[Param]) -> u64
    ensures { result ≡ min 17 (parameters params.now) }
{
    let mut count = 0;
    for param in params {
        count = (count + places(param.declared)).min(STOP);
    }
    count
}

/// The bits of the variables among parameters, counted up to 17.
fn parameter_bits(params: &[Param]) -> u64
    ensures { result ≡ min 17 (bits_of_params params.now) }
{
    let mut bits = 0;
    for param in params {
        let each = u64::from(param.kind.bits());
        bits = (bits + places(param.declared) * each).min(STOP);
    }
    bits
}

/// The bits of the variables that are in scope below a header with those parameters, counted up to 17.
fn interface_bits(params: &[Param]) -> u64
    ensures { result ≡ min 17 (bits_in_scope (param_scope params.now)) }
{
    parameter_bits(params)
}

/// The first limit that a program is over.
fn limit_fault(nodes: &[Node]) -> Option<ParseFault>
    requires { begins_with_header (forest nodes.now) ≡ true }
    ensures { result ≡ fault_of_limit (forest nodes.now) }
{
    let header = header_of(nodes);
    let line = header.line;
    if parameter_count(header.params) > MOST_PARAMETERS {
        let which = Which::Parameters;
        return Some(ParseFault::Limit { which, line });
    }
    if let Some(line) = count_fault(nodes) {
        let which = Which::Count;
        return Some(ParseFault::Limit { which, line });
    }
    if controls(header.below) > MOST_CONTROLS {
        let which = Which::Controls;
        return Some(ParseFault::Limit { which, line });
    }
    if interface_bits(header.params) > MOST_BITS {
        let which = Which::InterfaceBits;
        return Some(ParseFault::Limit { which, line });
    }
    match bits_fault(header.params, header.below) {
        Some(line) => {
            let which = Which::ScopeBits;
            Some(ParseFault::Limit { which, line })
        }
        None => None,
    }
}

/// The first fault of lines that are well laid out: of names, of types, of directions, and then a limit. None where there
/// is none.
pub fn draft_fault(
    alloc: Global,
    bound: Bound,
    nodes: &[Node],
) -> Result<Option<ParseFault>, Memory>
    requires { begins_with_header (forest nodes.now) ≡ true }
    ensures { IfOk result (λ r. r ≡ fault_in_draft bound (forest nodes.now)) }
{
    if let Some((line, fault)) = name_fault(alloc, nodes)? {
        return Ok(Some(of_names(line, fault)));
    }
    if let Some((line, fault)) = type_fault(alloc, nodes)? {
        return Ok(Some(of_types(line, fault)));
    }
    if let Some(line) = direction_fault(alloc, nodes)? {
        return Ok(Some(ParseFault::Direction { line }));
    }
    if is_limited(bound) {
        return Ok(limit_fault(nodes));
    }
    Ok(None)
}
