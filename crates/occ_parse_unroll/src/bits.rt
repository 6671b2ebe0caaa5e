ghost use Rattle.std.specs.Prelude.{◌≡◌, ◌≤◌, ◌*◌, min, []};
ghost use Rattle.occ_parse_forms.specs.Shape.{shape};
ghost use Rattle.occ_parse_rules.specs.Forest.{forest};
ghost use Rattle.occ_parse_rules.specs.Judging.{first_fault};
ghost use Rattle.occ_parse_rules.specs.Limits.{bits_fault as bits_fault_of, copied_lines, has_copies as has_copies_of};
ghost use Rattle.occ_parse_rules.specs.Places.{declared_in, param_entries};
ghost use Rattle.occ_syntax.specs.Counts.{bits_of_kind};
ghost use Rattle.occ_parse_unroll.specs.Bits.{bits_behind as bits_behind_of, bits_below as bits_below_of, bits_of_params, deeper_wide_line, is_wide as is_wide_line, wide_line};
ghost use Rattle.occ_parse_unroll.specs.Reading.{line_of};
ghost use Rattle.occ_parse_unroll.specs.Sizes.{names_in as names_of};

use crate::counting::{names_in, places};
use crate::reading::declaration;
use occ_parse_forms::{Declaration, Form, Param};
use occ_parse_rules::Node;

/// One more than the most bits of variables in scope: a count that passes it stops there.
const STOP: u64 = 25;

/// The first declaration line behind which more than 24 bits of variables are in scope, on the lines below a header with
/// those parameters. Lines of which there is no copy aren't judged. It takes no memory.
pub fn bits_fault(params: &[Param], nodes: &[Node]) -> Option<u32>
    ensures { let Γ = declared_in [] (param_entries params.now) in
        result ≡ line_of (first_fault bits_fault_of Γ Γ (copied_lines (forest nodes.now))) }
{
    wide(bits_of(params), nodes)
}

/// The bits of parameters together, counted up to 25.
fn bits_of(params: &[Param]) -> u64
    ensures sum { result ≡ min 25 (bits_of_params params.now) }
    ensures few { result ≤ 25 }
{
    let mut bits = 0;
    for param in params {
        let each = u64::from(param.kind.bits());
        bits = (bits + places(param.declared).saturating_mul(each).min(STOP)).min(STOP);
    }
    bits
}

/// The bits that a declaration line declares, counted up to 25.
fn declared_bits(declaration: &Declaration) -> u64
    ensures sum { result ≡ min 25 (names_of declaration.now.declared * bits_of_kind declaration.now.kind) }
    ensures few { result ≤ 25 }
{
    let each = u64::from(declaration.kind.bits());
    names_in(declaration.declared.items())
        .saturating_mul(each)
        .min(STOP)
}

/// Whether a line is a declaration that brings the bits in scope above 24.
fn is_wide(here: u64, form: &Form) -> bool
    requires { here ≤ 25 }
    ensures { result ≡ is_wide_line here (shape form.now) }
{
    match declaration(form) {
        Some(declaration) => here + declared_bits(declaration) > 24,
        None => false,
    }
}

/// The bits in scope on the lines below a line, counted up to 25.
fn bits_below(here: u64, form: &Form) -> u64
    requires { here ≤ 25 }
    ensures sum { result ≡ min 25 (bits_below_of here (shape form.now)) }
    ensures few { result ≤ 25 }
{
    match form {
        Form::Header { params, .. } => (here + bits_of(params.items())).min(STOP),
        _ => here,
    }
}

/// The bits in scope on the next line at a line's level, counted up to 25.
fn bits_behind(outer: u64, here: u64, form: &Form) -> u64
    requires here { here ≤ 25 }
    requires outer { outer ≤ 25 }
    ensures sum { result ≡ min 25 (bits_behind_of outer here (shape form.now)) }
    ensures few { result ≤ 25 }
{
    match declaration(form) {
        Some(declaration) => (here + declared_bits(declaration)).min(STOP),
        None => outer,
    }
}

fn has_copies(form: &Form) -> bool
    ensures { result ≡ has_copies_of (shape form.now) }
{
    match form {
        Form::Group { times, .. } => match times {
            Some(times) => times.count > 0,
            None => true,
        },
        _ => true,
    }
}

#[cycle(wide)]
fn wide(bits: u64, nodes: &[Node]) -> Option<u32>
    requires { bits ≤ 25 }
    ensures { result ≡ wide_line bits bits (forest nodes.now) }
{
    let mut here = bits;
    for node in nodes {
        let (line, form, below) = node.seen();
        if is_wide(here, form) {
            return Some(line);
        }
        if let Some(line) = deeper_wide(here, form, below) {
            return Some(line);
        }
        here = bits_behind(bits, here, form);
    }
    None
}

#[cycle(wide)]
fn deeper_wide(here: u64, form: &Form, below: &[Node]) -> Option<u32>
    requires { here ≤ 25 }
    ensures { result ≡ deeper_wide_line here (shape form.now) (forest below.now) }
{
    if has_copies(form) {
        wide(bits_below(here, form), below)
    } else {
        None
    }
}
