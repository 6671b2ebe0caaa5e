//! The variables into which a normal program inputs.

ghost use Rattle.std.specs.Prelude.{◌≡◌, ◌≤◌, IfOk, OnErr, OnOk, filter, length, nat_le, true};
ghost use Rattle.std.specs.List.{list_all, list_any};
ghost use Rattle.std.specs.Str.{bytes_eq};
ghost use Rattle.occ_syntax.specs.Counts.{capped};
ghost use Rattle.occ_syntax.specs.occ_base.Names.{with_text};
ghost use Rattle.occ_nform_table.specs.Lines.{AreNamed, text_of};
ghost use Rattle.occ_target.specs.Inputs.{digit_of, input_name, input_names, input_text, input_variables, input_widths, is_input_width, names_with, variables_of};

use crate::widths::{digit_of, is_input_width};
use occ_syntax::{Kind, Memory, Name, Names, Scope, Width};
use std::alloc::Global;

/// All widths, BOOL first and then by bits.
const WIDTHS: [Width; 9] = [
    Width::Bool,
    Width::Word(1),
    Width::Word(2),
    Width::Word(3),
    Width::Word(4),
    Width::Word(5),
    Width::Word(6),
    Width::Word(7),
    Width::Word(8),
];

fn is_taken(names: &Names, params: &[(Name, Kind)], text: &[u8]) -> bool
    requires { AreNamed names.now params.now }
    ensures { result ≡ list_any (λ (p : Name × Kind). bytes_eq text.now (text_of names.now p.0)) params.now }
{
    match params {
        [] => false,
        [(name, _), rest @ ..] => text == names.text(*name) || is_taken(names, rest, text),
    }
}

/// The name of the variable of a width: t, the digit of the width, and as few dots as make it no parameter's name.
fn input_text(
    alloc: Global,
    names: &Names,
    params: &[(Name, Kind)],
    width: Width,
) -> Result<Vec<u8>, Memory>
    requires named { AreNamed names.now params.now }
    requires digit { digit_of width ≤ 9 }
    ensures { IfOk result (λ text. text.items ≡ input_text names.now params.now width) }
{
    let mut text = Vec::new(alloc);
    text.push(b't')?;
    text.push(b'0' + digit_of(width))?;
    for _ in params {
        if !is_taken(names, params, text.as_slice()) {
            return Ok(text);
        }
        text.push(b'.')?;
    }
    Ok(text)
}

/// The variable of a width, whose name is in the table afterwards.
fn input_name(
    alloc: Global,
    names: &mut Names,
    params: &[(Name, Kind)],
    width: Width,
) -> Result<Name, Memory>
    requires named { AreNamed names.old params.now }
    requires digit { digit_of width ≤ 9 }
    ensures name { IfOk result (λ name. name ≡ input_name names.old params.now width) }
    ensures table { OnOk result (names.new ≡ with_text names.old (input_text names.old params.now width)) }
    ensures err { OnErr result (names.new ≡ names.old) }
{
    let text = input_text(alloc, names, params, width)?;
    names.intern(text.as_slice())
}

/// How many of the widths input parameters have.
fn count_of(params: &[(Name, Kind)], widths: &[Width]) -> u64
    ensures { result ≡ capped (length (filter (is_input_width params.now) widths.now)) }
{
    let mut count: u64 = 0;
    for width in widths {
        if is_input_width(params, *width) {
            count = count.saturating_add(1);
        }
    }
    count
}

/// How many widths input parameters have.
pub(crate) fn width_count(params: &[(Name, Kind)]) -> u64
    ensures { result ≡ capped (length (input_widths params.now)) }
{
    count_of(params, &WIDTHS)
}

/// A variable for each of the widths that an input parameter has.
fn variables_of(
    alloc: Global,
    names: &mut Names,
    params: &[(Name, Kind)],
    widths: &[Width],
) -> Result<Scope, Memory>
    requires named { AreNamed names.old params.now }
    requires digits { list_all (λ w. nat_le (digit_of w) 9) widths.now ≡ true }
    ensures variables { IfOk result (λ inputs. inputs ≡ variables_of names.old params.now (filter (is_input_width params.now) widths.now)) }
    ensures table { OnOk result (names.new ≡ names_with names.old params.now (filter (is_input_width params.now) widths.now)) }
{
    let mut inputs = Scope::new(alloc);
    for width in widths {
        if is_input_width(params, *width) {
            let name = input_name(alloc, names, params, *width)?;
            inputs.push((name, Kind::Var(*width)))?;
        }
    }
    Ok(inputs)
}

/// The variables into which the normal program inputs: one for each width of an input parameter, in the order of widths. Their names
/// are in the table afterwards.
pub(crate) fn input_variables(
    alloc: Global,
    names: &mut Names,
    params: &[(Name, Kind)],
) -> Result<Scope, Memory>
    requires { AreNamed names.old params.now }
    ensures variables { IfOk result (λ inputs. inputs ≡ input_variables names.old params.now) }
    ensures table { OnOk result (names.new ≡ input_names names.old params.now) }
{
    variables_of(alloc, names, params, &WIDTHS)
}
