//! The widths of channels, and the variables of widths.

ghost use Rattle.std.specs.Prelude.{◌≡◌, ◌≤◌};
ghost use Rattle.occ_target.specs.Inputs.{digit_of, is_input_of, is_input_width};
ghost use Rattle.occ_target.specs.Rows.{variable_of, width_in};

use occ_syntax::{Dir, Kind, Name, Width, same_width};

fn is_input_of(width: Width, kind: Kind) -> bool
    ensures { result ≡ is_input_of width kind }
{
    match kind {
        Kind::Chan(other, Some(Dir::Input)) => same_width(width, other),
        _ => false,
    }
}

/// Whether some parameter is a channel of that width from which a program inputs.
pub(crate) fn is_input_width(params: &[(Name, Kind)], width: Width) -> bool
    ensures { result ≡ is_input_width params.now width }
{
    match params {
        [] => false,
        [(_, kind), rest @ ..] => is_input_of(width, *kind) || is_input_width(rest, width),
    }
}

/// The bits of a word, and 0 for BOOL.
pub(crate) fn digit_of(width: Width) -> u8
    ensures { result ≡ digit_of width }
{
    match width {
        Width::Bool => 0,
        Width::Word(bits) => bits,
    }
}

/// The width of a channel.
pub(crate) fn width_in(params: &[(Name, Kind)], chan: Name) -> Width
    ensures { result ≡ width_in params.now chan.0 }
{
    for (name, kind) in params {
        if *name == chan {
            return match kind {
                Kind::Chan(width, _) => *width,
                Kind::Var(_) => Width::Bool,
            };
        }
    }
    Width::Bool
}

/// The variable of a width.
pub(crate) fn variable_of(inputs: &[(Name, Kind)], width: Width) -> Name
    ensures { result.0 ≡ variable_of inputs.now width }
{
    for (name, kind) in inputs {
        if let Kind::Var(other) = kind
            && same_width(width, *other)
        {
            return *name;
        }
    }
    Name(0)
}
