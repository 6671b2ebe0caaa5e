ghost use Rattle.std.specs.Prelude.{◌≡◌, ◌∷◌, [], ◌≤◌, Option, Some, None, codes};
ghost use Rattle.std.specs.List.{list_any};
ghost use Rattle.std.specs.Str.{bytes_eq};
ghost use Rattle.occ_syntax.specs.Counts.{bits_of_scope};
ghost use Rattle.occ_nform_table.specs.Words.{Finds};
ghost use Rattle.occ_nform_table.specs.Lines.{AreNamed, digit_width, width_of, is_plain, closes, is_param_name, named, channel_of, variable_of, behind_width, param_of, can_follow, next_param, text_of};

use crate::words::{before, behind, between, cut, small_number_of};
use occ_nform_table::{TokenKind, interface_bits, kind_of};
use occ_syntax::{Dir, Kind, Name, Names, Width};

fn digit_width(text: &[u8]) -> Option<Width>
    ensures { result ≡ digit_width text.now }
{
    match text {
        [digit] => {
            if *digit >= b'1' && *digit <= b'8' {
                Some(Width::Word(*digit - b'0'))
            } else {
                None
            }
        }
        _ => None,
    }
}

/// The width that a word names.
#[tactic(auto, unfolding(occ_nform_table::specs::Lines::width_of))]
fn width_of(word: &[u8]) -> Option<Width>
    ensures { result ≡ width_of word.now }
{
    if word == b"BOOL".as_slice() {
        return Some(Width::Bool);
    }
    match behind(b"WORD", word) {
        Some(digit) => digit_width(digit),
        None => None,
    }
}

/// Whether a text is a name as a program can have it.
#[tactic(auto, unfolding(occ_nform_table::specs::Lines::is_plain))]
fn is_plain(text: &[u8]) -> bool
    ensures { result ≡ is_plain text.now }
{
    text.len() <= 32 && matches!(kind_of(text), Some(TokenKind::Name))
}

/// Whether a text is the index of an element with the bracket behind it.
#[tactic(auto, unfolding(occ_nform_table::specs::Lines::closes))]
fn closes(text: &[u8]) -> bool
    ensures { result ≡ closes text.now }
{
    match before(b"]", text) {
        Some(index) => match small_number_of(index) {
            Some(place) => place <= 255,
            None => false,
        },
        None => false,
    }
}

/// Whether a text is the name of a parameter: a plain one, or an element's.
#[tactic(auto, unfolding(occ_nform_table::specs::Lines::is_param_name))]
fn is_param_name(text: &[u8]) -> bool
    ensures { result ≡ is_param_name text.now }
{
    match cut(b'[', text) {
        Some((name, index)) => is_plain(name) && closes(index),
        None => is_plain(text),
    }
}

fn named(text: &[u8], kind: Kind) -> Option<(&[u8], Kind)>
    ensures { Finds (λ p. (p.0.now, p.1)) result (named text.now kind) }
{
    if is_param_name(text) {
        Some((text, kind))
    } else {
        None
    }
}

#[tactic(auto, unfolding(occ_nform_table::specs::Lines::channel_of))]
fn channel_of(width: Width, text: &[u8]) -> Option<(&[u8], Kind)>
    ensures { Finds (λ p. (p.0.now, p.1)) result (channel_of width text.now) }
{
    if let Some(name) = before(b"?", text)
        && let Some(param) = named(name, Kind::Chan(width, Some(Dir::Input)))
    {
        return Some(param);
    }
    match before(b"!", text) {
        Some(name) => named(name, Kind::Chan(width, Some(Dir::Output))),
        None => None,
    }
}

#[tactic(auto, unfolding(occ_nform_table::specs::Lines::behind_width, occ_nform_table::specs::Lines::variable_of))]
fn variable_behind(text: &[u8]) -> Option<(&[u8], Kind)>
    ensures { Finds (λ p. (p.0.now, p.1)) result (behind_width variable_of text.now) }
{
    let Some((word, rest)) = cut(b' ', text) else {
        return None;
    };
    match width_of(word) {
        Some(width) => named(rest, Kind::Var(width)),
        None => None,
    }
}

#[tactic(auto, unfolding(occ_nform_table::specs::Lines::behind_width))]
fn channel_behind(text: &[u8]) -> Option<(&[u8], Kind)>
    ensures { Finds (λ p. (p.0.now, p.1)) result (behind_width channel_of text.now) }
{
    let Some((word, rest)) = cut(b' ', text) else {
        return None;
    };
    match width_of(word) {
        Some(width) => channel_of(width, rest),
        None => None,
    }
}

/// The parameter of a line, with its kind.
#[tactic(auto, unfolding(occ_nform_table::specs::Lines::param_of))]
fn param_of(line: &[u8]) -> Option<(&[u8], Kind)>
    ensures { Finds (λ p. (p.0.now, p.1)) result (param_of line.now) }
{
    let Some(text) = between(b"PARAM ", b"\n", line) else {
        return None;
    };
    if let Some(rest) = behind(b"CHAN OF ", text)
        && let Some(param) = channel_behind(rest)
    {
        return Some(param);
    }
    variable_behind(text)
}

fn is_among(names: &Names, params: &[(Name, Kind)], text: &[u8]) -> bool
    requires { AreNamed names.now params.now }
    ensures { result ≡ list_any (λ (q : Name × Kind). bytes_eq text.now (text_of names.now q.0)) params.now }
{
    match params {
        [] => false,
        [(name, _), rest @ ..] => text == names.text(*name) || is_among(names, rest, text),
    }
}

#[tactic(auto, unfolding(occ_nform_table::specs::Lines::can_follow))]
fn can_follow(names: &Names, params: &[(Name, Kind)], text: &[u8], kind: Kind) -> bool
    requires named { AreNamed names.now params.now }
    requires few { bits_of_scope params.now ≤ 16 }
    ensures { result ≡ can_follow names.now params.now (text.now, kind) }
{
    params.len() < 16
        && !is_among(names, params, text)
        && interface_bits(params) + u32::from(kind.bits()) <= 16
}

/// The parameter of a line that can follow those before it.
#[tactic(auto, unfolding(occ_nform_table::specs::Lines::next_param))]
pub fn next_param<'a>(
    names: &Names,
    params: &[(Name, Kind)],
    line: &'a [u8],
) -> Option<(&'a [u8], Kind)>
    requires named { AreNamed names.now params.now }
    requires few { bits_of_scope params.now ≤ 16 }
    ensures { Finds (λ p. (p.0.now, p.1)) result (next_param names.now params.now line.now) }
{
    match param_of(line) {
        Some((text, kind)) => {
            if can_follow(names, params, text, kind) {
                Some((text, kind))
            } else {
                None
            }
        }
        None => None,
    }
}
