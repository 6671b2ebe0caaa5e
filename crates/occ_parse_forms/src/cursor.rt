ghost use Rattle.std.specs.Prelude.{◌≡◌, IfOk, map};
ghost use Rattle.occ_parse_forms.specs.Gives.{Finds};
ghost use Rattle.occ_parse_forms.specs.Symbols.{alone, behind, behind_sign, behind_word, cut, groups_of, name_first, numeral_first, width_first};

use occ_lex::{Keyword, Memory, Name, Sign, Symbol, Width};
use std::alloc::Global;

/// The symbols behind one, where it comes first.
fn behind(symbols: &[Symbol], wanted: Symbol) -> Option<&[Symbol]>
    ensures { Finds (λ rest. rest.now) result (behind wanted symbols.now) }
{
    match symbols {
        [first, rest @ ..] => { if *first == wanted { Some(rest) } else { None } }
        [] => None,
    }
}

pub fn behind_sign(symbols: &[Symbol], sign: Sign) -> Option<&[Symbol]>
    ensures { Finds (λ rest. rest.now) result (behind_sign sign symbols.now) }
{
    behind(symbols, Symbol::Sign(sign))
}

pub fn behind_word(symbols: &[Symbol], word: Keyword) -> Option<&[Symbol]>
    ensures { Finds (λ rest. rest.now) result (behind_word word symbols.now) }
{
    behind(symbols, Symbol::Keyword(word))
}

pub fn name_first(symbols: &[Symbol]) -> Option<(Name, &[Symbol])>
    ensures { Finds (λ found. (found.0, found.1.now)) result (name_first symbols.now) }
{
    match symbols {
        [first, rest @ ..] => match *first {
            Symbol::Name(name) => Some((name, rest)),
            _ => None,
        },
        [] => None,
    }
}

pub fn numeral_first(symbols: &[Symbol]) -> Option<(u8, &[Symbol])>
    ensures { Finds (λ found. (found.0, found.1.now)) result (numeral_first symbols.now) }
{
    match symbols {
        [first, rest @ ..] => match *first {
            Symbol::Numeral(value) => Some((value, rest)),
            _ => None,
        },
        [] => None,
    }
}

pub fn width_first(symbols: &[Symbol]) -> Option<(Width, &[Symbol])>
    ensures { Finds (λ found. (found.0, found.1.now)) result (width_first symbols.now) }
{
    match symbols {
        [first, rest @ ..] => match *first {
            Symbol::Keyword(word) => match word {
                Keyword::Width(width) => Some((width, rest)),
                _ => None,
            },
            _ => None,
        },
        [] => None,
    }
}

/// What was read, where nothing stands behind it.
pub fn alone<T: Copy>(found: T, rest: &[Symbol]) -> Option<T>
    ensures { result ≡ alone found rest.now }
{
    if rest.is_empty() { Some(found) } else { None }
}

/// The symbols in front of the first of a sign, and those behind it.
pub fn cut(symbols: &[Symbol], sign: Sign) -> Option<(&[Symbol], &[Symbol])>
    ensures { Finds (λ parts. (parts.0.now, parts.1.now)) result (cut sign symbols.now) }
{
    for (i, symbol) in symbols.iter().enumerate() {
        if *symbol == Symbol::Sign(sign) {
            return Some((&symbols[..i], &symbols[i + 1..]));
        }
    }
    None
}

/// The groups of symbols between commas.
pub fn groups<'a>(alloc: Global, symbols: &'a [Symbol]) -> Result<Vec<&'a [Symbol]>, Memory>
    ensures { IfOk result (λ groups. map (λ group. group.now) groups.items ≡ groups_of symbols.now) }
{
    let mut groups = Vec::new(alloc);
    let mut start = 0;
    for (i, symbol) in symbols.iter().enumerate() {
        if *symbol == Symbol::Sign(Sign::Comma) {
            groups.push(&symbols[start..i])?;
            start = i + 1;
        }
    }
    groups.push(&symbols[start..])?;
    Ok(groups)
}
