ghost use Rattle.std.specs.Prelude.{◌≡◌, ◌++◌, OnOk, replicate};
ghost use Rattle.std.specs.List.{AllByRecursion};
ghost use Rattle.occ_parse_forms.specs.occ_lex.Printed.{pieces_text, printed_line};
ghost use Rattle.occ_parse_forms.specs.occ_lex.Symbols.{IsKnown};
ghost use Rattle.occ_print.specs.Levels.{level_of};
ghost use Rattle.occ_print.specs.Lines.{line};
ghost use Rattle.occ_print.specs.Spelled.{gap, is_header, is_mark, is_numeral, is_tight, leans, opens, pieces, printed};

use crate::level::{Level, push_margin};
use crate::spelling::push_symbol;
use occ_parse_forms::{Keyword, Sign, Symbol};
use occ_syntax::{Memory, Names};

/// Adds a line: its margin, its symbols and a line feed.
pub fn push_line(
    text: &mut Vec<u8>,
    names: &Names,
    level: &Level,
    symbols: &[Symbol],
) -> Result<(), Memory>
    requires { AllByRecursion (IsKnown names.now) symbols.now }
    ensures { OnOk result (text.new.items ≡ text.old.items ++ printed_line (printed names.now (line (level_of level.now) symbols.now))) }
{
    push_margin(text, level)?;
    push_symbols(text, names, symbols)?;
    text.extend_from_slice(b"\n")?;
    Ok(())
}

fn push_symbols(text: &mut Vec<u8>, names: &Names, symbols: &[Symbol]) -> Result<(), Memory>
    requires { AllByRecursion (IsKnown names.now) symbols.now }
    ensures { OnOk result (text.new.items ≡ text.old.items ++ pieces_text (pieces names.now symbols.now)) }
{
    let header = begins_header(symbols);
    let mut before = None;
    for symbol in symbols {
        push_gap(text, header, before, *symbol)?;
        push_symbol(text, names, *symbol)?;
        before = Some(*symbol);
    }
    Ok(())
}

fn begins_header(symbols: &[Symbol]) -> bool
    ensures { result ≡ is_header symbols.now }
{
    match symbols {
        [Symbol::Keyword(Keyword::Proc), ..] => true,
        _ => false,
    }
}

fn push_gap(
    text: &mut Vec<u8>,
    header: bool,
    before: Option<Symbol>,
    next: Symbol,
) -> Result<(), Memory>
    ensures { OnOk result (text.new.items ≡ text.old.items ++ replicate (gap header before next) 32) }
{
    if let Some(before) = before {
        if !stands_close(header, before, next) {
            text.extend_from_slice(b" ")?;
        }
    }
    Ok(())
}

/// Whether no space stands between two symbols.
fn stands_close(header: bool, before: Symbol, next: Symbol) -> bool
    ensures { result ≡ is_tight header before next }
{
    is_opening(before)
        || leans_back(next)
        || header && is_direction(next)
        || is_number(before) && is_opening(next)
}

fn is_opening(symbol: Symbol) -> bool
    ensures { result ≡ opens symbol }
{
    match symbol {
        Symbol::Sign(Sign::Open) => true,
        _ => false,
    }
}

fn leans_back(symbol: Symbol) -> bool
    ensures { result ≡ leans symbol }
{
    match symbol {
        Symbol::Sign(Sign::Close | Sign::Comma | Sign::Colon) => true,
        _ => false,
    }
}

fn is_direction(symbol: Symbol) -> bool
    ensures { result ≡ is_mark symbol }
{
    match symbol {
        Symbol::Sign(Sign::Query | Sign::Bang) => true,
        _ => false,
    }
}

fn is_number(symbol: Symbol) -> bool
    ensures { result ≡ is_numeral symbol }
{
    match symbol {
        Symbol::Numeral(_) => true,
        _ => false,
    }
}
