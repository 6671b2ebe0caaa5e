ghost use Rattle.std.specs.Prelude.{◌≡◌, ◌++◌, ◌∷◌, [], ◌&&◌, not, OnOk};
ghost use Rattle.occ_parse_forms.specs.Lines.{kind_words, mark_words};
ghost use Rattle.occ_syntax.specs.View.{exp, exps, numbers, waiting};
ghost use Rattle.occ_print.specs.Symbols.{assign_symbols, comma_behind, declaration_symbols, guard_symbols, header_symbols, is_ready, is_true, name_symbol, named_symbols, receive_symbols, send_symbols, separated, waiting_symbols, whole_symbols};

use crate::expression::push_expression;
use occ_parse_forms::{Keyword, Sign, Symbol, Symbols};
use occ_syntax::{Dir, Expr, Guard, Kind, Memory, Name, Wait};

/// Adds the symbols of an assignment.
pub fn push_assignment(symbols: &mut Symbols, vars: &[Name], values: &[Expr]) -> Result<(), Memory>
    ensures { OnOk result (symbols.new ≡ symbols.old ++ assign_symbols (numbers vars.now) (exps values.now)) }
{
    push_names(symbols, vars)?;
    symbols.push(Symbol::Sign(Sign::Becomes))?;
    push_values(symbols, values)
}

fn push_names(symbols: &mut Symbols, names: &[Name]) -> Result<(), Memory>
    ensures { OnOk result (symbols.new ≡ symbols.old ++ separated (λ x. name_symbol x ∷ []) (numbers names.now)) }
{
    let mut first = true;
    for name in names {
        push_comma(symbols, first)?;
        symbols.push(Symbol::Name(*name))?;
        first = false;
    }
    Ok(())
}

fn push_values(symbols: &mut Symbols, values: &[Expr]) -> Result<(), Memory>
    ensures { OnOk result (symbols.new ≡ symbols.old ++ separated whole_symbols (exps values.now)) }
{
    let mut first = true;
    for value in values {
        push_comma(symbols, first)?;
        push_expression(symbols, false, value)?;
        first = false;
    }
    Ok(())
}

// a comma in front of all but the first
fn push_comma(symbols: &mut Symbols, first: bool) -> Result<(), Memory>
    ensures { OnOk result (symbols.new ≡ symbols.old ++ comma_behind first) }
{
    if first {
        return Ok(());
    }
    symbols.push(Symbol::Sign(Sign::Comma))
}

/// Adds the symbols of an input.
pub fn push_input(symbols: &mut Symbols, chan: Name, var: Name) -> Result<(), Memory>
    ensures { OnOk result (symbols.new ≡ symbols.old ++ receive_symbols chan.0 var.0) }
{
    symbols.push(Symbol::Name(chan))?;
    symbols.push(Symbol::Sign(Sign::Query))?;
    symbols.push(Symbol::Name(var))
}

/// Adds the symbols of an output.
pub fn push_output(symbols: &mut Symbols, chan: Name, value: &Expr) -> Result<(), Memory>
    ensures { OnOk result (symbols.new ≡ symbols.old ++ send_symbols chan.0 (exp value.now)) }
{
    symbols.push(Symbol::Name(chan))?;
    symbols.push(Symbol::Sign(Sign::Bang))?;
    push_expression(symbols, false, value)
}

/// Adds the symbols of a guard, without its condition where that is TRUE and the guard isn't SKIP.
pub fn push_guard(symbols: &mut Symbols, guard: &Guard) -> Result<(), Memory>
    ensures { OnOk result (symbols.new ≡ symbols.old ++ guard_symbols (exp guard.now.condition) (waiting guard.now.wait)) }
{
    if !has_no_condition(guard) {
        push_expression(symbols, false, &guard.condition)?;
        symbols.push(Symbol::Sign(Sign::Ampersand))?;
    }
    push_wait(symbols, &guard.wait)
}

/// Whether a guard is printed without its condition.
pub fn has_no_condition(guard: &Guard) -> bool
    ensures { result ≡ (is_true (exp guard.now.condition) && not (is_ready (waiting guard.now.wait))) }
{
    match guard.condition {
        Expr::Bool(true) => match guard.wait {
            Wait::Skip => false,
            _ => true,
        },
        _ => false,
    }
}

fn push_wait(symbols: &mut Symbols, wait: &Wait) -> Result<(), Memory>
    ensures { OnOk result (symbols.new ≡ symbols.old ++ waiting_symbols (waiting wait.now)) }
{
    match wait {
        Wait::Skip => symbols.push(Symbol::Keyword(Keyword::Skip)),
        Wait::Get { chan, var } => push_input(symbols, *chan, *var),
        Wait::Put { chan, value } => push_output(symbols, *chan, value),
    }
}

fn push_kind(symbols: &mut Symbols, kind: Kind) -> Result<(), Memory>
    ensures { OnOk result (symbols.new ≡ symbols.old ++ kind_words kind) }
{
    match kind {
        Kind::Var(width) => symbols.push(Symbol::Keyword(Keyword::Width(width))),
        Kind::Chan(width, _) => {
            symbols.push(Symbol::Keyword(Keyword::Chan))?;
            symbols.push(Symbol::Keyword(Keyword::Of))?;
            symbols.push(Symbol::Keyword(Keyword::Width(width)))
        }
    }
}

fn push_mark(symbols: &mut Symbols, kind: Kind) -> Result<(), Memory>
    ensures { OnOk result (symbols.new ≡ symbols.old ++ mark_words kind) }
{
    match kind {
        Kind::Var(_) | Kind::Chan(_, None) => Ok(()),
        Kind::Chan(_, Some(Dir::Input)) => symbols.push(Symbol::Sign(Sign::Query)),
        Kind::Chan(_, Some(Dir::Output)) => symbols.push(Symbol::Sign(Sign::Bang)),
    }
}

/// Adds the symbols of a declaration.
pub fn push_declaration(symbols: &mut Symbols, name: Name, kind: Kind) -> Result<(), Memory>
    ensures { OnOk result (symbols.new ≡ symbols.old ++ declaration_symbols name.0 kind) }
{
    push_kind(symbols, kind)?;
    symbols.push(Symbol::Name(name))?;
    symbols.push(Symbol::Sign(Sign::Colon))
}

fn push_param(symbols: &mut Symbols, name: Name, kind: Kind) -> Result<(), Memory>
    ensures { OnOk result (symbols.new ≡ symbols.old ++ named_symbols name.0 kind) }
{
    push_kind(symbols, kind)?;
    symbols.push(Symbol::Name(name))?;
    push_mark(symbols, kind)
}

/// Adds the symbols of a header.
pub fn push_header(symbols: &mut Symbols, name: Name, params: &[(Name, Kind)]) -> Result<(), Memory>
    ensures { OnOk result (symbols.new ≡ symbols.old ++ header_symbols name.0 params.now) }
{
    symbols.push(Symbol::Keyword(Keyword::Proc))?;
    symbols.push(Symbol::Name(name))?;
    symbols.push(Symbol::Sign(Sign::Open))?;
    push_params(symbols, params)?;
    symbols.push(Symbol::Sign(Sign::Close))
}

fn push_params(symbols: &mut Symbols, params: &[(Name, Kind)]) -> Result<(), Memory>
    ensures { OnOk result (symbols.new ≡ symbols.old ++ separated (λ p. named_symbols p.0.0 p.1) params.now) }
{
    let mut first = true;
    for (name, kind) in params {
        push_comma(symbols, first)?;
        push_param(symbols, *name, *kind)?;
        first = false;
    }
    Ok(())
}
