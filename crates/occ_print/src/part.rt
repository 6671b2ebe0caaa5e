ghost use Rattle.std.specs.Prelude.{◌≡◌, ◌++◌, false, OnOk};
ghost use Rattle.occ_syntax.specs.Declarations.{is_declaration};
ghost use Rattle.std.specs.List.{AllByRecursion};
ghost use Rattle.occ_parse_forms.specs.occ_lex.Printed.{printed_line};
ghost use Rattle.occ_parse_forms.specs.occ_lex.Symbols.{IsKnown};
ghost use Rattle.occ_syntax.specs.View.{exp, exps, numbers, tree, trees, cases, branches, waiting};
ghost use Rattle.occ_print.specs.Known.{LinesAreKnown};
ghost use Rattle.occ_print.specs.Levels.{level_of};
ghost use Rattle.occ_print.specs.Lines.{all_lines, branch_lines, case_lines, line, part_lines};
ghost use Rattle.occ_print.specs.Spelled.{lines_text, printed};
ghost use Rattle.occ_print.specs.Symbols.{assign_symbols, declaration_symbols, guard_symbols, receive_symbols, send_symbols, whole_symbols, word_symbol};

use crate::expression::push_expression;
use crate::level::Level;
use crate::line::push_line;
use crate::simple::{push_assignment, push_declaration, push_guard, push_input, push_output};
use occ_parse_forms::{Keyword, Symbol, Symbols};
use occ_syntax::{Expr, Guard, Kind, Memory, Name, Names, Proc};
use std::alloc::Global;

/// Adds the lines of a part at a level. A row of declarations is gone through in a loop, since there may be thousands.
#[cycle(part)]
pub fn push_part(
    alloc: Global,
    text: &mut Vec<u8>,
    names: &Names,
    level: &Level,
    part: &Proc,
) -> Result<(), Memory>
    requires { LinesAreKnown names.now (part_lines (level_of level.now) (tree part.now)) }
    ensures { OnOk result (text.new.items ≡ text.old.items ++ lines_text names.now (part_lines (level_of level.now) (tree part.now))) }
{
    let mut rest = part;
    while let Some((name, kind, body)) = rest.declared() {
        push_declaration_line(alloc, text, names, level, name, kind)?;
        rest = body;
    }
    push_undeclared(alloc, text, names, level, rest)
}

#[tactic(auto, unfolding(crate::specs::tree))]
#[cycle(part)]
fn push_undeclared(
    alloc: Global,
    text: &mut Vec<u8>,
    names: &Names,
    level: &Level,
    part: &Proc,
) -> Result<(), Memory>
    requires undeclared { is_declaration (tree part.now) ≡ false }
    requires known { LinesAreKnown names.now (part_lines (level_of level.now) (tree part.now)) }
    ensures { OnOk result (text.new.items ≡ text.old.items ++ lines_text names.now (part_lines (level_of level.now) (tree part.now))) }
{
    match part {
        Proc::Seq(parts) => {
            push_word(text, names, level, Keyword::Seq)?;
            push_all(alloc, text, names, &Level::Below(&*level), parts.items())
        }
        Proc::Par(parts) => {
            push_word(text, names, level, Keyword::Par)?;
            push_all(alloc, text, names, &Level::Below(&*level), parts.items())
        }
        Proc::If(choices) => {
            push_word(text, names, level, Keyword::If)?;
            push_choices(alloc, text, names, &Level::Below(&*level), choices.items())
        }
        Proc::Alt(alternatives) => {
            push_word(text, names, level, Keyword::Alt)?;
            push_alternatives(
                alloc,
                text,
                names,
                &Level::Below(&*level),
                alternatives.items(),
            )
        }
        Proc::Skip => push_word(text, names, level, Keyword::Skip),
        Proc::Stop => push_word(text, names, level, Keyword::Stop),
        Proc::Assign { vars, values } => {
            push_assignment_line(alloc, text, names, level, vars.items(), values.items())
        }
        Proc::Input { chan, var } => push_input_line(alloc, text, names, level, *chan, *var),
        Proc::Output { chan, value } => push_output_line(alloc, text, names, level, *chan, value),
        Proc::Var { .. } | Proc::Chan { .. } => unreachable!(),
    }
}

#[cycle(part)]
fn push_all(
    alloc: Global,
    text: &mut Vec<u8>,
    names: &Names,
    level: &Level,
    parts: &[Proc],
) -> Result<(), Memory>
    requires { LinesAreKnown names.now (all_lines (level_of level.now) (trees parts.now)) }
    ensures { OnOk result (text.new.items ≡ text.old.items ++ lines_text names.now (all_lines (level_of level.now) (trees parts.now))) }
{
    for part in parts {
        push_part(alloc, text, names, level, part)?;
    }
    Ok(())
}

#[cycle(part)]
fn push_choices(
    alloc: Global,
    text: &mut Vec<u8>,
    names: &Names,
    level: &Level,
    choices: &[(Expr, Proc)],
) -> Result<(), Memory>
    requires { LinesAreKnown names.now (case_lines (level_of level.now) (cases choices.now)) }
    ensures { OnOk result (text.new.items ≡ text.old.items ++ lines_text names.now (case_lines (level_of level.now) (cases choices.now))) }
{
    for (condition, part) in choices {
        push_condition_line(alloc, text, names, level, condition)?;
        push_part(alloc, text, names, &Level::Below(&*level), part)?;
    }
    Ok(())
}

#[cycle(part)]
fn push_alternatives(
    alloc: Global,
    text: &mut Vec<u8>,
    names: &Names,
    level: &Level,
    alternatives: &[(Guard, Proc)],
) -> Result<(), Memory>
    requires { LinesAreKnown names.now (branch_lines (level_of level.now) (branches alternatives.now)) }
    ensures { OnOk result (text.new.items ≡ text.old.items ++ lines_text names.now (branch_lines (level_of level.now) (branches alternatives.now))) }
{
    for (guard, part) in alternatives {
        push_guard_line(alloc, text, names, level, guard)?;
        push_part(alloc, text, names, &Level::Below(&*level), part)?;
    }
    Ok(())
}

fn push_word(
    text: &mut Vec<u8>,
    names: &Names,
    level: &Level,
    keyword: Keyword,
) -> Result<(), Memory>
    ensures { OnOk result (text.new.items ≡ text.old.items ++ printed_line (printed names.now (line (level_of level.now) (word_symbol keyword)))) }
{
    push_line(text, names, level, &[Symbol::Keyword(keyword)])
}

fn push_declaration_line(
    alloc: Global,
    text: &mut Vec<u8>,
    names: &Names,
    level: &Level,
    name: Name,
    kind: Kind,
) -> Result<(), Memory>
    requires { AllByRecursion (IsKnown names.now) (declaration_symbols name.0 kind) }
    ensures { OnOk result (text.new.items ≡ text.old.items ++ printed_line (printed names.now (line (level_of level.now) (declaration_symbols name.0 kind)))) }
{
    let mut symbols = Symbols::new(alloc);
    push_declaration(&mut symbols, name, kind)?;
    push_line(text, names, level, symbols.items())
}

fn push_condition_line(
    alloc: Global,
    text: &mut Vec<u8>,
    names: &Names,
    level: &Level,
    condition: &Expr,
) -> Result<(), Memory>
    requires { AllByRecursion (IsKnown names.now) (whole_symbols (exp condition.now)) }
    ensures { OnOk result (text.new.items ≡ text.old.items ++ printed_line (printed names.now (line (level_of level.now) (whole_symbols (exp condition.now))))) }
{
    let mut symbols = Symbols::new(alloc);
    push_expression(&mut symbols, false, condition)?;
    push_line(text, names, level, symbols.items())
}

fn push_guard_line(
    alloc: Global,
    text: &mut Vec<u8>,
    names: &Names,
    level: &Level,
    guard: &Guard,
) -> Result<(), Memory>
    requires { AllByRecursion (IsKnown names.now) (guard_symbols (exp guard.now.condition) (waiting guard.now.wait)) }
    ensures { OnOk result (text.new.items ≡ text.old.items ++ printed_line (printed names.now (line (level_of level.now) (guard_symbols (exp guard.now.condition) (waiting guard.now.wait))))) }
{
    let mut symbols = Symbols::new(alloc);
    push_guard(&mut symbols, guard)?;
    push_line(text, names, level, symbols.items())
}

fn push_assignment_line(
    alloc: Global,
    text: &mut Vec<u8>,
    names: &Names,
    level: &Level,
    vars: &[Name],
    values: &[Expr],
) -> Result<(), Memory>
    requires { AllByRecursion (IsKnown names.now) (assign_symbols (numbers vars.now) (exps values.now)) }
    ensures { OnOk result (text.new.items ≡ text.old.items ++ printed_line (printed names.now (line (level_of level.now) (assign_symbols (numbers vars.now) (exps values.now))))) }
{
    let mut symbols = Symbols::new(alloc);
    push_assignment(&mut symbols, vars, values)?;
    push_line(text, names, level, symbols.items())
}

fn push_input_line(
    alloc: Global,
    text: &mut Vec<u8>,
    names: &Names,
    level: &Level,
    chan: Name,
    var: Name,
) -> Result<(), Memory>
    requires { AllByRecursion (IsKnown names.now) (receive_symbols chan.0 var.0) }
    ensures { OnOk result (text.new.items ≡ text.old.items ++ printed_line (printed names.now (line (level_of level.now) (receive_symbols chan.0 var.0)))) }
{
    let mut symbols = Symbols::new(alloc);
    push_input(&mut symbols, chan, var)?;
    push_line(text, names, level, symbols.items())
}

fn push_output_line(
    alloc: Global,
    text: &mut Vec<u8>,
    names: &Names,
    level: &Level,
    chan: Name,
    value: &Expr,
) -> Result<(), Memory>
    requires { AllByRecursion (IsKnown names.now) (send_symbols chan.0 (exp value.now)) }
    ensures { OnOk result (text.new.items ≡ text.old.items ++ printed_line (printed names.now (line (level_of level.now) (send_symbols chan.0 (exp value.now))))) }
{
    let mut symbols = Symbols::new(alloc);
    push_output(&mut symbols, chan, value)?;
    push_line(text, names, level, symbols.items())
}
