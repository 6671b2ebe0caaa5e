ghost use Rattle.std.specs.Prelude.{◌≡◌, ◌∷◌, [], false, length};
ghost use Rattle.occ_syntax.specs.Counts.{capped};
ghost use Rattle.occ_syntax.specs.Declarations.{is_declaration};
ghost use Rattle.occ_syntax.specs.View.{exp, exps, numbers, tree, trees, cases, branches, waiting};
ghost use Rattle.occ_print.specs.Lines.{all_lines, branch_lines, case_lines, most_symbols, part_lines};
ghost use Rattle.occ_print.specs.Symbols.{declaration_symbols, exp_symbols, guard_symbols, in_brackets, name_symbol, separated, waiting_symbols, whole_symbols};

use crate::expression::{has_numerals_alone, has_operator, is_chained};
use crate::simple::has_no_condition;
use occ_syntax::{Expr, Guard, Kind, Name, Proc, Wait};

/// The greatest number of tokens on a printed line of a part. An element of an array counts as one token, as a name
/// does. A count that no `u64` holds is answered as the greatest `u64`. It takes no memory.
#[cycle(widest)]
pub fn line_tokens(part: &Proc) -> u64
    ensures { result ≡ capped (most_symbols (part_lines 0 (tree part.now))) }
{
    let mut most: u64 = 0;
    let mut rest = part;
    while let Some((_, kind, body)) = rest.declared() {
        most = most.max(declaration_tokens(kind));
        rest = body;
    }
    most.max(undeclared_tokens(rest))
}

#[tactic(auto, unfolding(crate::specs::tree))]
#[cycle(widest)]
fn undeclared_tokens(part: &Proc) -> u64
    requires { is_declaration (tree part.now) ≡ false }
    ensures { result ≡ capped (most_symbols (part_lines 0 (tree part.now))) }
{
    match part {
        Proc::Skip | Proc::Stop => 1,
        Proc::Assign { vars, values } => {
            let names = separated_names(vars.items());
            names
                .saturating_add(1)
                .saturating_add(separated_tokens(values.items()))
        }
        Proc::Input { .. } => 3,
        Proc::Output { value, .. } => expression_tokens(value, false).saturating_add(2),
        Proc::Seq(parts) => tokens_of_all(parts.items()).max(1),
        Proc::Par(parts) => tokens_of_all(parts.items()).max(1),
        Proc::If(choices) => tokens_of_choices(choices.items()).max(1),
        Proc::Alt(alternatives) => tokens_of_alternatives(alternatives.items()).max(1),
        Proc::Var { .. } | Proc::Chan { .. } => unreachable!(),
    }
}

#[cycle(widest)]
fn tokens_of_all(parts: &[Proc]) -> u64
    ensures { result ≡ capped (most_symbols (all_lines 0 (trees parts.now))) }
{
    let mut most: u64 = 0;
    for part in parts {
        most = most.max(line_tokens(part));
    }
    most
}

#[cycle(widest)]
fn tokens_of_choices(choices: &[(Expr, Proc)]) -> u64
    ensures { result ≡ capped (most_symbols (case_lines 0 (cases choices.now))) }
{
    let mut most: u64 = 0;
    for (condition, part) in choices {
        most = most
            .max(expression_tokens(condition, false))
            .max(line_tokens(part));
    }
    most
}

#[cycle(widest)]
fn tokens_of_alternatives(alternatives: &[(Guard, Proc)]) -> u64
    ensures { result ≡ capped (most_symbols (branch_lines 0 (branches alternatives.now))) }
{
    let mut most: u64 = 0;
    for (guard, part) in alternatives {
        most = most.max(guard_tokens(guard)).max(line_tokens(part));
    }
    most
}

fn declaration_tokens(kind: Kind) -> u64
    ensures { result ≡ length (declaration_symbols 0 kind) }
{
    match kind {
        Kind::Var(_) => 3,
        Kind::Chan(_, _) => 5,
    }
}

fn guard_tokens(guard: &Guard) -> u64
    ensures { result ≡ capped (length (guard_symbols (exp guard.now.condition) (waiting guard.now.wait))) }
{
    let wait = wait_tokens(&guard.wait);
    if has_no_condition(guard) {
        return wait;
    }
    expression_tokens(&guard.condition, false)
        .saturating_add(1)
        .saturating_add(wait)
}

fn wait_tokens(wait: &Wait) -> u64
    ensures { result ≡ capped (length (waiting_symbols (waiting wait.now))) }
{
    match wait {
        Wait::Skip => 1,
        Wait::Get { .. } => 3,
        Wait::Put { value, .. } => expression_tokens(value, false).saturating_add(2),
    }
}

/// The tokens of names with commas between them.
fn separated_names(names: &[Name]) -> u64
    ensures { result ≡ capped (length (separated (λ x. name_symbol x ∷ []) (numbers names.now))) }
{
    let count = names.len() as u64;
    count.saturating_mul(2).saturating_sub(1)
}

/// The tokens of values with commas between them.
fn separated_tokens(values: &[Expr]) -> u64
    ensures { result ≡ capped (length (separated whole_symbols (exps values.now))) }
{
    let mut count: u64 = 0;
    let mut commas: u64 = 0;
    for value in values {
        count = count
            .saturating_add(commas)
            .saturating_add(expression_tokens(value, false));
        commas = 1;
    }
    count
}

#[cycle(tokens)]
fn expression_tokens(expr: &Expr, wide: bool) -> u64
    ensures { result ≡ capped (length (exp_symbols wide (exp expr.now))) }
{
    match expr {
        Expr::Var(_) | Expr::Bool(_) => 1,
        Expr::Word { .. } => { if wide { 4 } else { 1 } }
        Expr::Not(operand) => operand_tokens(operand, wide, has_operator(operand)).saturating_add(
            1,
        ),
        Expr::Flip(operand) => operand_tokens(operand, wide, has_operator(operand)).saturating_add(
            1,
        ),
        Expr::Two(op, left, right) => {
            let wide = wide || has_numerals_alone(*op, left, right);
            let bracketed = has_operator(left) && !is_chained(*op, left);
            operand_tokens(left, wide, bracketed)
                .saturating_add(1)
                .saturating_add(operand_tokens(right, wide, has_operator(right)))
        }
    }
}

#[cycle(tokens)]
fn operand_tokens(operand: &Expr, wide: bool, bracketed: bool) -> u64
    ensures { result ≡ capped (length (in_brackets bracketed (exp_symbols wide (exp operand.now)))) }
{
    let count = expression_tokens(operand, wide);
    if bracketed {
        count.saturating_add(2)
    } else {
        count
    }
}
