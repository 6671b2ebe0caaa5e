ghost use Rattle.std.specs.Prelude.{◌≡◌, ◌++◌, ◌&&◌, not, OnOk};
ghost use Rattle.occ_parse_forms.specs.Written.{op_word, truth_word};
ghost use Rattle.occ_syntax.specs.View.{exp};
ghost use Rattle.occ_print.specs.Symbols.{compares_numerals, exp_symbols, gives_word, goes_on, in_brackets, is_comparison, is_operation, numeral_symbols, of_numerals};

use occ_parse_forms::{Keyword, Sign, Symbol, Symbols};
use occ_syntax::{Expr, Memory, Op, Width};

/// Adds the symbols of an expression, whose numerals have their widths where `wide` says so.
#[cycle(expression)]
pub fn push_expression(symbols: &mut Symbols, wide: bool, expr: &Expr) -> Result<(), Memory>
    ensures { OnOk result (symbols.new ≡ symbols.old ++ exp_symbols wide (exp expr.now)) }
{
    match expr {
        Expr::Var(name) => symbols.push(Symbol::Name(*name)),
        Expr::Word { bits, value } => push_numeral(symbols, wide, *bits, *value),
        Expr::Bool(truth) => symbols.push(truth_symbol(*truth)),
        Expr::Not(operand) => {
            symbols.push(Symbol::Keyword(Keyword::Not))?;
            push_operand(symbols, wide, has_operator(operand), operand)
        }
        Expr::Flip(operand) => {
            symbols.push(Symbol::Sign(Sign::Flip))?;
            push_operand(symbols, wide, has_operator(operand), operand)
        }
        Expr::Two(op, left, right) => {
            let wide = wide || has_numerals_alone(*op, left, right);
            let bracketed = has_operator(left) && !is_chained(*op, left);
            push_operand(symbols, wide, bracketed, left)?;
            symbols.push(operator_symbol(*op))?;
            push_operand(symbols, wide, has_operator(right), right)
        }
    }
}

#[cycle(expression)]
fn push_operand(
    symbols: &mut Symbols,
    wide: bool,
    bracketed: bool,
    operand: &Expr,
) -> Result<(), Memory>
    ensures { OnOk result (symbols.new ≡ symbols.old ++ in_brackets bracketed (exp_symbols wide (exp operand.now))) }
{
    if !bracketed {
        return push_expression(symbols, wide, operand);
    }
    symbols.push(Symbol::Sign(Sign::Open))?;
    push_expression(symbols, wide, operand)?;
    symbols.push(Symbol::Sign(Sign::Close))
}

fn push_numeral(symbols: &mut Symbols, wide: bool, bits: u8, value: u8) -> Result<(), Memory>
    ensures { OnOk result (symbols.new ≡ symbols.old ++ numeral_symbols wide bits value) }
{
    symbols.push(Symbol::Numeral(value))?;
    if !wide {
        return Ok(());
    }
    symbols.push(Symbol::Sign(Sign::Open))?;
    symbols.push(Symbol::Keyword(Keyword::Width(Width::Word(bits))))?;
    symbols.push(Symbol::Sign(Sign::Close))
}

fn truth_symbol(truth: bool) -> Symbol
    ensures { result ≡ truth_word truth }
{
    if truth {
        Symbol::Keyword(Keyword::True)
    } else {
        Symbol::Keyword(Keyword::False)
    }
}

/// Whether an operator stands outermost.
pub fn has_operator(expr: &Expr) -> bool
    ensures { result ≡ is_operation (exp expr.now) }
{
    match expr {
        Expr::Not(_) | Expr::Flip(_) => true,
        Expr::Two(_, _, _) => true,
        _ => false,
    }
}

/// Whether an expression goes on to the left without brackets: an AND as an AND, an OR as an OR.
pub fn is_chained(op: Op, left: &Expr) -> bool
    ensures { result ≡ goes_on op (exp left.now) }
{
    match left {
        Expr::Two(inner, _, _) => match op {
            Op::And => matches!(*inner, Op::And),
            Op::Or => matches!(*inner, Op::Or),
            _ => false,
        },
        _ => false,
    }
}

/// Whether numerals alone are compared, so that nothing but they themselves can have a width.
pub fn has_numerals_alone(op: Op, left: &Expr, right: &Expr) -> bool
    ensures { result ≡ compares_numerals op (exp left.now) (exp right.now) }
{
    compares(op) && made_of_numerals(left) && made_of_numerals(right)
}

fn compares(op: Op) -> bool
    ensures { result ≡ is_comparison op }
{
    match op {
        Op::Equal | Op::Differ | Op::Less => true,
        Op::Greater | Op::AtMost | Op::AtLeast => true,
        _ => false,
    }
}

fn makes_word(op: Op) -> bool
    ensures { result ≡ gives_word op }
{
    match op {
        Op::Plus | Op::Minus => true,
        Op::BitAnd | Op::BitOr | Op::BitXor => true,
        _ => false,
    }
}

fn made_of_numerals(expr: &Expr) -> bool
    ensures { result ≡ of_numerals (exp expr.now) }
{
    match expr {
        Expr::Var(_) | Expr::Bool(_) | Expr::Not(_) => false,
        Expr::Word { .. } => true,
        Expr::Flip(operand) => made_of_numerals(operand),
        Expr::Two(op, left, right) => {
            makes_word(*op) && made_of_numerals(left) && made_of_numerals(right)
        }
    }
}

fn operator_symbol(op: Op) -> Symbol
    ensures { result ≡ op_word op }
{
    match op {
        Op::Plus => Symbol::Keyword(Keyword::Plus),
        Op::Minus => Symbol::Keyword(Keyword::Minus),
        Op::And => Symbol::Keyword(Keyword::And),
        Op::Or => Symbol::Keyword(Keyword::Or),
        Op::BitAnd => Symbol::Sign(Sign::BitAnd),
        Op::BitOr => Symbol::Sign(Sign::BitOr),
        Op::BitXor => Symbol::Sign(Sign::BitXor),
        Op::Equal => Symbol::Sign(Sign::Equal),
        Op::Differ => Symbol::Sign(Sign::Differ),
        Op::Less => Symbol::Sign(Sign::Less),
        Op::Greater => Symbol::Sign(Sign::Greater),
        Op::AtMost => Symbol::Sign(Sign::AtMost),
        Op::AtLeast => Symbol::Sign(Sign::AtLeast),
    }
}
