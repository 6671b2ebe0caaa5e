ghost use Rattle.std.specs.Prelude.{◌≡◌, IfOk, length};
ghost use Rattle.occ_parse_forms.specs.Gives.{Finds, Gives};
ghost use Rattle.occ_parse_forms.specs.Reading.{expression_by, expression_of, further, is_chained, op_first, op_in, operand_within, operated, plain_operand, width_in_brackets};
ghost use Rattle.occ_parse_forms.specs.Shape.{all_said, operation, said};
ghost use Rattle.occ_parse_forms.specs.Symbols.{behind, each, groups_of};
ghost use Rattle.occ_parse_forms.specs.Written.{op_word};

use crate::cursor::{behind_sign, behind_word, groups, width_first};
use crate::fault::Fault;
use crate::item::item_behind;
use crate::{Phrase, Phrases};
use occ_lex::{Keyword, Memory, Sign, Symbol, Width};
use occ_syntax::Op;
use std::alloc::Global;

fn op_in(symbol: Symbol) -> Option<Op>
    ensures { result ≡ op_in symbol }
{
    match symbol {
        Symbol::Keyword(word) => match word {
            Keyword::Plus => Some(Op::Plus),
            Keyword::Minus => Some(Op::Minus),
            Keyword::And => Some(Op::And),
            Keyword::Or => Some(Op::Or),
            _ => None,
        },
        Symbol::Sign(sign) => match sign {
            Sign::BitAnd => Some(Op::BitAnd),
            Sign::BitOr => Some(Op::BitOr),
            Sign::BitXor => Some(Op::BitXor),
            Sign::Equal => Some(Op::Equal),
            Sign::Differ => Some(Op::Differ),
            Sign::Less => Some(Op::Less),
            Sign::Greater => Some(Op::Greater),
            Sign::AtMost => Some(Op::AtMost),
            Sign::AtLeast => Some(Op::AtLeast),
            _ => None,
        },
        _ => None,
    }
}

fn op_first(symbols: &[Symbol]) -> Option<(Op, &[Symbol])>
    ensures { Finds (λ found. (found.0, found.1.now)) result (op_first symbols.now) }
{
    match symbols {
        [first, rest @ ..] => Some((op_in(*first)?, rest)),
        [] => None,
    }
}

/// The symbols behind an operator, where it comes first.
fn behind_op(symbols: &[Symbol], op: Op) -> Option<&[Symbol]>
    ensures { Finds (λ rest. rest.now) result (behind (op_word op) symbols.now) }
{
    match op {
        Op::Plus => behind_word(symbols, Keyword::Plus),
        Op::Minus => behind_word(symbols, Keyword::Minus),
        Op::And => behind_word(symbols, Keyword::And),
        Op::Or => behind_word(symbols, Keyword::Or),
        Op::BitAnd => behind_sign(symbols, Sign::BitAnd),
        Op::BitOr => behind_sign(symbols, Sign::BitOr),
        Op::BitXor => behind_sign(symbols, Sign::BitXor),
        Op::Equal => behind_sign(symbols, Sign::Equal),
        Op::Differ => behind_sign(symbols, Sign::Differ),
        Op::Less => behind_sign(symbols, Sign::Less),
        Op::Greater => behind_sign(symbols, Sign::Greater),
        Op::AtMost => behind_sign(symbols, Sign::AtMost),
        Op::AtLeast => behind_sign(symbols, Sign::AtLeast),
    }
}

/// More than two operands may stand with AND, and with OR.
fn is_chained(op: Op) -> bool
    ensures { result ≡ is_chained op }
{
    match op {
        Op::And => true,
        Op::Or => true,
        _ => false,
    }
}

/// A width in brackets, as it stands behind a numeral.
#[tactic(auto, unfolding(crate::specs::Reading::width_in_brackets))]
fn width_in_brackets(symbols: &[Symbol]) -> Option<(Width, &[Symbol])>
    ensures { Finds (λ found. (found.0, found.1.now)) result (width_in_brackets symbols.now) }
{
    let rest = behind_sign(symbols, Sign::Open)?;
    let (width, rest) = width_first(rest)?;
    Some((width, behind_sign(rest, Sign::Close)?))
}

/// An operand without brackets around it.
#[tactic(auto, unfolding(crate::specs::Reading::plain_operand))]
fn plain_operand(symbols: &[Symbol]) -> Option<(Phrase, &[Symbol])>
    ensures { Finds (λ found. (said found.0, found.1.now)) result (plain_operand symbols.now) }
{
    let [first, rest @ ..] = symbols else {
        return None;
    };
    match *first {
        Symbol::Name(name) => {
            let (item, rest) = item_behind(name, rest)?;
            Some((Phrase::Item(item), rest))
        }
        Symbol::Numeral(value) => match width_in_brackets(rest) {
            Some((width, rest)) => Some((Phrase::Typed(value, width), rest)),
            None => Some((Phrase::Numeral(value), rest)),
        },
        Symbol::Keyword(word) => match word {
            Keyword::True => Some((Phrase::Truth(true), rest)),
            Keyword::False => Some((Phrase::Truth(false), rest)),
            _ => None,
        },
        Symbol::Sign(_) => None,
    }
}

fn two(alloc: Global, op: Op, left: Phrase, right: Phrase) -> Result<Phrase, Memory>
    ensures { IfOk result (λ both. said both ≡ operation op (said left) (said right)) }
{
    let left = Box::new(alloc, left)?;
    let right = Box::new(alloc, right)?;
    Ok(Phrase::Two(op, left, right))
}

/// An operand, in which brackets stand so deep at most, and the symbols behind it.
#[cycle(reading)]
#[tactic(auto, unfolding(crate::specs::Reading::operand_within, crate::specs::Reading::operand_with))]
fn operand<'a>(
    alloc: Global,
    depth: usize,
    symbols: &'a [Symbol],
) -> Result<(Phrase, &'a [Symbol]), Fault>
    ensures { Gives (λ found. (said found.0, found.1.now)) result (operand_within depth symbols.now) }
{
    let Some(inside) = behind_sign(symbols, Sign::Open) else {
        return match plain_operand(symbols) {
            Some(found) => Ok(found),
            None => Err(Fault::Form),
        };
    };
    if depth == 0 {
        return Err(Fault::Form);
    }
    let (phrase, rest) = expression_first(alloc, depth - 1, inside)?;
    match behind_sign(rest, Sign::Close) {
        Some(rest) => Ok((phrase, rest)),
        None => Err(Fault::Form),
    }
}

/// Further operands of a chain with that operator, which go to its right. They are fewer than the symbols.
#[cycle(reading)]
fn further<'a>(
    alloc: Global,
    depth: usize,
    op: Op,
    left: Phrase,
    symbols: &'a [Symbol],
) -> Result<(Phrase, &'a [Symbol]), Fault>
    ensures { Gives (λ found. (said found.0, found.1.now)) result (further (operand_within depth) op (length symbols.now) (said left) symbols.now) }
{
    let mut left = left;
    let mut rest = symbols;
    'along: for _ in 0..symbols.len() {
        let Some(behind) = behind_op(rest, op) else {
            return Ok((left, rest));
        };
        let (right, behind) = operand(alloc, depth, behind)?;
        left = two(alloc, op, left, right)?;
        rest = behind;
    }
    Ok((left, rest))
}

/// An operand with what may stand behind it: an operator and further operands.
#[cycle(reading)]
#[tactic(auto, unfolding(crate::specs::Reading::operated))]
fn operated<'a>(
    alloc: Global,
    depth: usize,
    left: Phrase,
    symbols: &'a [Symbol],
) -> Result<(Phrase, &'a [Symbol]), Fault>
    ensures { Gives (λ found. (said found.0, found.1.now)) result (operated (operand_within depth) (said left) symbols.now) }
{
    let Some((op, rest)) = op_first(symbols) else {
        return Ok((left, symbols));
    };
    let (right, rest) = operand(alloc, depth, rest)?;
    let both = two(alloc, op, left, right)?;
    if is_chained(op) {
        further(alloc, depth, op, both, rest)
    } else {
        Ok((both, rest))
    }
}

/// An expression, in which brackets stand so deep at most, and the symbols behind it.
#[cycle(reading)]
#[tactic(auto, unfolding(crate::specs::Reading::expression_by))]
fn expression_first<'a>(
    alloc: Global,
    depth: usize,
    symbols: &'a [Symbol],
) -> Result<(Phrase, &'a [Symbol]), Fault>
    ensures { Gives (λ found. (said found.0, found.1.now)) result (expression_by (operand_within depth) symbols.now) }
{
    if let Some(rest) = behind_word(symbols, Keyword::Not) {
        let (phrase, rest) = operand(alloc, depth, rest)?;
        return Ok((Phrase::Not(Box::new(alloc, phrase)?), rest));
    }
    if let Some(rest) = behind_sign(symbols, Sign::Flip) {
        let (phrase, rest) = operand(alloc, depth, rest)?;
        return Ok((Phrase::Flip(Box::new(alloc, phrase)?), rest));
    }
    let (left, rest) = operand(alloc, depth, symbols)?;
    operated(alloc, depth, left, rest)
}

/// The expression that the symbols are.
#[tactic(auto, unfolding(crate::specs::Reading::expression_of))]
pub fn expression(alloc: Global, symbols: &[Symbol]) -> Result<Phrase, Fault>
    ensures { Gives said result (expression_of symbols.now) }
{
    let (phrase, rest) = expression_first(alloc, symbols.len(), symbols)?;
    if rest.is_empty() {
        Ok(phrase)
    } else {
        Err(Fault::Form)
    }
}

/// The expressions between commas.
pub fn expressions(alloc: Global, symbols: &[Symbol]) -> Result<Phrases, Fault>
    ensures { Gives all_said result (each expression_of (groups_of symbols.now)) }
{
    let mut phrases = Phrases::new(alloc);
    for group in &groups(alloc, symbols)? {
        phrases.push(expression(alloc, group)?)?;
    }
    Ok(phrases)
}
