ghost use Rattle.std.specs.Prelude.{◌≡◌, ◌∷◌, ◌++◌, [], OnOk, IfOk};
ghost use Rattle.std.specs.List.{AllByRecursion};
ghost use Rattle.occ_lex.specs.Placed.{IsLineOf, IsTokenOf};
ghost use Rattle.occ_lex.specs.Token.{text_of};
ghost use Rattle.occ_lex.specs.Symbols.{Extends, names_with, rows_of, symbol_of, symbols_of, with_names, with_names_of_all};

use crate::words::{keyword, sign};
use crate::{Line, Row, Symbol, Symbols, Token, TokenKind, numeral_value};
use occ_base::{Memory, Names};
use std::alloc::Global;

fn symbol(names: &mut Names, text: &[u8], token: Token) -> Result<Symbol, Memory>
    requires { IsTokenOf text.now token }
    ensures symbol { IfOk result (λ symbol. symbol ≡ symbol_of names.old token.kind (text_of token text.now)) }
    ensures table { OnOk result (names.new ≡ names_with names.old token.kind (text_of token text.now)) }
    ensures extends { Extends names.old names.new }
{
    let text = token.text(text);
    match token.kind {
        TokenKind::Name => Ok(Symbol::Name(names.intern(text)?)),
        TokenKind::Numeral => match numeral_value(text) {
            Some(value) => Ok(Symbol::Numeral(value)),
            None => unreachable!(),
        },
        TokenKind::Word => match keyword(text) {
            Some(keyword) => Ok(Symbol::Keyword(keyword)),
            None => unreachable!(),
        },
        TokenKind::Sign => match sign(text) {
            Some(sign) => Ok(Symbol::Sign(sign)),
            None => unreachable!(),
        },
    }
}

fn symbols(
    alloc: Global,
    names: &mut Names,
    text: &[u8],
    tokens: &[Token],
) -> Result<Symbols, Memory>
    requires { AllByRecursion (IsTokenOf text.now) tokens.now }
    ensures symbols { IfOk result (λ symbols. symbols ≡ symbols_of text.now names.old tokens.now) }
    ensures table { OnOk result (names.new ≡ with_names text.now names.old tokens.now) }
    ensures extends { Extends names.old names.new }
{
    let mut symbols = Symbols::new(alloc);
    for token in tokens {
        symbols.push(symbol(names, text, *token)?)?;
    }
    Ok(symbols)
}

/// The rows of a text's lines: each token as its symbol. A name that isn't in the table yet takes the next number, in
/// order of occurrence. The lines are some that `occ_lex` read from the text. Where memory runs out, the table may have
/// more names than before, and each name keeps its number.
pub fn rows(
    alloc: Global,
    names: &mut Names,
    text: &[u8],
    lines: &[Line],
) -> Result<Vec<Row>, Memory>
    requires { AllByRecursion (IsLineOf text.now) lines.now }
    ensures rows { IfOk result (λ rows. rows.items ≡ rows_of text.now names.old lines.now) }
    ensures table { OnOk result (names.new ≡ with_names_of_all text.now names.old lines.now) }
    ensures extends { Extends names.old names.new }
{
    let mut rows = Vec::new(alloc);
    for line in lines {
        let symbols = symbols(alloc, names, text, line.tokens.items())?;
        rows.push(Row {
            number: line.number,
            level: line.level,
            symbols,
        })?;
    }
    Ok(rows)
}
