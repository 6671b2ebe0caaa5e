ghost use Rattle.std.specs.Prelude.{◌≡◌, ◌++◌, ◌<◌, length, OnOk};
ghost use Rattle.occ_parse_forms.specs.occ_lex.Symbols.{IsKnown};
ghost use Rattle.occ_print.specs.Spelled.{word_text, keyword_text, sign_text, symbol_text};

use occ_parse_forms::{Keyword, Sign, Symbol};
use occ_syntax::{Memory, Names, Width, push_number};

/// Adds the text of a symbol.
pub fn push_symbol(text: &mut Vec<u8>, names: &Names, symbol: Symbol) -> Result<(), Memory>
    requires { IsKnown names.now symbol }
    ensures { OnOk result (text.new.items ≡ text.old.items ++ symbol_text names.now symbol) }
{
    match symbol {
        Symbol::Name(name) => text.extend_from_slice(names.text(name))?,
        Symbol::Numeral(value) => push_number(text, u64::from(value))?,
        Symbol::Keyword(keyword) => push_keyword(text, keyword)?,
        Symbol::Sign(sign) => text.extend_from_slice(spelled_sign(sign).as_bytes())?,
    }
    Ok(())
}

fn push_keyword(text: &mut Vec<u8>, keyword: Keyword) -> Result<(), Memory>
    ensures { OnOk result (text.new.items ≡ text.old.items ++ keyword_text keyword) }
{
    text.extend_from_slice(spelled_word(keyword).as_bytes())?;
    match keyword {
        Keyword::Width(Width::Word(bits)) => push_number(text, u64::from(bits)),
        _ => Ok(()),
    }
}

fn spelled_word(keyword: Keyword) -> &'static str
    ensures { result.now ≡ word_text keyword }
{
    match keyword {
        Keyword::Skip => "SKIP",
        Keyword::Stop => "STOP",
        Keyword::Seq => "SEQ",
        Keyword::Par => "PAR",
        Keyword::Alt => "ALT",
        Keyword::If => "IF",
        Keyword::For => "FOR",
        Keyword::Proc => "PROC",
        Keyword::Chan => "CHAN",
        Keyword::Of => "OF",
        Keyword::True => "TRUE",
        Keyword::False => "FALSE",
        Keyword::And => "AND",
        Keyword::Or => "OR",
        Keyword::Not => "NOT",
        Keyword::Plus => "PLUS",
        Keyword::Minus => "MINUS",
        Keyword::Width(Width::Bool) => "BOOL",
        Keyword::Width(Width::Word(_)) => "WORD",
    }
}

fn spelled_sign(sign: Sign) -> &'static str
    ensures { result.now ≡ sign_text sign }
{
    match sign {
        Sign::Becomes => ":=",
        Sign::AtMost => "<=",
        Sign::AtLeast => ">=",
        Sign::Differ => "<>",
        Sign::BitXor => "><",
        Sign::BitAnd => "/\\",
        Sign::BitOr => "\\/",
        Sign::Flip => "~",
        Sign::Ampersand => "&",
        Sign::Open => "(",
        Sign::Close => ")",
        Sign::OpenIndex => "[",
        Sign::CloseIndex => "]",
        Sign::Comma => ",",
        Sign::Colon => ":",
        Sign::Query => "?",
        Sign::Bang => "!",
        Sign::Equal => "=",
        Sign::Less => "<",
        Sign::Greater => ">",
    }
}
