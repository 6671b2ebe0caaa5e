//! Lines, tokens and symbols.

use occ_script::{
    Keyword, LineFault, Sign, Symbol, Token, TokenKind, code, first_row, lex_lines as lines,
    lex_read as read, line, rows,
};
use occ_syntax::{Name, Names, Width};
use std::alloc::Global;
use std::test::Fail;

const TEXT: &[u8] = b"SEQ\n\n  x := 007 -- seven\r\n-- note\n    x WORD8 y\n";

const SYMBOLS: [(u32, u32, Symbol); 7] = [
    (1, 0, Symbol::Keyword(Keyword::Seq)),
    (3, 1, Symbol::Name(Name(0))),
    (3, 1, Symbol::Sign(Sign::Becomes)),
    (3, 1, Symbol::Numeral(7)),
    (5, 2, Symbol::Name(Name(0))),
    (5, 2, Symbol::Keyword(Keyword::Width(Width::Word(8)))),
    (5, 2, Symbol::Name(Name(1))),
];

fn symbols(alloc: Global, text: &[u8]) -> Result<Vec<(u32, u32, Symbol)>, Fail> {
    let mut all = Vec::new(alloc);
    if text.len() > 1000 {
        return Ok(all);
    }
    let mut names = Names::new(alloc);
    let lines = lines(alloc, text)?;
    for row in rows(alloc, &mut names, text, &lines)? {
        for symbol in row.symbols.items() {
            all.push((row.number, row.level, *symbol))?;
        }
    }
    Ok(all)
}

#[test]
fn lines_have_their_symbols(rt: HostRuntime) -> Result<(), Fail> {
    let all = symbols(rt.alloc(), TEXT)?;
    assert!(rt; all.as_slice() == SYMBOLS.as_slice());
    Ok(())
}

#[test]
fn the_least_line_is_at_fault(rt: HostRuntime) -> Result<(), Fail> {
    let reading = read(rt.alloc(), b"a\n\nb\n c\n$\n")?;
    assert!(rt; reading.lines.len() == 2);
    assert!(rt; reading.fault == Some((4, LineFault::OddIndent)));
    Ok(())
}

#[test]
fn a_line_ends_before_its_comment(rt: HostRuntime) {
    assert!(rt; first_row(b"a -- b\r\nc\n") == b"a -- b\r\n".as_slice());
    assert!(rt; code(b"a -- b\r\n") == b"a ".as_slice());
}

const SIGNS: [Token; 3] = [
    Token {
        kind: TokenKind::Sign,
        first: 104,
        last: 105,
    },
    Token {
        kind: TokenKind::Sign,
        first: 106,
        last: 107,
    },
    Token {
        kind: TokenKind::Sign,
        first: 108,
        last: 108,
    },
];

#[test]
fn a_line_is_read_alone(rt: HostRuntime) -> Result<(), Fail> {
    let found = line(rt.alloc(), 7, 100, b"    <=><>\n")?.ok_or("a line")?;
    assert!(rt; found.number == 7 && found.level == 2);
    assert!(rt; found.tokens.items() == SIGNS.as_slice());
    Ok(())
}
