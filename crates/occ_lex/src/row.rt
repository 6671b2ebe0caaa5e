ghost use Rattle.std.specs.Prelude.{◌≡◌, ◌+◌, ◌^◌, ◌<◌, ℕ, length, Option, position, not, ◌==◌};
ghost use Rattle.occ_lex.specs.Tokens.{tokens};
ghost use Rattle.occ_lex.specs.Rows.{code_of, ends_code, first_row, line_of};
ghost use Rattle.occ_lex.specs.Gives.{RowGives};

use crate::scan::first_token;
use crate::{Line, LineFault, RowFault, Token, Tokens};
use std::alloc::Global;

/// The first line of a text with its line feed, or the whole text where it has none. It takes no memory.
pub fn first_row(text: &[u8]) -> &[u8]
    ensures { result.now ≡ first_row text.now }
{
    match line_feed(text) {
        Some(place) => &text[..place + 1],
        None => text,
    }
}

fn line_feed(text: &[u8]) -> Option<usize>
    ensures { result ≡ position (λ byte. byte == 10) text.now }
{
    text.iter().position(|byte| *byte == b'\n')
}

fn indent_of(code: &[u8]) -> Option<usize>
    ensures { result ≡ position (λ byte. not (byte == 32)) code.now }
{
    code.iter().position(|byte| *byte != b' ')
}

fn ends_code(rest: &[u8]) -> bool
    ensures { result ≡ ends_code rest.now }
{
    rest.starts_with(b"--") || rest.starts_with(b"\n") || rest.starts_with(b"\r\n")
}

/// The bytes of a line in front of its comment and its end. It takes no memory.
pub fn code(row: &[u8]) -> &[u8]
    ensures { result.now ≡ code_of row.now }
{
    let mut len = 0;
    while len < row.len() && !ends_code(&row[len..]) {
        len += 1;
    }
    &row[..len]
}

fn tokens(alloc: Global, first: u32, code: &[u8]) -> Result<Tokens, RowFault>
    requires { first + length code.now < 2 ^ 32 }
    ensures { RowGives (λ found. found) result (tokens first 0 code.now) }
{
    let mut found = Tokens::new(alloc);
    let mut at = 0;
    while at < code.len() {
        if code[at] == b' ' {
            at += 1;
        } else {
            let (kind, len) = first_token(&code[at..])?;
            let first = first + at as u32;
            let last = first + (len - 1) as u32;
            found.push(Token { kind, first, last })?;
            at += len;
        }
    }
    Ok(found)
}

/// The line that a row of a text holds, None where it is blank. A row is a line with its line feed; its number and the
/// place of its first byte in the text are those given. `Fault` comes exactly where the row has one: a tab, else an
/// odd number of leading spaces, else the leftmost fault of a token.
pub fn line(alloc: Global, number: u32, first: u32, row: &[u8]) -> Result<Option<Line>, RowFault>
    requires { first + length row.now < 2 ^ 32 }
    ensures { RowGives (λ line. line) result (line_of number first row.now) }
{
    let code = code(row);
    if code.contains(&b'\t') {
        return Err(RowFault::Fault(LineFault::Tab));
    }
    let Some(indent) = indent_of(code) else {
        return Ok(None);
    };
    if indent % 2 == 1 {
        return Err(RowFault::Fault(LineFault::OddIndent));
    }
    let tokens = tokens(alloc, first, code)?;
    let level = (indent / 2) as u32;
    Ok(Some(Line {
        number,
        level,
        tokens,
    }))
}
