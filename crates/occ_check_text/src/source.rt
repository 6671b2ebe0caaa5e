use occ_lex::{Memory, TokenKind, is_name_byte, kind_of};
use std::alloc::Global;

/// What a token is, where faulty ones are told as such.
#[derive(Clone, Copy, Debug, PartialEq, Eq)]
pub enum TokKind {
    Name,
    Word,
    Numeral,
    Sign,
    /// Bytes that begin no token.
    Other,
    /// The end of a row.
    End,
}

/// A token of a row: its first byte, counted from 0 in the row, and its length.
#[derive(Clone, Copy, Debug)]
pub struct Tok {
    pub kind: TokKind,
    pub at: usize,
    pub len: usize,
}

/// A row of a text: its place in the text, its length without its end, the length of its code, and its tokens.
#[derive(Clone, Copy, Debug)]
pub struct Row {
    pub start: usize,
    pub len: usize,
    pub code: usize,
    pub indent: usize,
    pub first: usize,
    pub count: usize,
}

/// A text with its rows and tokens.
#[derive(Debug, Drop)]
pub struct Source<'a> {
    text: &'a [u8],
    rows: Vec<Row>,
    toks: Vec<Tok>,
    parents: Vec<Option<usize>>,
}

const NO_ROW: Row = Row {
    start: 0,
    len: 0,
    code: 0,
    indent: 0,
    first: 0,
    count: 0,
};

/// The bytes from a place on, so many; those that are there.
fn cut(text: &[u8], at: usize, len: usize) -> &[u8] {
    let from = at.min(text.len());
    let rest = &text[from..];
    &rest[..len.min(rest.len())]
}

fn is_space(byte: u8) -> bool {
    byte == b' ' || byte == b'\t'
}

/// The length of a row without its line feed and what is directly before it.
fn bare_len(row: &[u8]) -> usize {
    match row {
        [rest @ .., b'\r', b'\n'] => rest.len(),
        [rest @ .., b'\n'] => rest.len(),
        _ => row.len(),
    }
}

/// The length of a row in front of its comment and the spaces before it.
fn code_len(row: &[u8]) -> usize {
    let mut len = 0;
    let mut before = 0;
    for (i, byte) in row.iter().enumerate() {
        if *byte == b'-' && before == b'-' {
            return trimmed(cut(row, 0, i.saturating_sub(1)));
        }
        before = *byte;
        if !is_space(*byte) {
            len = i.saturating_add(1);
        }
    }
    len
}

fn trimmed(row: &[u8]) -> usize {
    let mut len = 0;
    for (i, byte) in row.iter().enumerate() {
        if !is_space(*byte) {
            len = i.saturating_add(1);
        }
    }
    len
}

fn run_of(bytes: &[u8]) -> usize {
    bytes.iter().take_while(|byte| is_name_byte(**byte)).count()
}

fn digits_of(bytes: &[u8]) -> usize {
    bytes
        .iter()
        .take_while(|byte| byte.is_ascii_digit())
        .count()
}

fn spaces_of(bytes: &[u8]) -> usize {
    bytes.iter().take_while(|byte| is_space(**byte)).count()
}

/// The bytes of one letter that isn't of ASCII, or one byte.
fn letter_len(bytes: &[u8]) -> usize {
    let Some((first, rest)) = bytes.split_first() else {
        return 1;
    };
    if *first < 0xc0 {
        return 1;
    }
    let more = rest.iter().take_while(|byte| **byte & 0xc0 == 0x80).count();
    more.min(3).saturating_add(1)
}

fn sign_len(bytes: &[u8]) -> usize {
    for len in [2, 1] {
        if matches!(kind_of(cut(bytes, 0, len)), Some(TokenKind::Sign)) {
            return len;
        }
    }
    0
}

/// The kind and the length of the token in front of bytes that aren't empty.
fn token_of(bytes: &[u8]) -> (TokKind, usize) {
    let Some(first) = bytes.first() else {
        return (TokKind::End, 1);
    };
    if first.is_ascii_alphabetic() {
        let len = run_of(bytes).max(1);
        return match kind_of(cut(bytes, 0, len)) {
            Some(TokenKind::Word) => (TokKind::Word, len),
            _ => (TokKind::Name, len),
        };
    }
    if first.is_ascii_digit() {
        return (TokKind::Numeral, digits_of(bytes).max(1));
    }
    match sign_len(bytes) {
        0 => (TokKind::Other, letter_len(bytes)),
        len => (TokKind::Sign, len),
    }
}

fn add_toks(toks: &mut Vec<Tok>, code: &[u8]) -> Result<(), Memory> {
    let mut next = 0;
    for (at, byte) in code.iter().enumerate() {
        if at < next || is_space(*byte) {
            continue;
        }
        let (kind, len) = token_of(cut(code, at, code.len()));
        toks.push(Tok { kind, at, len })?;
        next = at.saturating_add(len);
    }
    Ok(())
}

/// For each row the nearest one before it that has a smaller level and isn't blank.
fn parents_of(alloc: Global, rows: &[Row]) -> Result<Vec<Option<usize>>, Memory> {
    let mut parents = Vec::new(alloc);
    let mut open: Vec<(usize, usize)> = Vec::new(alloc);
    for (i, row) in rows.iter().enumerate() {
        let level = row.indent / 2;
        if row.count == 0 {
            parents.push(None)?;
            continue;
        }
        for _ in 0..open.len() {
            if open.last().is_some_and(|top| top.0 >= level) {
                open.pop();
            } else {
                break;
            }
        }
        parents.push(open.last().map(|top| top.1))?;
        open.push((level, i))?;
    }
    Ok(parents)
}

impl<'a> Source<'a> {
    /// Reads the rows and tokens of a text.
    pub fn read(alloc: Global, text: &'a [u8]) -> Result<Source<'a>, Memory> {
        Source::read_part(alloc, text, 0, usize::MAX)
    }

    /// Reads the rows of a text, and the tokens of those from one row up to another one; the others count as blank.
    pub fn read_part(
        alloc: Global,
        text: &'a [u8],
        from: usize,
        to: usize,
    ) -> Result<Source<'a>, Memory> {
        let mut rows = Vec::new(alloc);
        let mut toks = Vec::new(alloc);
        let mut start = 0;
        for (at, byte) in text.iter().enumerate() {
            let next = at.saturating_add(1);
            if *byte == b'\n' || next == text.len() {
                let row = cut(text, start, next.saturating_sub(start));
                let len = bare_len(row);
                let within = from <= rows.len() && rows.len() < to;
                let code = if within {
                    code_len(cut(row, 0, len))
                } else {
                    0
                };
                let first = toks.len();
                add_toks(&mut toks, cut(row, 0, code))?;
                let count = toks.len().saturating_sub(first);
                let indent = spaces_of(cut(row, 0, code));
                rows.push(Row {
                    start,
                    len,
                    code,
                    indent,
                    first,
                    count,
                })?;
                start = next;
            }
        }
        let parents = parents_of(alloc, rows.as_slice())?;
        Ok(Source {
            text,
            rows,
            toks,
            parents,
        })
    }

    /// How many rows there are.
    pub fn rows(&self) -> usize {
        self.rows.len()
    }

    /// A row by its place from 0; an empty one behind the last.
    pub fn row(&self, row: usize) -> Row {
        match self.rows.get(row) {
            Some(found) => *found,
            None => NO_ROW,
        }
    }

    /// How many tokens a row has.
    pub fn count(&self, row: usize) -> usize {
        self.row(row).count
    }

    /// Whether nothing but spaces and a comment stands on a row.
    pub fn is_blank(&self, row: usize) -> bool {
        self.count(row) == 0
    }

    /// The nearest row before one that has a smaller level and isn't blank.
    pub fn parent(&self, row: usize) -> Option<usize> {
        self.parents.get(row).copied().flatten()
    }

    /// The level of a row.
    pub fn level(&self, row: usize) -> usize {
        self.row(row).indent / 2
    }

    /// A token of a row by its place; behind the last one the end of the row.
    pub fn tok(&self, row: usize, i: usize) -> Tok {
        let found = self.row(row);
        let end = Tok {
            kind: TokKind::End,
            at: found.code,
            len: 1,
        };
        if i >= found.count {
            return end;
        }
        match self.toks.get(found.first.saturating_add(i)) {
            Some(tok) => *tok,
            None => end,
        }
    }

    /// Bytes of a row.
    pub fn bytes(&self, row: usize, at: usize, len: usize) -> &'a [u8] {
        let found = self.row(row);
        cut(cut(self.text, found.start, found.len), at, len)
    }

    /// The bytes of a token.
    pub fn text_of(&self, row: usize, i: usize) -> &'a [u8] {
        let tok = self.tok(row, i);
        match tok.kind {
            TokKind::End => &[],
            _ => self.bytes(row, tok.at, tok.len),
        }
    }

    /// Whether a token is that word or sign.
    pub fn is(&self, row: usize, i: usize, word: &str) -> bool {
        self.text_of(row, i) == word.as_bytes()
    }

    /// The place of the first token from one on that is that word or sign.
    pub fn find(&self, row: usize, from: usize, word: &str) -> Option<usize> {
        for i in from..self.count(row) {
            if self.is(row, i, word) {
                return Some(i);
            }
        }
        None
    }

    /// The bytes from one token up to another one, which isn't among them.
    pub fn between(&self, row: usize, from: usize, to: usize) -> &'a [u8] {
        let first = self.tok(row, from);
        let last = self.tok(row, to.saturating_sub(1));
        let end = last.at.saturating_add(last.len);
        self.bytes(row, first.at, end.saturating_sub(first.at))
    }
}
