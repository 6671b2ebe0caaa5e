ghost use Rattle.std.specs.Prelude.{◌≡◌, ◌+◌, ◌-◌, ◌<◌, ◌≤◌, length};
ghost use Rattle.occ_lex.specs.Token.{text_of};

use occ_base::List;

/// What a token is.
#[derive(Clone, Copy, Debug, PartialEq, Eq)]
pub enum TokenKind {
    /// A letter followed by letters, digits and dots, which isn't a reserved word. It has at most 32 bytes.
    Name,
    /// Decimal digits whose value is at most 255.
    Numeral,
    /// One of the twenty signs, as `:=`.
    Sign,
    /// One of the reserved words, as `SEQ`.
    Word,
}

/// A token of a text. The places of its first and its last byte count in bytes, from 0.
#[derive(Clone, Copy, Debug, PartialEq, Eq)]
pub struct Token {
    pub kind: TokenKind,
    pub first: u32,
    pub last: u32,
}

/// The tokens of a line, from left to right.
pub type Tokens = List<Token>;

/// A line that isn't blank: its number in the text, counted from 1 with the blank lines, its level, which is half the
/// number of its leading spaces, and its tokens, of which there is one at least.
#[derive(Debug, Drop)]
pub struct Line {
    pub number: u32,
    pub level: u32,
    pub tokens: Tokens,
}

impl Token {
    /// The token's bytes in its text. It takes no memory.
    pub fn text(self, text: &[u8]) -> &[u8]
        requires ordered { self.first ≤ self.last }
        requires within { self.last < length text.now }
        ensures { result.now ≡ text_of self text.now }
    {
        &text[self.first as usize..self.last as usize + 1]
    }
}
