use occ_base::{List, Name, Width};

/// A reserved word.
#[derive(Clone, Copy, Debug, PartialEq, Eq)]
pub enum Keyword {
    Skip,
    Stop,
    Seq,
    Par,
    Alt,
    If,
    For,
    Proc,
    Chan,
    Of,
    True,
    False,
    And,
    Or,
    Not,
    Plus,
    Minus,
    /// BOOL, or WORD1 to WORD8 with its bits.
    Width(Width),
}

/// A sign.
#[derive(Clone, Copy, Debug, PartialEq, Eq)]
pub enum Sign {
    /// `:=`
    Becomes,
    /// `<=`
    AtMost,
    /// `>=`
    AtLeast,
    /// `<>`
    Differ,
    /// `><`
    BitXor,
    /// `/\`
    BitAnd,
    /// `\/`
    BitOr,
    /// `~`
    Flip,
    /// `&`
    Ampersand,
    /// `(`
    Open,
    /// `)`
    Close,
    /// `[`
    OpenIndex,
    /// `]`
    CloseIndex,
    /// `,`
    Comma,
    /// `:`
    Colon,
    /// `?`
    Query,
    /// `!`
    Bang,
    /// `=`
    Equal,
    /// `<`
    Less,
    /// `>`
    Greater,
}

/// What a token stands for.
#[derive(Clone, Copy, Debug, PartialEq, Eq)]
pub enum Symbol {
    /// A name, by its number in the name table.
    Name(Name),
    /// A numeral, by its value; zeros in front don't count.
    Numeral(u8),
    /// A reserved word.
    Keyword(Keyword),
    /// A sign.
    Sign(Sign),
}

/// The symbols of a line, from left to right.
pub type Symbols = List<Symbol>;

/// A line that isn't blank: its number in the text, counted from 1, its level and its symbols.
#[derive(Debug, Drop)]
pub struct Row {
    pub number: u32,
    pub level: u32,
    pub symbols: Symbols,
}
