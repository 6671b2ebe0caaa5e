//! What kind of text a file has, by its first words.

use crate::Source;

/// A kind of text.
#[derive(Clone, Copy, Debug, PartialEq, Eq)]
pub enum TextKind {
    Program,
    Script,
    Orders,
    Normal,
    Schedule,
    Behaviour,
    Unknown,
}

impl TextKind {
    /// The kind of a text, by its first row that isn't blank.
    pub fn of(source: &Source) -> TextKind {
        for row in 0..source.rows() {
            if source.is_blank(row) {
                continue;
            }
            let bytes = source.bytes(row, 0, source.row(row).code);
            return TextKind::by_words(bytes, source.text_of(row, 0));
        }
        TextKind::Unknown
    }

    fn by_words(bytes: &[u8], first: &[u8]) -> TextKind {
        if bytes.starts_with(b"occam-script") {
            TextKind::Script
        } else if bytes.starts_with(b"occam-orders") {
            TextKind::Orders
        } else if bytes.starts_with(b"occam-normal") {
            TextKind::Normal
        } else if bytes.starts_with(b"occam-schedule") {
            TextKind::Schedule
        } else {
            match first {
                b"PROC" => TextKind::Program,
                b"STATE" | b"DIFFER" => TextKind::Behaviour,
                _ => TextKind::Unknown,
            }
        }
    }

    /// The kind in words.
    pub fn word(self) -> &'static str {
        match self {
            TextKind::Program => "a program",
            TextKind::Script => "a script",
            TextKind::Orders => "an orders text",
            TextKind::Normal => "a normal text",
            TextKind::Schedule => "a schedule",
            TextKind::Behaviour => "a behaviour",
            TextKind::Unknown => "no text of the system",
        }
    }

    /// The words with which a text of that kind begins.
    pub fn begins(self) -> &'static str {
        match self {
            TextKind::Program | TextKind::Unknown => "PROC",
            TextKind::Script => "occam-script 2",
            TextKind::Orders => "occam-orders 2",
            TextKind::Normal => "occam-normal 1",
            TextKind::Schedule => "occam-schedule 1",
            TextKind::Behaviour => "STATE",
        }
    }

    /// The command that takes a text of that kind, and its words.
    pub fn taken_by(self) -> &'static str {
        match self {
            TextKind::Program | TextKind::Unknown => "check A",
            TextKind::Script => "replay T",
            TextKind::Orders => "transform A T",
            TextKind::Normal => "normal T",
            TextKind::Schedule => "run A T",
            TextKind::Behaviour => "belongs A T",
        }
    }
}
