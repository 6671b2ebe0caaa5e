//! What a row is, by its words alone, and where it stands.

use occ_check_text::{Piece as P, Source, Span, TokKind, Told};
use std::alloc::Global;

/// A text that is looked at, and what memory comes from.
#[derive(Clone, Copy)]
pub struct Look<'a> {
    pub alloc: Global,
    pub src: &'a Source<'a>,
}

/// What a row seems to say.
#[derive(Clone, Copy)]
pub enum Form {
    Blank,
    Header,
    Close,
    Skip,
    Stop,
    Seq,
    Par,
    If,
    Alt,
    Declare,
    Assign,
    Guard,
    Input,
    Output,
    Condition,
}

/// What may stand below a row.
#[derive(Clone, Copy)]
pub enum Below {
    Nothing,
    Slot,
    Slots,
    Choice,
    Choices,
    Branch,
    Branches,
}

impl<'a> Look<'a> {
    pub fn form(self, row: usize) -> Form {
        let src = self.src;
        if src.is_blank(row) {
            return Form::Blank;
        }
        match src.text_of(row, 0) {
            b"PROC" => Form::Header,
            b":" => Form::Close,
            b"SKIP" => Form::Skip,
            b"STOP" => Form::Stop,
            b"SEQ" => Form::Seq,
            b"PAR" => Form::Par,
            b"IF" => Form::If,
            b"ALT" => Form::Alt,
            b"CHAN" | b"[" => Form::Declare,
            _ => self.other_form(row),
        }
    }

    fn other_form(self, row: usize) -> Form {
        let src = self.src;
        if width_of(src.text_of(row, 0)).is_some() {
            Form::Declare
        } else if src.find(row, 0, ":=").is_some() {
            Form::Assign
        } else if src.find(row, 0, "&").is_some() {
            Form::Guard
        } else if src.find(row, 0, "?").is_some() {
            Form::Input
        } else if src.find(row, 0, "!").is_some() {
            Form::Output
        } else {
            Form::Condition
        }
    }

    /// Whether a construct has a replicator.
    pub fn repeats(self, row: usize) -> bool {
        let group = matches!(self.form(row), Form::Seq | Form::Par | Form::If | Form::Alt);
        group && self.src.count(row) > 1
    }

    /// The nearest row before one that isn't blank.
    pub fn before(self, row: usize) -> Option<usize> {
        (0..row).rev().find(|r| !self.src.is_blank(*r))
    }

    /// The nearest row behind one that isn't blank.
    pub fn after(self, row: usize) -> Option<usize> {
        let from = row.saturating_add(1);
        (from..self.src.rows()).find(|r| !self.src.is_blank(*r))
    }

    /// The first row that isn't blank.
    pub fn first(self) -> Option<usize> {
        (0..self.src.rows()).find(|r| !self.src.is_blank(*r))
    }

    /// The row below which one stands: the nearest one of a smaller level.
    pub fn parent(self, row: usize) -> Option<usize> {
        self.src.parent(row)
    }

    /// The last row of those that stand below a row, or the row itself.
    pub fn last_below(self, row: usize) -> usize {
        let level = self.src.level(row);
        let mut last = row;
        for r in row.saturating_add(1)..self.src.rows() {
            if self.src.is_blank(r) {
                continue;
            }
            if self.src.level(r) <= level {
                break;
            }
            last = r;
        }
        last
    }

    /// What may stand below a row, by its form and where it stands.
    pub fn below(self, row: usize) -> Below {
        let message = matches!(self.form(row), Form::Input | Form::Output);
        if message && !matches!(self.place(row), Below::Branch | Below::Branches) {
            return Below::Nothing;
        }
        self.takes(row)
    }

    /// What the place of a row takes: what its parent takes.
    pub fn place(self, row: usize) -> Below {
        match self.parent(row) {
            Some(parent) => self.takes(parent),
            None => Below::Nothing,
        }
    }

    /// What a row takes, where inputs and outputs are guards.
    fn takes(self, row: usize) -> Below {
        let one = self.repeats(row);
        match self.form(row) {
            Form::Header | Form::Condition | Form::Guard | Form::Input | Form::Output =>
                Below::Slot,
            Form::Seq | Form::Par => if one { Below::Slot } else { Below::Slots },
            Form::If => if one { Below::Choice } else { Below::Choices },
            Form::Alt => if one { Below::Branch } else { Below::Branches },
            _ => Below::Nothing,
        }
    }

    /// The place of one token.
    pub fn tok(self, row: usize, i: usize) -> Span {
        let tok = self.src.tok(row, i);
        Span {
            row,
            at: tok.at,
            len: tok.len.max(1),
        }
    }

    /// The place of the tokens from one up to another one, which isn't among them.
    pub fn toks(self, row: usize, from: usize, to: usize) -> Span {
        let at = self.src.tok(row, from).at;
        let len = self.src.between(row, from, to).len();
        Span {
            row,
            at,
            len: len.max(1),
        }
    }

    /// The place of all that stands on a row.
    pub fn all(self, row: usize) -> Span {
        let found = self.src.row(row);
        let len = found.code.saturating_sub(found.indent);
        Span {
            row,
            at: found.indent,
            len: len.max(1),
        }
    }

    /// The place of the spaces in front of a row.
    pub fn margin(self, row: usize) -> Span {
        let found = self.src.row(row);
        Span {
            row,
            at: 0,
            len: found.indent.max(1),
        }
    }

    /// What stands for an error on a row for which there was no memory.
    pub fn lost(self, row: usize) -> Told {
        Told::lost(self.alloc, self.all(row))
    }

    /// An error of that fault at a place, with its sentence.
    pub fn tell(self, place: Span, fault: &str, words: &str, pieces: &[P]) -> Told {
        let mut told = Told::new(self.alloc, place, fault.as_bytes());
        told.say(words, pieces);
        told
    }

    /// An error of that fault at a place: its sentence, what is said there, and its hint, with the pieces in order.
    pub fn whole(self, place: Span, fault: &str, words: (&str, &str, &str), pieces: &[P]) -> Told {
        let (sentence, here, hint) = words;
        let rest = behind(sentence, pieces);
        let mut told = self.tell(place, fault, sentence, pieces);
        told.here(here, rest);
        told.hint(hint, behind(here, rest));
        told
    }

    /// What stands at a token, as it is told behind *found*: words, and bytes of the text.
    pub fn found(self, row: usize, i: usize) -> (&'static str, &'a [u8]) {
        let text = self.src.text_of(row, i);
        match self.src.tok(row, i).kind {
            TokKind::End => ("the end of the line", text),
            TokKind::Name if foreign(text).is_none() => ("the name ", text),
            _ => ("", text),
        }
    }
}

/// The pieces behind those that words take.
pub fn behind<'p, 'q>(words: &str, pieces: &'p [P<'q>]) -> &'p [P<'q>] {
    let taken = words
        .as_bytes()
        .iter()
        .filter(|byte| **byte == b'%')
        .count();
    &pieces[taken.min(pieces.len())..]
}

/// Whether two words differ by capitals alone.
pub fn alike(one: &[u8], two: &[u8]) -> bool {
    one.len() == two.len()
        && one
            .iter()
            .zip(two)
            .all(|(a, b)| a.to_ascii_lowercase() == b.to_ascii_lowercase())
}

/// The reserved word that a name is but for its capitals.
pub fn reserved(name: &[u8]) -> Option<&'static str> {
    for word in [
        "SEQ", "PAR", "ALT", "IF", "SKIP", "STOP", "CHAN", "PROC", "BOOL", "WORD1", "WORD2",
        "WORD3", "WORD4", "WORD5", "WORD6", "WORD7", "WORD8",
    ] {
        if alike(name, word.as_bytes()) {
            return Some(word);
        }
    }
    None
}

/// The bits of a type's word: 0 for BOOL.
pub fn width_of(word: &[u8]) -> Option<u8> {
    for bits in 0..9 {
        if width_word(bits).as_bytes() == word {
            return Some(bits);
        }
    }
    None
}

/// The word of a type with so many bits.
pub fn width_word(bits: u8) -> &'static str {
    match bits {
        0 => "BOOL",
        1 => "WORD1",
        2 => "WORD2",
        3 => "WORD3",
        4 => "WORD4",
        5 => "WORD5",
        6 => "WORD6",
        7 => "WORD7",
        _ => "WORD8",
    }
}

const TYPE_HINT: &str = "take the least width that holds the values, as WORD4 for 0 to 15";

const FRACTION: &str = "there are no fractions: count in a smaller unit";

/// The types of full occam and of other languages.
const TYPES: [(&str, &str); 10] = [
    ("INT", TYPE_HINT),
    ("BYTE", "a byte is WORD8"),
    ("INT16", TYPE_HINT),
    ("INT32", TYPE_HINT),
    ("INT64", TYPE_HINT),
    ("REAL32", FRACTION),
    ("REAL64", FRACTION),
    ("REAL", FRACTION),
    ("UINT", TYPE_HINT),
    ("CHAR", "a letter is its number, a WORD8"),
];

const REPEAT: &str =
    "everything ends here: repeat a fixed number of times with SEQ i = 0 FOR n, n a numeral up to 64";

const LEVELS: &str = "what belongs together is told by the levels: leave the word out";

const CASES: &str = "write IF, with a choice x = 1 for each value and a last choice TRUE";

const LAST: &str = "the last choice of an IF is TRUE";

const EXPRESSION: &str = "there are no functions: write the expression where it is used";

const CARRIES: &str = "a channel carries one type: declare a channel for each kind of item";

const NO_PLACE: &str = "nothing is placed here: declare a channel or a variable";

const NO_PRODUCT: &str = "there is no multiplication and no division: PLUS and MINUS alone";

/// Their other words.
const WORDS: [(&str, &str); 30] = [
    ("WHILE", REPEAT),
    ("REPEAT", REPEAT),
    ("UNTIL", REPEAT),
    ("LOOP", REPEAT),
    (
        "TIMER",
        "time isn't told: let a channel parameter stand for the tick, as CHAN OF BOOL tick?",
    ),
    (
        "PRI",
        "write ALT: which of two ready guards is taken is left open, and all ways are compared",
    ),
    (
        "PLACED",
        "write PAR: where a part runs is of no matter here",
    ),
    (
        "VAL",
        "leave VAL out: a parameter that is never assigned keeps its value",
    ),
    ("ELSE", LAST),
    ("OTHERWISE", LAST),
    ("END", LEVELS),
    ("BEGIN", LEVELS),
    ("ENDIF", LEVELS),
    ("ENDPROC", LEVELS),
    ("CASE", CASES),
    ("SWITCH", CASES),
    ("FUNCTION", EXPRESSION),
    ("VALOF", EXPRESSION),
    ("RESULT", EXPRESSION),
    ("PROTOCOL", CARRIES),
    ("ANY", CARRIES),
    ("RETYPES", NO_PLACE),
    ("PLACE", NO_PLACE),
    ("PORT", NO_PLACE),
    ("REM", NO_PRODUCT),
    ("TIMES", NO_PRODUCT),
    ("BITAND", "write /\\"),
    ("BITOR", "write \\/"),
    ("BITNOT", "write ~"),
    ("AFTER", "write < or >: words are compared as they are"),
];

fn entry(table: &[(&'static str, &'static str)], word: &[u8]) -> Option<&'static str> {
    for (name, hint) in table {
        if word == name.as_bytes() {
            return Some(*hint);
        }
    }
    None
}

/// Whether a word of another language, or of full occam, is a type, and what is written in its place.
pub fn foreign(word: &[u8]) -> Option<(bool, &'static str)> {
    match entry(&TYPES, word) {
        Some(hint) => Some((true, hint)),
        None => entry(&WORDS, word).map(|hint| (false, hint)),
    }
}
