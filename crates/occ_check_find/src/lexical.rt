//! What is told of a row whose bytes aren't tokens.

use crate::look::{Form, Look, width_word};
use crate::scope::{Scopes, Sort, size_of};
use crate::syntax::INDEX;
use occ_check_text::{Piece as P, Put, Span, TokKind, Told};

/// What is told of a tab.
pub fn tab(look: Look, row: usize) -> Told {
    let found = look.src.row(row);
    let bytes = look.src.bytes(row, 0, found.code);
    let at = bytes.iter().position(|byte| *byte == b'\t').unwrap_or(0);
    let words = if at < found.indent {
        (
            "a tab stands in front",
            "expected 2 spaces, found a tab",
            "each level is two spaces; put two spaces for each tab of this file",
        )
    } else {
        (
            "a tab stands between the words",
            "expected a space, found a tab",
            "put a space for each tab of this file",
        )
    };
    let mut told = look.whole(Span { row, at, len: 1 }, "Line Tab", words, &[]);
    let last = (row..look.src.rows())
        .rev()
        .find(|r| look
            .src
            .bytes(*r, 0, look.src.row(*r).code)
            .contains(&b'\t'))
        .unwrap_or(row);
    if last > row {
        let (one, two) = (row.saturating_add(1), last.saturating_add(1));
        told.hint(" (lines % to %)", &[P::N(one), P::N(two)]);
    }
    told
}

/// What is told of an odd number of spaces in front.
pub fn odd_indent(look: Look, row: usize) -> Told {
    let spaces = look.src.row(row).indent;
    let low = spaces / 2;
    let deep = fits_deeper(look, row, low.saturating_add(1));
    let level = if deep { low.saturating_add(1) } else { low };
    let words = (
        if spaces == 1 {
            "% space in front: each level is two"
        } else {
            "% spaces in front: each level is two"
        },
        "expected % or % spaces, found %",
        "write this line at level %, with % spaces",
    );
    let pieces = [
        P::N(spaces),
        P::N(spaces.saturating_sub(1)),
        P::N(spaces.saturating_add(1)),
        P::N(spaces),
        P::N(level),
        P::N(level.saturating_mul(2)),
    ];
    look.whole(look.margin(row), "Line OddIndent", words, &pieces)
}

/// Whether the nearest row before one asks for parts at that level.
fn fits_deeper(look: Look, row: usize, level: usize) -> bool {
    match look.before(row) {
        Some(before) => {
            let opens = matches!(
                look.form(before),
                Form::Header
                    | Form::Seq
                    | Form::Par
                    | Form::If
                    | Form::Alt
                    | Form::Guard
                    | Form::Condition
            );
            opens && look.src.level(before).saturating_add(1) == level
        }
        None => false,
    }
}

/// What is told of a byte that begins no token.
pub fn char(look: Look, scopes: &Scopes, row: usize) -> Told {
    let src = look.src;
    let i = (0..src.count(row))
        .find(|i| matches!(src.tok(row, *i).kind, TokKind::Other))
        .unwrap_or(0);
    let text = src.text_of(row, i);
    if text.starts_with(&[0xef, 0xbb, 0xbf]) && src.tok(row, i).at == 0 && row == 0 {
        let words = (
            "the file begins with a byte order mark",
            "expected PROC, found the bytes EF BB BF",
            "save the file as UTF-8 without a byte order mark",
        );
        return look.whole(look.tok(0, i), "Line Char", words, &[]);
    }
    match text.first().copied().unwrap_or(b' ') {
        b'_' | 0x80.. => letter(look, row, i),
        0x00..=0x1f | 0x7f => control(look, row, i),
        _ => sign(look, scopes, row, i),
    }
}

/// A byte that no text shows.
fn control(look: Look, row: usize, i: usize) -> Told {
    let mut bytes = Put::new(look.alloc);
    hex(&mut bytes, look.src.text_of(row, i));
    let words = (
        "a byte that no text shows stands here",
        "expected %, found the byte%",
        "take it out; a line ends with a line feed, or a carriage return directly before it",
    );
    let pieces = [P::T(expected_there(look, row, i)), P::W(&bytes)];
    look.whole(look.tok(row, i), "Line Char", words, &pieces)
}

/// Writes bytes in hexadecimal.
fn hex(put: &mut Put, bytes: &[u8]) {
    for byte in bytes {
        put.add(b" ");
        for digit in [*byte / 16, *byte % 16] {
            let letter = if digit < 10 {
                b'0'.saturating_add(digit)
            } else {
                b'A'.saturating_add(digit.saturating_sub(10))
            };
            put.add(&[letter]);
        }
    }
}

/// Whether a byte goes on a word that a user meant as a name.
fn is_wordy(byte: u8) -> bool {
    byte.is_ascii_alphanumeric() || byte == b'.' || byte == b'_' || byte >= 0x80
}

/// The word around a place of a row, as a user meant it.
fn word_around(look: Look, row: usize, at: usize) -> Span {
    let bytes = look.src.bytes(row, 0, look.src.row(row).code);
    let mut from = at;
    for (i, byte) in bytes.iter().enumerate() {
        if i <= at && !is_wordy(*byte) {
            from = i.saturating_add(1);
        }
        if i == 0 && is_wordy(*byte) {
            from = 0;
        }
    }
    let rest = look.src.bytes(row, from, bytes.len());
    let len = rest.iter().take_while(|byte| is_wordy(**byte)).count();
    Span { row, at: from, len }
}

/// The second bytes of letters with a mark, from the one to the other, and what is written for them.
const LETTERS: [(u8, u8, &str); 17] = [
    (0x84, 0x84, "Ae"),
    (0x96, 0x96, "Oe"),
    (0x9c, 0x9c, "Ue"),
    (0x9f, 0x9f, "ss"),
    (0xa0, 0xa3, "a"),
    (0xa4, 0xa4, "ae"),
    (0xa5, 0xa5, "a"),
    (0xa6, 0xa6, "ae"),
    (0xa7, 0xa7, "c"),
    (0xa8, 0xab, "e"),
    (0xac, 0xaf, "i"),
    (0xb1, 0xb1, "n"),
    (0xb2, 0xb5, "o"),
    (0xb6, 0xb6, "oe"),
    (0xb8, 0xb8, "oe"),
    (0xb9, 0xbb, "u"),
    (0xbc, 0xbc, "ue"),
];

/// Writes a word with letters of names alone.
fn plain_word(put: &mut Put, word: &[u8]) {
    let mut before = 0;
    for byte in word {
        if *byte == b'_' {
            put.add(b".");
        } else if *byte < 0x80 {
            put.add(&[*byte]);
        } else if before == 0xc3 {
            for (from, to, letters) in &LETTERS {
                if *from <= *byte && *byte <= *to {
                    put.add(letters.as_bytes());
                }
            }
        }
        before = *byte;
    }
}

/// Whether a word stands on a row.
fn stands_on(look: Look, row: usize, word: &[u8]) -> bool {
    let bytes = look.src.bytes(row, 0, look.src.row(row).code);
    !word.is_empty() && bytes.windows(word.len()).any(|part| part == word)
}

/// Adds the other rows on which a word stands: four at most.
fn other_rows(look: Look, word: &[u8], row: usize, told: &mut Told) {
    let mut count: usize = 0;
    for other in row.saturating_add(1)..look.src.rows() {
        if stands_on(look, other, word) {
            if count == 4 {
                told.hint(" ..", &[]);
                break;
            }
            let front = if count == 0 {
                " (here and on line "
            } else {
                ", "
            };
            told.hint("%%", &[P::T(front), P::N(other.saturating_add(1))]);
            count = count.saturating_add(1);
        }
    }
    if count > 0 {
        told.hint(")", &[]);
    }
}

/// A letter that can't stand in a name.
fn letter(look: Look, row: usize, i: usize) -> Told {
    let place = look.tok(row, i);
    let text = look.src.text_of(row, i);
    let mut bytes = Put::new(look.alloc);
    let words = if text == b"_".as_slice() {
        (
            "a _ can't stand in a name",
            "expected a letter, a digit or a dot, found _",
            "",
        )
    } else {
        hex(&mut bytes, text);
        (
            "this letter can't stand in a name",
            "expected a to z, A to Z, a digit or a dot, found the bytes%",
            "",
        )
    };
    let mut told = look.whole(place, "Line Char", words, &[P::W(&bytes)]);
    let span = word_around(look, row, place.at);
    let word = look.src.bytes(row, span.at, span.len);
    let mut plain = Put::new(look.alloc);
    plain_word(&mut plain, word);
    if plain
        .bytes()
        .first()
        .is_some_and(|byte| byte.is_ascii_alphabetic())
    {
        told.hint("write %", &[P::Cut(&plain)]);
        other_rows(look, word, row, &mut told);
    }
    told
}

/// A sign of other languages.
fn sign(look: Look, scopes: &Scopes, row: usize, i: usize) -> Told {
    let text = look.src.text_of(row, i);
    let next = look.src.tok(row, i.saturating_add(1));
    let joined = matches!(text, b"#" | b"-")
        && matches!(next.kind, TokKind::Name | TokKind::Numeral);
    let span = if joined && !follows_operand(look, row, i) {
        look.toks(row, i, hex_end(look, row, i))
    } else {
        look.tok(row, i)
    };
    let words = ("a % isn't in this language", "expected %, found %", "");
    let expected = P::T(expected_there(look, row, i));
    let mut told = look.whole(
        span,
        "Line Char",
        words,
        &[P::B(text), expected, P::B(text)],
    );
    sign_hint(look, scopes, row, i, &mut told);
    told
}

/// Behind the digits of a numeral in hexadecimal, or of one with a sign.
fn hex_end(look: Look, row: usize, i: usize) -> usize {
    let mut end = i.saturating_add(1);
    for k in i.saturating_add(1)..look.src.count(row) {
        let (before, tok) = (look.src.tok(row, k.saturating_sub(1)), look.src.tok(row, k));
        let touches = before.at.saturating_add(before.len) == tok.at;
        if !touches || !matches!(tok.kind, TokKind::Name | TokKind::Numeral) {
            break;
        }
        end = k.saturating_add(1);
    }
    end
}

/// Whether an operand stands directly in front.
fn follows_operand(look: Look, row: usize, i: usize) -> bool {
    let before = i.saturating_sub(1);
    i > 0
        && (matches!(
            look.src.tok(row, before).kind,
            TokKind::Name | TokKind::Numeral
        ) || matches!(look.src.text_of(row, before), b")" | b"]"))
}

/// Whether a token stands between the brackets of an index.
fn is_in_index(look: Look, row: usize, i: usize) -> bool {
    let mut inside = false;
    for k in 0..i {
        match look.src.text_of(row, k) {
            b"[" => inside = true,
            b"]" => inside = false,
            _ => {}
        }
    }
    inside
}

fn expected_there(look: Look, row: usize, i: usize) -> &'static str {
    let follows = follows_operand(look, row, i);
    if is_in_index(look, row, i) {
        "PLUS, MINUS or ]"
    } else if follows && look.src.is(row, i, ";") {
        "the end of the line"
    } else if i == 0 {
        "a process or a declaration"
    } else if follows {
        "an operator"
    } else {
        "an operand"
    }
}

/// The value of digits in hexadecimal, where it is at most 255.
fn hex_value(digits: &[u8]) -> Option<usize> {
    let mut value: usize = 0;
    for byte in digits {
        let digit = match *byte {
            b'0'..=b'9' => byte.saturating_sub(b'0'),
            b'A'..=b'F' => byte.saturating_sub(b'A').saturating_add(10),
            b'a'..=b'f' => byte.saturating_sub(b'a').saturating_add(10),
            _ => return None,
        };
        value = value.saturating_mul(16).saturating_add(usize::from(digit));
        if value > 255 {
            return None;
        }
    }
    if digits.is_empty() { None } else { Some(value) }
}

fn sign_hint(look: Look, scopes: &Scopes, row: usize, i: usize, told: &mut Told) {
    let text = look.src.text_of(row, i);
    let words = match text {
        b";" => return semicolon_hint(look, row, i, told),
        b"#" => return hex_hint(look, row, i, told),
        b"-" => return minus_hint(look, scopes, row, i, told),
        b"+" => "write % PLUS %",
        b"*" if is_in_index(look, row, i) => INDEX,
        b"*" | b"/" | b"\\" | b"%" =>
            "there is no multiplication and no division: add with PLUS, and choose with IF",
        b"'" | b"\"" => "a letter is its number, as 65 for A",
        b"{" | b"}" => "what belongs together is told by the levels: two spaces for each",
        b"|" => "write OR between two BOOL, \\/ between two words",
        b"^" => "write >< for the exclusive or of two words",
        _ => return,
    };
    told.hint(words, &[one_before(look, row, i), one_behind(look, row, i)])
}

fn one_before<'a>(look: Look<'a>, row: usize, i: usize) -> P<'a> {
    P::B(look.src.text_of(row, i.saturating_sub(1)))
}

fn one_behind<'a>(look: Look<'a>, row: usize, i: usize) -> P<'a> {
    P::B(look.src.text_of(row, i.saturating_add(1)))
}

fn hex_hint(look: Look, row: usize, i: usize, told: &mut Told) {
    let end = hex_end(look, row, i);
    let all = look.src.between(row, i, end);
    let digits = look.src.between(row, i.saturating_add(1), end);
    match hex_value(digits) {
        Some(value) => told.hint("numerals are decimal: % is %", &[P::B(all), P::N(value)]),
        None => told.hint("numerals are decimal, from 0 to 255", &[]),
    }
}

fn semicolon_hint(look: Look, row: usize, i: usize, told: &mut Told) {
    let src = look.src;
    for mark in ["!", "?"] {
        if let Some(k) = src.find(row, 0, mark).filter(|k| *k < i) {
            let (chan, sign) = (P::B(src.between(row, 0, k)), P::T(mark));
            let first = P::B(src.between(row, k.saturating_add(1), i));
            let rest = P::B(src.between(row, i.saturating_add(1), src.count(row)));
            return told.hint(
                "a communication has one item: write a SEQ of % % % and % % %",
                &[chan, sign, first, chan, sign, rest],
            );
        }
    }
    told.hint("each process is a line of its own: leave the ; out", &[])
}

fn minus_hint(look: Look, scopes: &Scopes, row: usize, i: usize, told: &mut Told) {
    let behind = one_behind(look, row, i);
    if follows_operand(look, row, i) {
        return told.hint("write % MINUS %", &[one_before(look, row, i), behind]);
    }
    let width = match scopes.find(look.src, row, 0).map(|decl| decl.sort) {
        Some(Sort::Var(bits)) => bits,
        _ => 0,
    };
    let number = numeral(look.src.text_of(row, i.saturating_add(1)));
    let size = size_of(width);
    if number == 0 || number >= size {
        return told.hint("words have no sign and wrap: take MINUS", &[]);
    }
    let words = if number == 1 {
        "words have no sign and wrap: in % the number -% is %, and % MINUS % takes one away"
    } else {
        "words have no sign and wrap: in % the number -% is %, and % MINUS % takes so much away"
    };
    let wrapped = P::N(size.saturating_sub(number));
    let (width, number) = (P::T(width_word(width)), P::N(number));
    let target = P::B(look.src.text_of(row, 0));
    told.hint(words, &[width, number, wrapped, target, number])
}

/// The value of decimal digits, as far as it is below a million; 0 where they are none.
pub fn numeral(digits: &[u8]) -> usize {
    let mut value: usize = 0;
    for byte in digits {
        if byte.is_ascii_digit() && value < 100_000 {
            value = value
                .saturating_mul(10)
                .saturating_add(usize::from(byte.saturating_sub(b'0')));
        }
    }
    value
}

/// What is told of a numeral above 255.
pub fn number(look: Look, row: usize) -> Told {
    let src = look.src;
    let at = (0..src.count(row)).find(|i| {
        matches!(src.tok(row, *i).kind, TokKind::Numeral) && numeral(src.text_of(row, *i)) > 255
    });
    let at = at.unwrap_or(0);
    let text = P::B(src.text_of(row, at));
    let words = (
        "% is above 255",
        "expected 0 to 255, found %",
        "the widest type is WORD8: take a smaller scale, or two words",
    );
    look.whole(look.tok(row, at), "Line Number", words, &[text, text])
}

/// What is told of a name that is too long.
pub fn name(look: Look, row: usize) -> Told {
    let src = look.src;
    let at = (0..src.count(row)).find(|i| matches!(src.tok(row, *i).kind, TokKind::Name)
        && src.tok(row, *i).len > 32);
    let at = at.unwrap_or(0);
    let len = P::N(src.tok(row, at).len);
    let words = (
        "a name of % characters",
        "expected at most 32 characters, found %",
        "take a shorter name",
    );
    look.whole(look.tok(row, at), "Line Name", words, &[len, len])
}
