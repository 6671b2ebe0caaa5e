use crate::{Piece, Put, Source};
use std::alloc::Global;

/// A place in a text: the row, counted from 0, the first byte in it, counted from 0, and how many bytes.
#[derive(Clone, Copy, Debug)]
pub struct Span {
    pub row: usize,
    pub at: usize,
    pub len: usize,
}

/// A place with what is said of it. The main one is the place of the fault.
#[derive(Debug, Drop)]
pub struct Mark {
    span: Span,
    main: bool,
    note: Put,
}

/// What is told of one fault, and whether memory ran out for a mark of it.
#[derive(Debug, Drop)]
pub struct Told {
    alloc: Global,
    pub place: Span,
    pub is_warning: bool,
    pub fault: Put,
    pub sentence: Put,
    marks: Vec<Mark>,
    also: Put,
    hint: Put,
    lost: bool,
}

/// The most columns of a hint's line.
const MOST_COLUMNS: usize = 94;

impl Told {
    /// An error with this fault at a place.
    pub fn new(alloc: Global, place: Span, fault: &[u8]) -> Told {
        let mut words = Put::new(alloc);
        words.add(fault);
        Told {
            alloc,
            place,
            is_warning: false,
            fault: words,
            sentence: Put::new(alloc),
            marks: Vec::new(alloc),
            also: Put::new(alloc),
            hint: Put::new(alloc),
            lost: false,
        }
    }

    /// What stands for an error for which there was no memory: it can't be written.
    pub fn lost(alloc: Global, place: Span) -> Told {
        let mut told = Told::new(alloc, place, b"");
        told.lost = true;
        told
    }

    /// Adds to the sentence.
    pub fn say(&mut self, words: &str, pieces: &[Piece]) {
        self.sentence.say(words, pieces);
    }

    /// Adds to the hint.
    pub fn hint(&mut self, words: &str, pieces: &[Piece]) {
        self.hint.say(words, pieces);
    }

    /// Adds to what is told of further faults of the same cause.
    pub fn also(&mut self, words: &str, pieces: &[Piece]) {
        self.also.say(words, pieces);
    }

    /// Whether further faults of the same cause are told.
    pub fn has_also(&self) -> bool {
        !self.also.is_empty()
    }

    fn add(&mut self, span: Span, main: bool, words: &str, pieces: &[Piece]) {
        let mut note = Put::new(self.alloc);
        note.say(words, pieces);
        let pushed = self.marks.push(Mark { span, main, note });
        self.lost = self.lost || pushed.is_err();
    }

    /// A place that explains the fault, and what is said of it.
    pub fn mark(&mut self, span: Span, words: &str, pieces: &[Piece]) {
        self.add(span, false, words, pieces);
    }

    /// The carets at the fault's own place, and what is said there.
    pub fn here(&mut self, words: &str, pieces: &[Piece]) {
        self.add(self.place, true, words, pieces);
    }

    pub(crate) fn last_row(&self) -> usize {
        let mut last = 0;
        for mark in &self.marks {
            last = last.max(mark.span.row);
        }
        last
    }

    /// The least row of a mark that isn't below the given one.
    fn next_row(&self, from: usize) -> Option<usize> {
        let mut found = None;
        for mark in &self.marks {
            let row = mark.span.row;
            if row >= from {
                found = match found {
                    Some(least) if least <= row => Some(least),
                    _ => Some(row),
                };
            }
        }
        found
    }
}

pub(crate) fn digits(number: usize) -> usize {
    let mut count: usize = 1;
    let mut rest = number / 10;
    for _ in 0..20 {
        if rest > 0 {
            count = count.saturating_add(1);
            rest /= 10;
        }
    }
    count
}

/// Writes a row's bytes: a tab as an arrow, a byte order mark as a dot.
fn write_bytes(out: &mut Put, bytes: &[u8]) {
    let mut rest = bytes;
    if let [0xef, 0xbb, 0xbf, behind @ ..] = bytes {
        out.add(&[0xc2, 0xb7]);
        rest = behind;
    }
    for byte in rest {
        if *byte == b'\t' {
            out.add(&[0xe2, 0x86, 0x92]);
        } else {
            out.add(&[*byte]);
        }
    }
}

/// How many columns bytes take.
fn columns(bytes: &[u8]) -> usize {
    let mut count = 0usize;
    let mut rest = bytes;
    if let [0xef, 0xbb, 0xbf, behind @ ..] = bytes {
        count = 1;
        rest = behind;
    }
    for byte in rest {
        if *byte & 0xc0 != 0x80 {
            count = count.saturating_add(1);
        }
    }
    count
}

/// Writes a row of the text with its number.
fn write_row(out: &mut Put, source: &Source, row: usize, width: usize) {
    let number = row.saturating_add(1);
    out.add_often(b' ', width.saturating_sub(digits(number)).saturating_add(1));
    out.add_number(number);
    out.add(b" |");
    write_shown(out, source, row);
}

fn write_mark(out: &mut Put, source: &Source, mark: &Mark, width: usize) {
    let span = mark.span;
    out.add_often(b' ', width.saturating_add(1));
    out.add(b" | ");
    let before = source.bytes(span.row, 0, span.at);
    let missing = span.at.saturating_sub(before.len());
    out.add_often(b' ', columns(before).saturating_add(missing));
    let under = columns(source.bytes(span.row, span.at, span.len));
    out.add_often(if mark.main { b'^' } else { b'-' }, under.max(1));
    if !mark.note.is_empty() {
        out.add(b" ");
    }
    out.join(&mark.note);
    out.add(b"\n");
}

/// Writes words behind a label, in lines of a width that is easily read.
fn write_wrapped(out: &mut Put, label: &str, words: &[u8]) {
    if words.is_empty() {
        return;
    }
    out.add(b"   ");
    out.add(label.as_bytes());
    let mut column = label.len().saturating_add(3);
    for word in words.split(|byte| *byte == b' ') {
        let long = columns(word).saturating_add(1);
        if column.saturating_add(long) > MOST_COLUMNS && column > 9 {
            out.add(b"\n        ");
            column = 8;
        }
        out.add(b" ");
        out.add(word);
        column = column.saturating_add(long);
    }
    out.add(b"\n");
}

/// Writes where and what the fault is.
fn write_head(out: &mut Put, file: &[u8], told: &Told) {
    out.add(file);
    out.add(b":");
    out.add_number(told.place.row.saturating_add(1));
    out.add(b":");
    out.add_number(told.place.at.saturating_add(1));
    out.add(if told.is_warning {
        b": warning[".as_slice()
    } else {
        b": error[".as_slice()
    });
    out.join(&told.fault);
    out.add(b"]: ");
    out.join(&told.sentence);
    out.add(b"\n");
}

/// Writes a row with its marks.
fn write_marked(out: &mut Put, source: &Source, told: &Told, row: usize) {
    let width = digits(told.last_row().saturating_add(1));
    write_row(out, source, row, width);
    write_marks(out, source, told, row);
}

/// Writes the marks of a row.
pub(crate) fn write_marks(out: &mut Put, source: &Source, told: &Told, row: usize) {
    let width = digits(told.last_row().saturating_add(1));
    for mark in &told.marks {
        if mark.span.row == row {
            write_mark(out, source, mark, width);
        }
    }
}

/// Writes the rows of all marks but those of one row, and what is told behind them.
pub(crate) fn write_body(out: &mut Put, source: &Source, told: &Told, but: Option<usize>) {
    let mut from = 0;
    for _ in 0..told.marks.len() {
        let Some(row) = told.next_row(from) else {
            break;
        };
        if but != Some(row) {
            write_marked(out, source, told, row);
        }
        from = row.saturating_add(1);
    }
    write_wrapped(out, "also:", told.also.bytes());
    write_wrapped(out, "hint:", told.hint.bytes());
    out.lost = out.lost || told.lost || told.also.lost || told.hint.lost;
}

/// Writes what is told of one fault.
pub fn write_told(out: &mut Put, file: &[u8], source: &Source, told: &Told) {
    write_head(out, file, told);
    write_body(out, source, told, None);
}

/// Writes what is told of several faults.
pub fn write_all(out: &mut Put, file: &[u8], source: &Source, all: &[Told]) {
    for told in all {
        write_told(out, file, source, told);
    }
}

/// Writes the bytes of a row behind its bar.
pub(crate) fn write_shown(out: &mut Put, source: &Source, row: usize) {
    let bytes = source.bytes(row, 0, source.row(row).len);
    if !bytes.is_empty() {
        out.add(b" ");
        write_bytes(out, bytes);
    }
    out.add(b"\n");
}
