use occ_syntax::Memory;
use std::alloc::Global;

/// The lines of a text, for what is shown of them.
#[derive(Drop)]
pub struct Source {
    lines: Vec<Vec<u8>>,
}

impl Source {
    /// The lines of a text.
    pub fn new(alloc: Global, text: &[u8]) -> Result<Source, Memory> {
        let mut lines = Vec::new(alloc);
        let mut line = Vec::new(alloc);
        for byte in text {
            if *byte == b'\n' {
                lines.push(line)?;
                line = Vec::new(alloc);
            } else if *byte != b'\r' {
                line.push(*byte)?;
            }
        }
        lines.push(line)?;
        Ok(Source { lines })
    }

    /// The line of that number, counted from 1; nothing where there is none.
    pub fn line(&self, number: u32) -> &[u8] {
        match self.lines.get((number as usize).saturating_sub(1)) {
            Some(line) => line.as_slice(),
            None => b"",
        }
    }

    /// What a line says, without the spaces around it and its comment.
    pub fn statement(&self, number: u32) -> &[u8] {
        let line = trimmed_front(self.line(number));
        trimmed_end(front_of_comment(line))
    }

    /// The comment that stands alone on the line above that one; nothing where there is none.
    pub fn comment_above(&self, number: u32) -> &[u8] {
        if number < 2 {
            return b"";
        }
        let line = trimmed_front(self.line(number - 1));
        if line.starts_with(b"--") {
            trimmed_end(line)
        } else {
            b""
        }
    }

    /// Whether a word stands on one of the lines from the first to the last.
    pub fn names(&self, first: u32, last: u32, word: &[u8]) -> bool {
        for number in first..last.saturating_add(1) {
            if has_word(self.statement(number), word) {
                return true;
            }
        }
        false
    }
}

fn trimmed_front(line: &[u8]) -> &[u8] {
    let mut rest = line;
    while let [b' ', later @ ..] = rest {
        rest = later;
    }
    rest
}

fn trimmed_end(line: &[u8]) -> &[u8] {
    let mut rest = line;
    while let [front @ .., b' '] = rest {
        rest = front;
    }
    rest
}

fn front_of_comment(line: &[u8]) -> &[u8] {
    for (len, _) in line.iter().enumerate() {
        if line[len..].starts_with(b"--") {
            return &line[..len];
        }
    }
    line
}

/// Whether a word stands in a line, not as a piece of a longer one.
fn has_word(line: &[u8], word: &[u8]) -> bool {
    let mut rest = line;
    let mut inside = false;
    while let [first, later @ ..] = rest {
        if !inside && begins_with(rest, word) {
            return true;
        }
        inside = is_of_word(*first);
        rest = later;
    }
    false
}

/// Whether a text begins with a word that doesn't go on.
fn begins_with(text: &[u8], word: &[u8]) -> bool {
    let mut rest = text;
    let mut left = word;
    while let [byte, more @ ..] = left {
        let [first, later @ ..] = rest else {
            return false;
        };
        if first != byte {
            return false;
        }
        rest = later;
        left = more;
    }
    match rest {
        [first, ..] => !is_of_word(*first),
        [] => true,
    }
}

fn is_of_word(byte: u8) -> bool {
    byte.is_ascii_alphanumeric() || byte == b'.'
}
