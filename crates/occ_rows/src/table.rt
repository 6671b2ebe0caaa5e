//! A table as it is read.

ghost use Rattle.std.specs.Prelude.{◌≡◌, IfOk};

use crate::entry::{Entry, bytes_of, find, is_known, push_lines, push_many, push_numbers};
use occ_desk::{Memory, MemoryDesk};
use std::alloc::Global;

/// The bytes that a desk takes.
const ROOM: usize = 2_000_000;

/// The texts of a table that have names, the case that was read last, and what the case in front of it wrote.
#[derive(Drop)]
pub struct Table {
    // The named texts, and behind them what stands in the case.
    entries: Vec<Entry>,
    texts: usize,
    written: Vec<u8>,
    alloc: Global,
}

impl Table {
    /// A table of which nothing was read.
    pub fn new(alloc: Global) -> Table {
        Table {
            entries: Vec::new(alloc),
            texts: 0,
            written: Vec::new(alloc),
            alloc,
        }
    }

    /// Reads the lines of a block, in the place of the case that was there, and says whether they are a case. A block without a case
    /// names texts, which are kept.
    pub fn read(&mut self, block: &str) -> Result<bool, Memory> {
        self.entries.truncate(self.texts);
        for line in block.lines() {
            self.read_line(line)?;
        }
        let is_case = find(self.entries.as_slice(), "CASE ").is_some();
        if !is_case {
            self.texts = self.entries.len();
        }
        Ok(is_case)
    }

    /// Reads one line: a note, bytes of the entry above it, or the head of an entry.
    fn read_line(&mut self, line: &str) -> Result<(), Memory> {
        if line.starts_with('#') {
            return Ok(());
        }
        let mut bytes = Vec::new(self.alloc);
        if self.push_bytes(line, &mut bytes)? {
            if let Some(entry) = self.entries.last_mut() {
                entry.bytes.extend_from_slice(bytes.as_slice())?;
            }
            return Ok(());
        }
        let head = String::from_str(self.alloc, line)?;
        self.entries.push(Entry { head, bytes })?;
        Ok(())
    }

    /// Adds the bytes that a line says by its mark. The answer is whether it has a mark.
    fn push_bytes(&self, line: &str, into: &mut Vec<u8>) -> Result<bool, Memory> {
        if let Some(text) = line.strip_prefix('|') {
            into.extend_from_slice(text.as_bytes())?;
            into.push(b'\n')?;
        } else if let Some(text) = line.strip_prefix('.') {
            into.extend_from_slice(text.as_bytes())?;
        } else if let Some(numbers) = line.strip_prefix('+') {
            push_numbers(into, numbers)?;
        } else if let Some(counted) = line.strip_prefix('*') {
            push_many(into, counted)?;
        } else if let Some(named) = line.strip_prefix('@') {
            return self.push_named(into, named);
        } else if line == "<" {
            into.extend_from_slice(self.written.as_slice())?;
        } else {
            return Ok(false);
        }
        Ok(true)
    }

    /// Adds a named text, or those of its lines whose numbers follow the name. The answer is whether there is such a text.
    fn push_named(&self, into: &mut Vec<u8>, named: &str) -> Result<bool, Memory> {
        let mut words = named.split_whitespace();
        let name = words.next().unwrap_or("");
        let first = words.next().unwrap_or("").parse::<u64>().unwrap_or(1);
        let last = words
            .next()
            .unwrap_or("")
            .parse::<u64>()
            .unwrap_or(u64::MAX);
        for entry in &self.entries {
            if entry.head.as_str().strip_prefix("TEXT ") == Some(name) {
                push_lines(into, entry.bytes.as_slice(), first, last)?;
                return Ok(true);
            }
        }
        Ok(false)
    }

    /// What the case shows.
    pub fn name(&self) -> &str {
        match find(self.entries.as_slice(), "CASE ") {
            Some((name, _)) => name,
            None => "",
        }
    }

    /// The words of the command line, the program's own name first.
    pub fn words(&self) -> Result<Vec<String>, Memory> {
        let mut words = Vec::new(self.alloc);
        for entry in &self.entries {
            if let Some(line) = entry.head.as_str().strip_prefix("WORDS ") {
                for word in line.split_whitespace() {
                    words.push(String::from_str(self.alloc, word)?)?;
                }
            } else if let Some(word) = entry.head.as_str().strip_prefix("WORD |") {
                words.push(String::from_str(self.alloc, word)?)?;
            }
        }
        Ok(words)
    }

    /// A desk with the files A, B and T of the case, of which the calls fail that the case names.
    pub fn desk(&self) -> Result<MemoryDesk, Memory>
        ensures reads { IfOk result (λ desk. desk.read_faults ≡ 0) }
        ensures writes { IfOk result (λ desk. desk.write_faults ≡ 0) }
    {
        let entries = self.entries.as_slice();
        let mut failing = Vec::new(self.alloc);
        for call in bytes_of(entries, "FAILS") {
            failing.push(u64::from(*call))?;
        }
        let piece = match bytes_of(entries, "PIECE") {
            [piece, ..] => usize::from(*piece).max(1),
            [] => ROOM,
        };
        let mut desk = MemoryDesk::new(self.alloc, failing.as_slice(), piece, ROOM)?;
        desk.add("A", bytes_of(entries, "FILE A"))?;
        desk.add("B", bytes_of(entries, "FILE B"))?;
        desk.add("T", bytes_of(entries, "FILE T"))?;
        Ok(desk)
    }

    /// Whether the case expects this status and these bytes, and each of its heads has a known word.
    pub fn is_right(&self, status: u8, written: &[u8]) -> bool {
        let entries = self.entries.as_slice();
        for entry in entries {
            if !is_known(entry.head.as_str()) {
                return false;
            }
        }
        let Some((wanted, bytes)) = find(entries, "STATUS ") else {
            return false;
        };
        let begin = bytes_of(entries, "BEGINS");
        let end = bytes_of(entries, "ENDS");
        let is_written = if begin.is_empty() && end.is_empty() {
            written == bytes
        } else {
            written.starts_with(begin) && written.ends_with(end)
        };
        is_written && wanted.parse::<u8>() == Ok(status)
    }

    /// Keeps what was written, which the next case may name.
    pub fn keep(&mut self, written: &[u8]) -> Result<(), Memory> {
        self.written.clear();
        self.written.extend_from_slice(written)?;
        Ok(())
    }
}
