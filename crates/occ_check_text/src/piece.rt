ghost use Rattle.std.specs.Prelude.{◌≡◌, ◌++◌, decimal, replicate, OnOk, []};

use itoa::Buffer;
use occ_lex::Memory;
use std::alloc::Global;

/// A piece of what is said.
#[derive(Clone, Copy, Debug)]
pub enum Piece<'a> {
    /// Words.
    T(&'a str),
    /// Bytes of the text itself: many of them are cut.
    B(&'a [u8]),
    /// What was written before.
    W(&'a Put),
    /// What was written before: much of it is cut.
    Cut(&'a Put),
    /// A number.
    N(usize),
}

/// The most bytes of the text that a piece shows.
const MOST_SHOWN: usize = 40;

/// How many of them are left where more are cut.
const KEPT: usize = 37;

/// Bytes that are written piece by piece, and whether memory ran out for some of them.
#[derive(Debug, Drop)]
pub struct Put {
    pub(crate) bytes: Vec<u8>,
    pub(crate) lost: bool,
}

impl Put {
    /// Nothing written yet. It takes no memory.
    pub fn new(alloc: Global) -> Put
        ensures { result.bytes.items ≡ [] }
    {
        Put {
            bytes: Vec::new(alloc),
            lost: false,
        }
    }

    /// What has been written.
    pub fn bytes(&self) -> &[u8]
        ensures { result.now ≡ self.now.bytes.items }
    {
        self.bytes.as_slice()
    }

    /// What has been written.
    pub fn into_bytes(self) -> Vec<u8>
        ensures { result.items ≡ self.bytes.items }
    {
        let Put { bytes, .. } = self;
        bytes
    }

    /// Whether nothing has been written.
    pub fn is_empty(&self) -> bool {
        self.bytes.is_empty()
    }

    /// Writes bytes as they are.
    pub fn raw(&mut self, bytes: &[u8]) -> Result<(), Memory>
        ensures { OnOk result (self.new.bytes.items ≡ self.old.bytes.items ++ bytes.now) }
    {
        self.bytes.extend_from_slice(bytes)?;
        Ok(())
    }

    /// Writes a byte so many times.
    pub fn often(&mut self, byte: u8, count: usize) -> Result<(), Memory>
        ensures { OnOk result (self.new.bytes.items ≡ self.old.bytes.items ++ replicate count byte) }
    {
        for _done in 0..count {
            self.bytes.push(byte)?;
        }
        Ok(())
    }

    /// Writes a number.
    pub fn number(&mut self, number: usize) -> Result<(), Memory>
        ensures { OnOk result (self.new.bytes.items ≡ self.old.bytes.items ++ decimal number) }
    {
        let mut buffer = Buffer::new();
        self.raw(buffer.format(number as u64).as_bytes())
    }

    /// What has been written, or `Memory` where memory ran out.
    pub fn whole(self) -> Result<Vec<u8>, Memory> {
        if self.lost {
            return Err(Memory);
        }
        Ok(self.into_bytes())
    }

    fn note(&mut self, done: Result<(), Memory>) {
        self.lost = self.lost || done.is_err();
    }

    /// Writes bytes as they are; want of memory is noted.
    pub fn add(&mut self, bytes: &[u8]) {
        let done = self.raw(bytes);
        self.note(done);
    }

    /// Writes a byte so many times; want of memory is noted.
    pub(crate) fn add_often(&mut self, byte: u8, count: usize) {
        let done = self.often(byte, count);
        self.note(done);
    }

    /// Writes a number; want of memory is noted.
    pub(crate) fn add_number(&mut self, number: usize) {
        let done = self.number(number);
        self.note(done);
    }

    /// Writes what was written elsewhere.
    pub(crate) fn join(&mut self, other: &Put) {
        self.add(other.bytes());
        self.lost = self.lost || other.lost;
    }

    /// Writes bytes of the text: many of them are cut.
    fn shown(&mut self, bytes: &[u8]) {
        if bytes.len() <= MOST_SHOWN {
            return self.add(bytes);
        }
        self.add(&bytes[..KEPT.min(bytes.len())]);
        self.add(b"...");
    }

    fn piece(&mut self, piece: &Piece) {
        match piece {
            Piece::T(words) => self.add(words.as_bytes()),
            Piece::B(bytes) => self.shown(bytes),
            Piece::W(put) => self.join(put),
            Piece::Cut(put) => {
                self.shown(put.bytes());
                self.lost = self.lost || put.lost;
            }
            Piece::N(number) => self.add_number(*number),
        }
    }

    /// Writes words, and the pieces in the places of their `%`; want of memory is noted.
    pub fn say(&mut self, words: &str, pieces: &[Piece]) {
        let mut next: usize = 0;
        for byte in words.as_bytes() {
            if *byte != b'%' {
                self.add(&[*byte]);
            } else if let Some(piece) = pieces.get(next) {
                self.piece(piece);
                next = next.saturating_add(1);
            }
        }
    }
}
