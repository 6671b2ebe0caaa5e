//! The texts of large parts.

use itoa::Buffer;
use occ_syntax::Memory;
use std::alloc::Global;

// How many lines or levels make about a megabyte.
const SKIPS: usize = 110_000;

const ASSIGNMENTS: usize = 66_000;

const LEVELS: usize = 1_000;

const DECLARATIONS: usize = 66_000;

// One more than a line may have.
const TOKENS: usize = 4_097;

/// A part that is large in one direction.
#[derive(Clone, Copy)]
pub enum Large {
    /// A SEQ of many SKIPs.
    Skips,
    /// A SEQ of many assignments to one variable.
    Assignments,
    /// A SEQ in a SEQ, many levels deep.
    Nested,
    /// Many declarations in a row.
    Declarations,
    /// A line of more tokens than a line may have.
    LongLine,
}

/// The large parts, in the order in which they are measured.
pub const ALL: [Large; 5] = [
    Large::Skips,
    Large::Assignments,
    Large::Nested,
    Large::Declarations,
    Large::LongLine,
];

impl Large {
    /// What the part is, in words.
    pub fn name(self) -> &'static str {
        match self {
            Large::Skips => "a SEQ of SKIPs",
            Large::Assignments => "a SEQ of assignments",
            Large::Nested => "SEQs in SEQs",
            Large::Declarations => "declarations in a row",
            Large::LongLine => "a line of 4097 tokens",
        }
    }

    /// The part's text, at level 1. It names one variable, `x`, which it doesn't declare.
    pub fn text(self, alloc: Global) -> Result<Vec<u8>, Memory> {
        match self {
            Large::Skips => sequence(alloc, b"    SKIP\n", SKIPS),
            Large::Assignments => sequence(alloc, b"    x := NOT x\n", ASSIGNMENTS),
            Large::Nested => nested(alloc),
            Large::Declarations => declarations(alloc),
            Large::LongLine => long_line(alloc),
        }
    }
}

// A SEQ of so many lines.
fn sequence(alloc: Global, line: &[u8], count: usize) -> Result<Vec<u8>, Memory> {
    let mut text = Vec::new(alloc);
    text.extend_from_slice(b"  SEQ\n")?;
    for _line in 0..count {
        text.extend_from_slice(line)?;
    }
    Ok(text)
}

fn nested(alloc: Global) -> Result<Vec<u8>, Memory> {
    let mut text = Vec::new(alloc);
    for level in 0..LEVELS {
        push_margin(&mut text, level)?;
        text.extend_from_slice(b"  SEQ\n")?;
    }
    push_margin(&mut text, LEVELS)?;
    text.extend_from_slice(b"  SKIP\n")?;
    Ok(text)
}

fn push_margin(text: &mut Vec<u8>, levels: usize) -> Result<(), Memory> {
    for _level in 0..levels {
        text.extend_from_slice(b"  ")?;
    }
    Ok(())
}

fn declarations(alloc: Global) -> Result<Vec<u8>, Memory> {
    let mut text = Vec::new(alloc);
    for number in 0..DECLARATIONS {
        push_declaration(&mut text, number)?;
    }
    text.extend_from_slice(b"  SKIP\n")?;
    Ok(text)
}

fn push_declaration(text: &mut Vec<u8>, number: usize) -> Result<(), Memory> {
    let mut buffer = Buffer::new();
    text.extend_from_slice(b"  BOOL v")?;
    text.extend_from_slice(buffer.format(number).as_bytes())?;
    text.extend_from_slice(b":\n")?;
    Ok(())
}

fn long_line(alloc: Global) -> Result<Vec<u8>, Memory> {
    let mut text = Vec::new(alloc);
    text.extend_from_slice(b"  ")?;
    for _token in 0..TOKENS {
        text.extend_from_slice(b"x ")?;
    }
    text.extend_from_slice(b"\n")?;
    Ok(text)
}
