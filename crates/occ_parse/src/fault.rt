ghost use Rattle.std.specs.Prelude.{◌≡◌};
ghost use Rattle.occ_parse.specs.declared.fault.ParseFault.TheVariants as fault;

use occ_parse_rules::LineFault;
use occ_syntax::Memory;
use thiserror::Error;

/// A limit on texts.
#[derive(Clone, Copy, Debug, PartialEq, Eq)]
pub enum Which {
    /// A program of its own has at most 65,536 bytes.
    Bytes,
    /// A line stands at level 64 at most.
    Levels,
    /// A line has at most 4,096 tokens.
    Tokens,
    /// A program has at most 16 parameters.
    Parameters,
    /// A replicator or an array has a count of at most 64.
    Count,
    /// A program has at most 4,096 controls.
    Controls,
    /// The parameters have at most 16 bits of variables together.
    InterfaceBits,
    /// At most 24 bits of variables are in scope at one place.
    ScopeBits,
}

/// Why a text isn't read, with the number of the line from 1.
#[derive(Clone, Copy, Debug, PartialEq, Eq, Error)]
pub enum ParseFault {
    /// A line has no tokens of the language.
    #[error("line {line}: {fault:?}")]
    Line { line: u32, fault: LineFault },
    /// A line doesn't have the form that its place asks for, or lacks what it needs.
    #[error("line {line}: not the form of a program")]
    Form { line: u32 },
    /// A name isn't declared.
    #[error("line {line}: a name isn't declared")]
    Undeclared { line: u32 },
    /// A name is declared twice in one scope.
    #[error("line {line}: a name is declared twice")]
    Redeclared { line: u32 },
    /// An element isn't there for some value of its index, or is assigned twice at once.
    #[error("line {line}: no such element")]
    Index { line: u32 },
    /// Two types differ where they must be one.
    #[error("line {line}: types differ")]
    TypeClash { line: u32 },
    /// An expression has no type.
    #[error("line {line}: an expression has no type")]
    NoType { line: u32 },
    /// A channel is used against its direction.
    #[error("line {line}: a channel is used against its direction")]
    Direction { line: u32 },
    /// The text is over a limit.
    #[error("line {line}: over a limit")]
    Limit { which: Which, line: u32 },
    /// Want of memory.
    #[error("out of memory")]
    Memory,
}

impl From<Memory> for ParseFault {
    ghost from_gives = { λ _ e. e ≡ fault.Memory };

    fn from(_cause: Memory) -> ParseFault {
        ParseFault::Memory
    }
}
