ghost use Rattle.std.specs.Prelude.{◌≡◌};
ghost use Rattle.occ_lex.specs.declared.fault.RowFault.TheVariants as row;

use occ_base::Memory;
use thiserror::Error;

/// What is wrong with a line. Of several faults the one that stands first in this list counts, but for the last
/// three, of which the leftmost counts.
#[derive(Clone, Copy, Debug, PartialEq, Eq)]
pub enum LineFault {
    /// A tab stands outside a comment.
    Tab,
    /// The number of leading spaces is odd.
    OddIndent,
    /// A byte begins no token, as `-` alone, or a carriage return that isn't directly before a line feed.
    Char,
    /// A numeral is above 255. Zeros in front don't count.
    Number,
    /// A name has more than 32 characters.
    Name,
}

/// Why one line couldn't be read.
#[derive(Clone, Copy, Debug, PartialEq, Eq, Error)]
pub enum RowFault {
    /// The line's fault that counts.
    #[error("the line has the fault {0:?}")]
    Fault(LineFault),
    /// Want of memory.
    #[error("out of memory")]
    Memory,
}

/// Why a text couldn't be read.
#[derive(Clone, Copy, Debug, PartialEq, Eq, Error)]
pub enum LexFault {
    /// The least line that has a fault, counted from 1, and its fault that counts.
    #[error("line {line} has the fault {fault:?}")]
    Line { line: u32, fault: LineFault },
    /// Want of memory.
    #[error("out of memory")]
    Memory,
}

impl From<LineFault> for RowFault {
    ghost from_gives = { λ fault e. e ≡ row.Fault fault };

    fn from(fault: LineFault) -> RowFault {
        RowFault::Fault(fault)
    }
}

impl From<Memory> for RowFault {
    ghost from_gives = { λ _ e. e ≡ row.Memory };

    fn from(_cause: Memory) -> RowFault {
        RowFault::Memory
    }
}

impl From<Memory> for LexFault {
    ghost use Rattle.std.specs.Prelude.{◌≡◌};
    ghost use Rattle.occ_lex.specs.declared.fault.LexFault.TheVariants as lex;

    ghost from_gives = { λ _ e. e ≡ lex.Memory };

    fn from(_cause: Memory) -> LexFault {
        LexFault::Memory
    }
}
