ghost use Rattle.std.specs.Prelude.{◌≡◌};
ghost use Rattle.occ_script.specs.declared.fault.ScriptFault.TheVariants as fault;
ghost use Rattle.occ_script.specs.Faults.{text_fault as fault_of_text};

use occ_parse_part::ParseFault;
use occ_syntax::Memory;
use thiserror::Error;

/// Why a script or an orders text isn't read, with the number of the line from 1.
#[derive(Clone, Copy, Debug, PartialEq, Eq, Error)]
pub enum ScriptFault {
    /// A line doesn't have the form that its place asks for, or lacks what it needs.
    #[error("line {line}: not the form of a script")]
    Form { line: u32 },
    /// The first line names version 1 of the format.
    #[error("line {line}: version 1 isn't read")]
    Version { line: u32 },
    /// A fault of a program or a part; never one of form, and never out of memory.
    #[error("{0}")]
    Text(ParseFault),
    /// Out of memory.
    #[error("out of memory")]
    Memory,
}

impl From<Memory> for ScriptFault {
    ghost from_gives = { λ _ e. e ≡ fault.Memory };

    fn from(_cause: Memory) -> ScriptFault {
        ScriptFault::Memory
    }
}

/// A fault of a program or a part as one of the whole text.
pub(crate) fn text_fault(fault: ParseFault) -> ScriptFault
    ensures { result ≡ fault_of_text fault }
{
    match fault {
        ParseFault::Form { line } => ScriptFault::Form { line },
        ParseFault::Memory => ScriptFault::Memory,
        other => ScriptFault::Text(other),
    }
}
