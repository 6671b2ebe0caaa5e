ghost use Rattle.std.specs.Prelude.{◌≡◌};
ghost use Rattle.occ_gen.specs.declared.fault.GenFault.TheVariants as fault;

use occ_script::Memory;
use thiserror::Error;

/// Why there is no program.
#[derive(Clone, Copy, Debug, PartialEq, Eq, Error)]
pub enum GenFault {
    /// The number of stages isn't from 1 to 48.
    #[error("a chain has from 1 to 48 stages")]
    Range,
    /// Want of memory.
    #[error("out of memory")]
    Memory,
}

impl From<Memory> for GenFault {
    ghost from_gives = { λ _ e. e ≡ fault.Memory };

    fn from(_cause: Memory) -> GenFault {
        GenFault::Memory
    }
}
