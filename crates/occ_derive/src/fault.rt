use occ_syntax::Memory;
use thiserror::Error;

/// Why there is no derivation.
#[derive(Clone, Copy, Debug, PartialEq, Eq, Error)]
pub enum DeriveFault {
    /// The normal program has more than 4,096 controls.
    #[error("the normal program is too long")]
    Long,
    /// Out of memory.
    #[error("out of memory")]
    Memory,
}

impl From<Memory> for DeriveFault {
    ghost use Rattle.std.specs.Prelude.{◌≡◌};
    ghost use Rattle.occ_derive.specs.declared.fault.DeriveFault.TheVariants as fault;

    ghost from_gives = { λ _ e. e ≡ fault.Memory };

    fn from(_cause: Memory) -> DeriveFault {
        DeriveFault::Memory
    }
}
