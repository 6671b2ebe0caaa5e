use occ_syntax::Memory;
use thiserror::Error;

/// Why there is no normal program.
#[derive(Clone, Copy, Debug, PartialEq, Eq, Error)]
pub enum TargetFault {
    /// It would have more than 4,096 controls.
    #[error("too long")]
    Long,
    /// Out of memory.
    #[error("out of memory")]
    Memory,
}

impl From<Memory> for TargetFault {
    ghost use Rattle.std.specs.Prelude.{◌≡◌};
    ghost use Rattle.occ_target.specs.declared.fault.TargetFault.TheVariants as fault;

    ghost from_gives = { λ _ e. e ≡ fault.Memory };

    fn from(_cause: Memory) -> TargetFault {
        TargetFault::Memory
    }
}
