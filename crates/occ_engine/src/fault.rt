use occ_syntax::Memory;
use thiserror::Error;

/// Why a law makes nothing of a part.
#[derive(Clone, Copy, Debug, PartialEq, Eq, Error)]
pub enum ApplyFault {
    /// The law doesn't join the part with the wanted one; or, where none is wanted, it has no direct result.
    #[error("the law doesn't apply")]
    NotApplicable,
    /// Out of memory.
    #[error("out of memory")]
    Memory,
}

impl From<Memory> for ApplyFault {
    ghost use Rattle.std.specs.Prelude.{◌≡◌};
    ghost use Rattle.occ_engine.specs.declared.fault.ApplyFault.TheVariants as fault;

    ghost from_gives = { λ _ e. e ≡ fault.Memory };

    fn from(_cause: Memory) -> ApplyFault {
        ApplyFault::Memory
    }
}

/// Why orders aren't followed, or a PAR isn't expanded. Orders are counted from 1, and the first that fails decides.
#[derive(Clone, Copy, Debug, PartialEq, Eq, Error)]
pub enum EngineFault {
    /// The table has no law of the order's name.
    #[error("order {order}: no such law")]
    NoLaw { order: u32 },
    /// There is no part at the order's path.
    #[error("order {order}: no part at this path")]
    NoPath { order: u32 },
    /// The law doesn't join the part with the given one; or, where the order gives none, it has no direct result.
    #[error("order {order}: the law doesn't apply")]
    NotApplicable { order: u32 },
    /// The new part has a fault in its scope, or a line of more than 4,096 tokens, or the program with it breaks a rule.
    #[error("order {order}: the new part isn't accepted there")]
    NotAccepted { order: u32 },
    /// The part to be expanded isn't a PAR of two parts.
    #[error("not a PAR of two parts")]
    NotPar,
    /// Out of memory.
    #[error("out of memory")]
    Memory,
}

impl From<Memory> for EngineFault {
    ghost use Rattle.std.specs.Prelude.{◌≡◌};
    ghost use Rattle.occ_engine.specs.declared.fault.EngineFault.TheVariants as fault;

    ghost from_gives = { λ _ e. e ≡ fault.Memory };

    fn from(_cause: Memory) -> EngineFault {
        EngineFault::Memory
    }
}

/// Why one order isn't followed.
#[derive(Clone, Copy, Debug, PartialEq, Eq)]
pub(crate) enum Stopped {
    NoLaw,
    NoPath,
    NotAccepted,
    NotApplicable,
    Memory,
}

impl From<Memory> for Stopped {
    ghost use Rattle.std.specs.Prelude.{◌≡◌};
    ghost use Rattle.occ_engine.specs.declared.fault.Stopped.TheVariants as stopped;

    ghost from_gives = { λ _ e. e ≡ stopped.Memory };

    fn from(_cause: Memory) -> Stopped {
        Stopped::Memory
    }
}
