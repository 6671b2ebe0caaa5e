use occ_law_any::UsageFault;
use occ_syntax::{Memory, Program};
use thiserror::Error;

/// The two programs that a script joins, and how many steps it has.
#[derive(Drop)]
pub struct Joined {
    pub from: Program,
    pub to: Program,
    pub steps: u32,
}

/// Why a script doesn't join its two programs. Steps are counted from 1; the first that isn't good decides, and in it the cause
/// that stands first here.
#[derive(Clone, Copy, Debug, PartialEq, Eq, Error)]
pub enum Rejected {
    /// The first program breaks the usage rule; never out of memory.
    #[error("the first program: {0}")]
    From(UsageFault),
    /// The table has no law of the step's name.
    #[error("step {step}: no such law")]
    NoLaw { step: u32 },
    /// There is no part at the step's path.
    #[error("step {step}: no part at this path")]
    NoPath { step: u32 },
    /// The new part has a fault of names, types or directions in its scope, or the program with it breaks a rule.
    #[error("step {step}: the new part isn't accepted there")]
    NotAccepted { step: u32 },
    /// The law doesn't hold between the old part and the new one, in the step's direction.
    #[error("step {step}: not an instance of the law")]
    NotInstance { step: u32 },
    /// The steps lead to another program than the last one.
    #[error("the steps lead to another program")]
    WrongEnd,
    /// Out of memory.
    #[error("out of memory")]
    Memory,
}

impl From<Memory> for Rejected {
    ghost use Rattle.std.specs.Prelude.{◌≡◌};
    ghost use Rattle.occ_replay.specs.declared.result.Rejected.TheVariants as rejected;

    ghost from_gives = { λ _ e. e ≡ rejected.Memory };

    fn from(_cause: Memory) -> Rejected {
        Rejected::Memory
    }
}
