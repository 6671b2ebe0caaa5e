ghost use Rattle.std.specs.Prelude.{◌≡◌};
ghost use Rattle.occ_draw.specs.declared.fault.Untold.TheVariants as untold;

use occ_syntax::Memory;
use thiserror::Error;

/// What a step lacks.
#[derive(Clone, Copy, Debug, PartialEq, Eq)]
pub enum Lack {
    /// The table has no law of the step's name.
    NoLaw,
    /// There is no part at the step's path.
    NoPath,
    /// The new part has a fault of names, types or directions in the scope there.
    NotAccepted,
}

/// Why the steps of a script aren't listed.
#[derive(Clone, Copy, Debug, PartialEq, Eq, Error)]
pub enum Untold {
    /// The first step that lacks something, by its number from 1.
    #[error("step {step} can't be told")]
    Lacking { step: u32, lack: Lack },
    /// Out of memory.
    #[error("out of memory")]
    Memory,
}

impl From<Memory> for Untold {
    ghost from_gives = { λ _ e. e ≡ untold.Memory };

    fn from(_cause: Memory) -> Untold {
        Untold::Memory
    }
}
