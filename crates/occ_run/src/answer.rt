ghost use Rattle.std.specs.Prelude.{◌≡◌};
ghost use Rattle.occ_run.specs.declared.answer.StepFault.TheVariants as fault;

use occ_syntax::{Event, Events, Memory, State};
use thiserror::Error;

/// What is seen of a step.
#[derive(Clone, Copy, Debug, PartialEq, Eq)]
pub enum Move {
    Unseen,
    Seen(Event),
}

/// Why a step isn't taken.
#[derive(Clone, Copy, Debug, PartialEq, Eq, Error)]
pub enum StepFault {
    /// There is no step of that number.
    #[error("there is no step of that number")]
    NoStep,
    /// Out of memory.
    #[error("out of memory")]
    Memory,
}

impl From<Memory> for StepFault {
    ghost from_gives = { λ _ e. e ≡ fault.Memory };

    fn from(_cause: Memory) -> StepFault {
        StepFault::Memory
    }
}

/// How a machine stands.
#[derive(Drop)]
pub enum Stand {
    /// The program has ended in this state.
    Ended(State),
    /// It hasn't ended, and no step is left. It refuses these events, all of its interface.
    Stuck(Events),
    /// There are steps, and each is an event. It refuses all other events of its interface.
    Stable { steps: u64, refused: Events },
    /// There are steps, and one is unseen.
    Moving { steps: u64 },
}
