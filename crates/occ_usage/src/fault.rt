ghost use Rattle.std.specs.Prelude.{◌≡◌};
ghost use Rattle.occ_usage.specs.declared.fault.UsageFault.TheVariants as fault;

use occ_syntax::{Dir, Memory, Name};
use thiserror::Error;

/// Why the parts of a PAR may not run at once. `node` is the number of the PAR: the processes of a program are numbered in
/// preorder from 0 at the body, each once. A number that no `u32` holds is answered as the greatest `u32`.
#[derive(Clone, Copy, Debug, PartialEq, Eq, Error)]
pub enum UsageFault {
    /// One part assigns or inputs a variable that another part names.
    #[error("process {node}: the parts of a PAR share a variable")]
    SharedVariable { node: u32, name: Name },
    /// Two parts use one end of a channel.
    #[error("process {node}: the parts of a PAR share an end of a channel")]
    SharedEnd { node: u32, name: Name, dir: Dir },
    /// Want of memory.
    #[error("out of memory")]
    Memory,
}

impl From<Memory> for UsageFault {
    ghost from_gives = { λ _ e. e ≡ fault.Memory };

    fn from(_cause: Memory) -> UsageFault {
        UsageFault::Memory
    }
}
