ghost use Rattle.std.specs.Prelude.{◌≡◌};
ghost use Rattle.occ_parse_forms.specs.declared.fault.Fault.TheVariants as fault;

use occ_lex::Memory;
use std::alloc::AllocFailed;

/// Why symbols aren't read.
#[derive(Clone, Copy, Debug, PartialEq, Eq)]
pub enum Fault {
    /// They have another form.
    Form,
    Memory,
}

impl From<Memory> for Fault {
    ghost from_gives = { λ _ e. e ≡ fault.Memory };

    fn from(_cause: Memory) -> Fault {
        Fault::Memory
    }
}

impl<T: Drop> From<AllocFailed<T>> for Fault {
    ghost from_gives = { λ _ e. e ≡ fault.Memory };

    fn from(_cause: AllocFailed<T>) -> Fault {
        Fault::Memory
    }
}
