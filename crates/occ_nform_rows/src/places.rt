ghost use Rattle.std.specs.Prelude.{◌≡◌, ◌≤◌, ◌^◌, IfOk};
ghost use Rattle.occ_compare.specs.Places.{number_in};
ghost use Rattle.occ_nform_rows.specs.Ends.{byte_state_at};

use crate::Lister;
use occ_nform_table::interface_bits;
use occ_syntax::{Kind, Memory, State};

// How many values so many bits have.
pub(crate) fn size(bits: u32) -> u32
    requires { bits ≤ 16 }
    ensures { result ≡ 2 ^ bits }
{
    1 << bits
}

impl Lister<'_> {
    // The place of an assignment's state among the states in their order.
    pub(crate) fn place(&self, assignment: u32) -> u32
        ensures { result ≡ number_in self.now.params.now assignment }
    {
        let mut place: u32 = 0;
        let mut rest = assignment;
        for (_, kind) in self.params {
            let bits = u32::from(kind.bits());
            let values = size(bits);
            place = place * values + rest % values;
            rest /= values;
        }
        place
    }

    // The state that has a place, each value by its lowest eight bits.
    pub(crate) fn state_at(&self, place: u32) -> Result<State, Memory>
        ensures { IfOk result (λ state. state ≡ byte_state_at self.now.params.now place) }
    {
        let mut state = State::new(self.alloc);
        let mut left = interface_bits(self.params);
        let mut rest = place;
        for (name, kind) in self.params {
            if let Kind::Var(width) = kind {
                left -= u32::from(width.bits());
                let size = size(left);
                state.push((*name, (rest / size % 256) as u8))?;
                rest %= size;
            }
        }
        Ok(state)
    }
}
