ghost use Rattle.std.specs.Prelude.{◌≡◌, ◌+◌, ◌*◌, ◌^◌, ◌<◌, ◌≤◌, length};
ghost use Rattle.occ_syntax.specs.Counts.{bits_of_scope};
ghost use Rattle.occ_nform_table.specs.Lines.{rank, state_place};

use occ_behaviour::{interface_bits, place_in};
use occ_lex::{Event, Name};
use occ_syntax::Kind;

/// The place of an event in the order of events.
pub fn rank(params: &[(Name, Kind)], event: Event) -> u64
    requires { length params.now ≤ 16 }
    ensures rank { result ≡ rank params.now event }
    ensures within { result < 256 * (length params.now + 1) }
{
    256 * place_in(params, event.chan) as u64 + u64::from(event.value)
}

// A value with so many bits behind it.
fn shifted(value: u8, bits: u32) -> u64
    requires { bits ≤ 16 }
    ensures value { result ≡ value * 2 ^ bits }
    ensures within { result ≤ 16711680 }
{
    u64::from(value) * (1 << bits)
}

/// The place of a state among the states in their order, counted from 0.
pub fn state_place(params: &[(Name, Kind)], state: &[(Name, u8)]) -> u64
    requires bits { bits_of_scope params.now ≤ 16 }
    requires few { length params.now ≤ 16 }
    ensures place { result ≡ state_place params.now state.now }
    ensures within { result ≤ 16711680 * length params.now }
{
    match params {
        [] => 0,
        [(_, Kind::Chan(_, _)), rest @ ..] => state_place(rest, state),
        [(_, Kind::Var(_)), rest @ ..] => match state {
            [] => 0,
            [(_, value), others @ ..] => {
                shifted(*value, interface_bits(rest)) + state_place(rest, others)
            }
        },
    }
}
