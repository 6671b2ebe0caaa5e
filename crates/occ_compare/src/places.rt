ghost use Rattle.std.specs.Prelude.{◌≡◌, ◌<◌, ◌≤◌, ◌+◌, ◌*◌, ◌/◌, ◌%◌, ◌^◌, IfOk};
ghost use Rattle.occ_syntax.specs.Counts.{bits_of_scope};
ghost use Rattle.occ_compare.specs.Places.{assignment_at, byte_state};

use occ_behaviour::interface_bits;
use occ_syntax::{Kind, Memory, Name, State};
use std::alloc::Global;

// The lowest bits of a number, so many, and the number of the bits above them.
fn parted(number: u64, bits: u32) -> (u64, u64)
    ensures low { result.0 ≡ number % 2 ^ bits }
    ensures high { result.1 ≡ number / 2 ^ bits }
{
    if bits < 64 {
        let size = 1u64 << bits;
        (number % size, number / size)
    } else {
        (number, 0)
    }
}

// A number with so many zeros behind it.
fn shifted(number: u64, bits: u32) -> u64
    requires { number * 2 ^ bits < 2 ^ 64 }
    ensures { result ≡ number * 2 ^ bits }
{
    if number == 0 { 0 } else { number * (1 << bits) }
}

/// The greatest place of a state of an interface, counted from 0.
pub fn last_number(params: &[(Name, Kind)]) -> u64
    requires { bits_of_scope params.now ≤ 64 }
    ensures { result + 1 ≡ 2 ^ bits_of_scope params.now }
{
    let bits = interface_bits(params);
    if bits < 64 { (1 << bits) - 1 } else { u64::MAX }
}

/// The assignment whose state has that place among the states, in their order from 0.
pub fn assignment(params: &[(Name, Kind)], number: u64) -> u64
    requires few { bits_of_scope params.now ≤ 64 }
    requires within { number < 2 ^ bits_of_scope params.now }
    ensures { result ≡ assignment_at params.now number }
{
    let mut rest = interface_bits(params);
    let mut first: u32 = 0;
    let mut number = number;
    let mut assignment: u64 = 0;
    for (_, kind) in params {
        let bits = u32::from(kind.bits());
        rest -= bits;
        let (low, value) = parted(number, rest);
        assignment += shifted(value, first);
        number = low;
        first += bits;
    }
    assignment
}

/// The state of an assignment, each value by its lowest eight bits.
pub fn written(alloc: Global, params: &[(Name, Kind)], assignment: u64) -> Result<State, Memory>
    ensures { IfOk result (λ state. state ≡ byte_state params.now assignment) }
{
    let mut state = State::new(alloc);
    let mut rest = assignment;
    for (name, kind) in params {
        if let Kind::Var(width) = kind {
            let (value, higher) = parted(rest, u32::from(width.bits()));
            state.push((*name, (value % 256) as u8))?;
            rest = higher;
        }
    }
    Ok(state)
}
