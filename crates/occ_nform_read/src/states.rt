ghost use Rattle.std.specs.Prelude.{◌≡◌, ◌∷◌, [], ◌++◌, ◌≤◌, ◌<◌, ◌*◌, IfOk, length, codes, Option, Some, None};
ghost use Rattle.occ_syntax.specs.occ_base.Width.{IsWidth};
ghost use Rattle.occ_syntax.specs.Counts.{bits_of_scope};
ghost use Rattle.occ_nform_table.specs.Words.{Finds, then_read, behind, number_of};
ghost use Rattle.occ_nform_table.specs.Lines.{Adds, HaveWidths, fitting, paired, state_of, end_of, state_place, row_of_state, below};

use crate::words::{behind, between, cut, lower, numbers_of};
use occ_nform_table::state_place;
use occ_syntax::{Kind, Memory, Name, State, Width};
use std::alloc::Global;

/// The value of the width that a number is.
pub fn fitting(width: Width, number: u32) -> Option<u8>
    requires { IsWidth width }
    ensures { result ≡ fitting width number }
{
    if number < 1 << width.bits() {
        Some(number as u8)
    } else {
        None
    }
}

/// Adds the variables with their values, and says whether there are as many as fit, each in its width.
#[tactic(auto, unfolding(occ_nform_table::specs::Lines::paired))]
fn push_paired(state: &mut State, params: &[(Name, Kind)], values: &[u32]) -> Result<bool, Memory>
    requires { HaveWidths params.now }
    ensures { IfOk result (λ found. Adds state.old state.new found (paired params.now values.now)) }
{
    match params {
        [] => Ok(values.is_empty()),
        [(_, Kind::Chan(_, _)), rest @ ..] => push_paired(state, rest, values),
        [(name, Kind::Var(width)), rest @ ..] => match values {
            [] => Ok(false),
            [number, others @ ..] => match fitting(*width, *number) {
                Some(value) => {
                    state.push((*name, value))?;
                    push_paired(state, rest, others)
                }
                None => Ok(false),
            },
        },
    }
}

/// The state whose values a text writes.
#[tactic(auto, unfolding(occ_nform_table::specs::Lines::state_of))]
pub fn state_of(
    alloc: Global,
    params: &[(Name, Kind)],
    text: &[u8],
) -> Result<Option<State>, Memory>
    requires { HaveWidths params.now }
    ensures { IfOk result (λ state. state ≡ state_of params.now text.now) }
{
    let Some(values) = numbers_of(alloc, text)? else {
        return Ok(None);
    };
    let mut state = State::new(alloc);
    if push_paired(&mut state, params, values.items())? {
        Ok(Some(state))
    } else {
        Ok(None)
    }
}

/// The state of an END line.
#[tactic(auto, unfolding(occ_nform_table::specs::Lines::end_of))]
pub fn end_of(alloc: Global, params: &[(Name, Kind)], line: &[u8]) -> Result<Option<State>, Memory>
    requires { HaveWidths params.now }
    ensures { IfOk result (λ state. state ≡ end_of params.now line.now) }
{
    match between(b"END [", b"]\n", line) {
        Some(text) => state_of(alloc, params, text),
        None => Ok(None),
    }
}

/// The row that the line of the k-th state names, where there are n rows.
#[tactic(auto, unfolding(occ_nform_table::specs::Lines::row_of_state))]
pub fn row_of_state(
    alloc: Global,
    params: &[(Name, Kind)],
    n: u64,
    k: u64,
    line: &[u8],
) -> Result<Option<u32>, Memory>
    requires wide { HaveWidths params.now }
    requires bits { bits_of_scope params.now ≤ 16 }
    requires few { length params.now ≤ 16 }
    requires number { n ≤ 4294967295 }
    ensures { IfOk result (λ row. row ≡ row_of_state params.now n k line.now) }
{
    let Some(text) = between(b"STATE [", b"\n", line) else {
        return Ok(None);
    };
    let Some((values, rest)) = cut(b']', text) else {
        return Ok(None);
    };
    let Some(state) = state_of(alloc, params, values)? else {
        return Ok(None);
    };
    if state_place(params, state.items()) != k {
        return Ok(None);
    }
    Ok(row_named(n, rest))
}

// The row below n that is named behind a space.
fn row_named(n: u64, text: &[u8]) -> Option<u32>
    requires { n ≤ 4294967295 }
    ensures { result ≡ then_read (behind (codes " ") text.now) (λ numeral. then_read (number_of numeral) (below n)) }
{
    match behind(b" ", text) {
        Some(numeral) => lower(n, numeral),
        None => None,
    }
}
