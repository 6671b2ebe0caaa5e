//! Two files as programs.

ghost use Rattle.std.specs.Prelude.{◌≡◌, ◌≢◌, None, IfNone, IfOk, IfSome};
ghost use Rattle.occ_prove.specs.Pairs.{AreApartAll, IsPairOf};
ghost use Rattle.occ_tool_run.specs.occ_call.Files.{IsShort, most_bytes};

use crate::joining::have_one_header;
use occ_syntax::{Memory, Names};
use occ_tool_run::accept::{Refusal, accept, accept_first};
use occ_tool_run::{Accepted, Loaded, parameters_have_names};
use std::alloc::Global;

/// Two accepted programs of one header, and the names of both.
#[derive(Drop)]
pub struct Pair {
    pub names: Names,
    pub left: Accepted,
    pub right: Accepted,
}

/// No programs, where one is refused; or out of memory where that is why.
fn unpaired(refusal: Refusal) -> Result<Option<Pair>, Memory>
    ensures none { IfOk result (λ found. found ≡ None) }
    ensures known { IfOk result (λ found. refusal ≢ Refusal.Memory) }
{
    match refusal {
        Refusal::Text(_) | Refusal::Usage { .. } => Ok(None),
        Refusal::Memory => Err(Memory),
    }
}

/// The programs of two files, the first read first, where both are accepted and have one header.
pub(crate) fn read_pair(alloc: Global, one: &Loaded, two: &Loaded) -> Result<Option<Pair>, Memory>
    requires first { IsShort most_bytes one.now }
    requires second { IsShort most_bytes two.now }
    ensures pair { IfOk result (λ found. IfSome found (IsPairOf one.now two.now)) }
    ensures none { IfOk result (λ found. IfNone found (AreApartAll one.now two.now)) }
{
    parameters_have_names();
    let mut names = Names::new(alloc);
    let left = match accept_first(alloc, &mut names, one) {
        Ok(accepted) => accepted,
        Err(refusal) => return unpaired(refusal),
    };
    let right = match accept(alloc, &mut names, two) {
        Ok(accepted) => accepted,
        Err(refusal) => return unpaired(refusal),
    };
    if have_one_header(left.program(), right.program()) {
        Ok(Some(Pair { names, left, right }))
    } else {
        Ok(None)
    }
}
