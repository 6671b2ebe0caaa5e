//! What the derivation of a program keeps in view.

ghost use Rattle.std.specs.Prelude.{◌≡◌, ◌<◌, true, IfOk, length};
ghost use Rattle.occ_script_back.specs.occ_lex.Growth.{GrowsByNames};
ghost use Rattle.occ_script_back.specs.occ_lex.Spelling.{is_letter};

use occ_derive_unify::{Frame, Lost};
use occ_script_back::numbered;
use occ_syntax::{Kind, Memory, Name, Names, Proc, Scope, Width};
use std::alloc::Global;

/// What the strategy keeps in view: the frame, and all parameters in order.
#[derive(Drop)]
pub(crate) struct View {
    pub(crate) frame: Frame,
    pub(crate) params: Scope,
}

/// The parameter variables in order.
pub(crate) fn variables(
    alloc: Global,
    params: &[(Name, Kind)],
) -> Result<Vec<(Name, Width)>, Memory> {
    let mut all = Vec::new(alloc);
    for (name, kind) in params {
        if let Kind::Var(width) = kind {
            all.push((*name, *width))?;
        }
    }
    Ok(all)
}

/// The variables that are declared in front of a process, from the outside in: those into which a normal program inputs.
pub(crate) fn targets(alloc: Global, normal: &Proc) -> Result<Vec<(Name, Width)>, Memory> {
    let mut all = Vec::new(alloc);
    let mut rest = normal;
    while let Some((name, kind, body)) = rest.declared() {
        if let Kind::Var(width) = kind {
            all.push((name, width))?;
        }
        rest = body;
    }
    Ok(all)
}

/// The greatest number of these names, or another one.
pub(crate) fn greatest(number: usize, names: &[Name]) -> usize {
    let mut found = number;
    for name in names {
        found = found.max(name.0);
    }
    found
}

/// A name with a greater number than this: a letter, a dot and the least number that gives one.
#[tactic(auto, using(crate::proofs::grows_not, crate::proofs::grows_on))]
pub(crate) fn above(alloc: Global, names: &mut Names, letter: u8, last: usize) -> Result<Name, Lost>
    requires { is_letter letter ≡ true }
    ensures greater { IfOk result (λ name. last < name.0) }
    ensures within { IfOk result (λ name. name.0 < length names.new) }
    ensures grown { GrowsByNames names.old names.new }
{
    for number in 0..u64::MAX {
        let name = numbered(alloc, names, letter, number)?;
        if last < name.0 {
            return Ok(name);
        }
    }
    Err(Lost::NoStep)
}
