ghost use Rattle.std.specs.Prelude.{◌≡◌, IfOk, IfSome};
ghost use Rattle.occ_syntax.specs.View.{in_alternatives, in_choices, in_procs, tree};
ghost use Rattle.occ_norm_arrange.specs.Arranged.{IsArranged};
ghost use Rattle.occ_norm_arrange.specs.FlatArranged.{IsBranch, IsChoice, IsPart, Pairwise};
ghost use Rattle.occ_norm_arrange.specs.Flat.{IsFlat};

use crate::lists::{more_branches, more_choices, more_parts};
use crate::order::body_arranged;
use crate::sequenced;
use occ_syntax::{Alternatives, Choices, Expr, Guard, Memory, Proc, Procs, Scope};
use std::alloc::Global;

// The process with each PAR in it arranged, if one isn't already: first the PAR that it is within its own declarations, and then
// those inside the parts that this has.
#[cycle(walk)]
fn everywhere(alloc: Global, part: &Proc) -> Result<Option<Proc>, Memory>
    ensures { IfOk result (λ found. IfSome found (λ other. IsArranged (tree part.now) (tree other))) }
{
    let Some(outer) = body_arranged(alloc, part)? else {
        return inside(alloc, part);
    };
    let Some(whole) = inside(alloc, &outer)? else {
        return Ok(Some(outer));
    };
    Ok(Some(whole))
}

// The same but for the PAR that the process itself is within its own declarations. These are a loop, since there may be thousands.
#[cycle(walk)]
fn inside(alloc: Global, part: &Proc) -> Result<Option<Proc>, Memory>
    ensures { IfOk result (λ found. IfSome found (λ other. IsArranged (tree part.now) (tree other))) }
{
    let mut declarations = Scope::new(alloc);
    let mut body = part;
    while let Some((name, kind, inner)) = body.declared() {
        declarations.push((name, kind))?;
        body = inner;
    }
    let Some(other) = inside_and_front(alloc, body)? else {
        return Ok(None);
    };
    let whole = other.within(alloc, declarations.items())?;
    Ok(Some(whole))
}

// The same of a process that isn't a declaration, and then the straight parts of that one in front of it.
#[cycle(walk)]
fn inside_and_front(alloc: Global, part: &Proc) -> Result<Option<Proc>, Memory>
    ensures { IfOk result (λ found. IfSome found (λ other. IsArranged (tree part.now) (tree other))) }
{
    let Some(inner) = inside_body(alloc, part)? else {
        return sequenced(alloc, part);
    };
    let Some(whole) = sequenced(alloc, &inner)? else {
        return Ok(Some(inner));
    };
    Ok(Some(whole))
}

#[cycle(walk)]
fn inside_body(alloc: Global, part: &Proc) -> Result<Option<Proc>, Memory>
    ensures { IfOk result (λ found. IfSome found (λ other. IsArranged (tree part.now) (tree other))) }
{
    match part {
        Proc::Seq(parts) => {
            let Some(list) = parts_arranged(alloc, parts.items())? else {
                return Ok(None);
            };
            Ok(Some(Proc::Seq(list)))
        }
        Proc::Par(parts) => {
            let Some(list) = parts_arranged(alloc, parts.items())? else {
                return Ok(None);
            };
            Ok(Some(Proc::Par(list)))
        }
        Proc::If(choices) => {
            let Some(list) = choices_arranged(alloc, choices.items())? else {
                return Ok(None);
            };
            Ok(Some(Proc::If(list)))
        }
        Proc::Alt(alternatives) => {
            let Some(list) = branches_arranged(alloc, alternatives.items())? else {
                return Ok(None);
            };
            Ok(Some(Proc::Alt(list)))
        }
        _ => Ok(None),
    }
}

#[cycle(walk)]
fn parts_arranged(alloc: Global, parts: &[Proc]) -> Result<Option<Procs>, Memory>
    ensures { IfOk result (λ found. IfSome found (λ r. Pairwise IsPart parts.now (in_procs r))) }
{
    let mut found = None;
    for place in 0..parts.len() {
        let other = everywhere(alloc, &parts[place])?;
        found = more_parts(alloc, &parts[..place], &parts[place], found, other)?;
    }
    Ok(found)
}

#[cycle(walk)]
fn choices_arranged(alloc: Global, choices: &[(Expr, Proc)]) -> Result<Option<Choices>, Memory>
    ensures { IfOk result (λ found. IfSome found (λ r. Pairwise IsChoice choices.now (in_choices r))) }
{
    let mut found = None;
    for place in 0..choices.len() {
        let other = everywhere(alloc, &choices[place].1)?;
        found = more_choices(alloc, &choices[..place], &choices[place], found, other)?;
    }
    Ok(found)
}

#[cycle(walk)]
fn branches_arranged(
    alloc: Global,
    alternatives: &[(Guard, Proc)],
) -> Result<Option<Alternatives>, Memory>
    ensures { IfOk result (λ found. IfSome found (λ r. Pairwise IsBranch alternatives.now (in_alternatives r))) }
{
    let mut found = None;
    for place in 0..alternatives.len() {
        let other = everywhere(alloc, &alternatives[place].1)?;
        found = more_branches(
            alloc,
            &alternatives[..place],
            &alternatives[place],
            found,
            other,
        )?;
    }
    Ok(found)
}

/// The process with each PAR that stands anywhere in it arranged: one PAR in the place of a PAR, other PARs among its parts, those
/// among theirs, and so on. One in a last part may stand within declarations of channels, which then stand round the one PAR; a
/// channel whose name is declared in a part beside it stays where it is. The parts of each stand in an order in which those that
/// share channels are close together, if they write different variables. None where all PARs stand so already. Where the process
/// keeps types the new one does too, and does the same.
pub fn flattened(alloc: Global, part: &Proc) -> Result<Option<Proc>, Memory>
    ensures { IfOk result (λ found. IfSome found (λ flat. IsFlat (tree part.now) (tree flat))) }
{
    let found = everywhere(alloc, part)?;
    Ok(found)
}
