//! The whole strategy: from a program to its normal program.

ghost use Rattle.occ_script_back.specs.occ_lex.Growth.{GrowsByNames};

use crate::build::{Cases, add, both_of, choices_in, identities, joined, zeros};
use crate::ending::behind_identities;
use crate::frame::{View, above, greatest, targets, variables};
use crate::inputs::by_cases;
use crate::node::{cleared_if, node};
use crate::states::by_states;
use occ_derive_open::apart;
use occ_derive_unify::{
    Dones, Frame, Lost, Piece, Trail, assign_of, if_of, restore, seq_of, seq_of_two, var_of,
};
use occ_script_back::{Law, greatest_name};
use occ_syntax::{Kind, Memory, Name, Names, Proc, Program, Width};
use std::alloc::Global;

/// How deep the strategy goes at most.
const FUEL: u32 = 1_000_000;

/// What a declaration governs.
fn body_of(alloc: Global, part: Proc) -> Result<Proc, Lost> {
    match Piece::of(alloc, part)? {
        Piece::Var(_, _, body) => Ok(body),
        _ => Err(Lost::NoStep),
    }
}

/// `SEQ(xs := es, P)` as the SEQ in declarations of further variables, each of which is 0 or FALSE in the assignment. The trail
/// stands at the SEQ in the end.
fn declared(
    trail: &mut Trail,
    vars: &[(Name, Width)],
    others: &[(Name, Width)],
    part: Proc,
) -> Result<Proc, Lost> {
    let alloc = trail.alloc();
    let mut part = part;
    let mut pairs = identities(alloc, vars)?;
    for (name, width) in others {
        let (_, rest) = both_of(alloc, part)?;
        pairs = joined(pairs, zeros(alloc, &[(*name, *width)])?)?;
        let first = assign_of(alloc, pairs.as_slice())?;
        let first = var_of(alloc, *name, *width, first)?;
        trail.enter(0)?;
        trail.backward(Law::VarAssign, &first)?;
        trail.leave();
        let inner = seq_of_two(alloc, body_of(alloc, first)?, rest)?;
        let outer = var_of(alloc, *name, *width, inner)?;
        trail.backward(Law::VarLast, &outer)?;
        part = body_of(alloc, outer)?;
        trail.enter(0)?;
    }
    Ok(part)
}

/// `VAR x: IF` as an IF with the declaration in each choice.
fn brought_in(trail: &mut Trail, variable: (Name, Width), choices: Cases) -> Result<Cases, Lost> {
    let alloc = trail.alloc();
    let (name, width) = variable;
    let mut all = Cases::new(alloc);
    for (condition, process) in choices {
        add(&mut all, (condition, var_of(alloc, name, width, process)?))?;
    }
    let part = if_of(alloc, all)?;
    trail.forward(Law::VarIf, &part)?;
    choices_in(alloc, part)
}

/// The process of each choice made a node.
fn nodes(trail: &mut Trail, view: &View, choices: Cases) -> Result<Cases, Lost> {
    let mut all = Cases::new(trail.alloc());
    let mut place: u32 = 0;
    for (condition, part) in choices {
        trail.enter(place)?;
        let part = node(trail, view, part, FUEL)?;
        trail.leave();
        add(&mut all, (condition, part))?;
        place = place.saturating_add(1);
    }
    Ok(all)
}

/// `VAR t: SEQ(P, ts := 0)` without the assignment to t, where t is the last of these variables: `SEQ(VAR t: P, us := 0)` for the
/// variables us before it, and `VAR t: P` where there are none.
fn cleared(
    trail: &mut Trail,
    variable: (Name, Width),
    before: &[(Name, Width)],
    front: Proc,
) -> Result<Proc, Lost> {
    let alloc = trail.alloc();
    let (name, width) = variable;
    let rest = assign_of(alloc, zeros(alloc, before)?.as_slice())?;
    let inner = seq_of_two(alloc, front, rest)?;
    let part = var_of(alloc, name, width, inner)?;
    trail.forward(Law::VarEnd, &part)?;
    let (front, rest) = both_of(alloc, body_of(alloc, part)?)?;
    if before.is_empty() {
        return Ok(var_of(alloc, name, width, lone(trail, front)?)?);
    }
    let front = var_of(alloc, name, width, front)?;
    let part = seq_of_two(alloc, front, rest)?;
    trail.forward(Law::VarLast, &part)?;
    Ok(part)
}

/// `P` made of `SEQ(P, SKIP)` under a declaration.
fn lone(trail: &mut Trail, front: Proc) -> Result<Proc, Lost> {
    let alloc = trail.alloc();
    let mut parts = Vec::new(alloc);
    add(&mut parts, front)?;
    let part = seq_of(alloc, parts)?;
    trail.enter(0)?;
    trail.forward(Law::SeqSkip, &part)?;
    let Piece::Seq(mut parts) = Piece::of(alloc, part)? else {
        return Err(Lost::NoStep);
    };
    let Some(front) = parts.pop() else {
        return Err(Lost::NoStep);
    };
    trail.forward(Law::SeqOne, &front)?;
    trail.leave();
    Ok(front)
}

/// Takes the variables for inputs out of what every process ends with: the SEQ in their declarations becomes the IF in their
/// declarations. The trail stands at the whole in the end.
fn all_cleared(trail: &mut Trail, targets: &[(Name, Width)], part: Proc) -> Result<Proc, Lost> {
    let alloc = trail.alloc();
    let mut part = part;
    for place in (0..targets.len()).rev() {
        let Some(last) = targets.get(place) else {
            return Err(Lost::NoStep);
        };
        trail.leave();
        let (front, _) = both_of(alloc, part)?;
        part = cleared(trail, *last, &targets[..place], front)?;
    }
    Ok(part)
}

/// Gives each choice's node its offers.
fn restored(trail: &mut Trail, view: &View, choices: Cases) -> Result<(), Lost> {
    let mut place: u32 = 0;
    for (_, part) in choices {
        trail.enter(place)?;
        let _ = restore(trail, &view.params, part)?;
        trail.leave();
        place = place.saturating_add(1);
    }
    Ok(())
}

/// The body of the program, in which no name is declared that is used otherwise, made that of its normal program. Where there are
/// neither parameter variables nor variables for inputs, the one that is given stands in for them.
fn derived(
    trail: &mut Trail,
    view: &View,
    stand_in: (Name, Width),
    body: Proc,
) -> Result<(), Lost> {
    let alloc = trail.alloc();
    let params = view.frame.params.as_slice();
    let targets = view.frame.targets.as_slice();
    let part = behind_identities(trail, params, body)?;
    let choices = if params.is_empty() && targets.is_empty() {
        let others = [stand_in];
        let part = declared(trail, params, &others, part)?;
        let choices = by_cases(trail, part, by_states(alloc, params, &others)?)?;
        trail.leave();
        brought_in(trail, stand_in, choices)?
    } else {
        let part = declared(trail, params, targets, part)?;
        by_cases(trail, part, by_states(alloc, params, targets)?)?
    };
    let choices = nodes(trail, view, choices)?;
    let part = cleared_if(trail, &view.frame, choices)?;
    let part = all_cleared(trail, targets, part)?;
    offered(trail, view, part)
}

/// Gives all offers to the IF in declarations, each of whose choices is a node.
fn offered(trail: &mut Trail, view: &View, part: Proc) -> Result<(), Lost> {
    let alloc = trail.alloc();
    let mut part = part;
    for _ in view.frame.targets.as_slice() {
        part = body_of(alloc, part)?;
        trail.enter(0)?;
    }
    restored(trail, view, choices_in(alloc, part)?)
}

fn names_in(
    alloc: Global,
    params: &[(Name, Kind)],
    targets: &[(Name, Width)],
) -> Result<Vec<Name>, Memory> {
    let mut all = Vec::new(alloc);
    for (name, _) in params {
        add(&mut all, *name)?;
    }
    for (name, _) in targets {
        add(&mut all, *name)?;
    }
    Ok(all)
}

/// A body in which each declared name is its own, and two names that stand nowhere in it.
#[derive(Drop)]
struct Named {
    body: Proc,
    spare: Name,
    stand_in: Name,
}

/// Gives each declaration of a body a name that is none of those taken.
#[tactic(auto, using(crate::proofs::grows_on))]
fn with_own_names(
    trail: &mut Trail,
    names: &mut Names,
    taken: &[Name],
    header: Name,
    body: Proc,
) -> Result<Named, Lost>
    ensures grown { GrowsByNames names.old names.new }
{
    let alloc = trail.alloc();
    let body = apart(trail, names, taken, body)?;
    let last = greatest(greatest_name(&body), taken).max(header.0);
    let spare = above(alloc, names, b'z', last)?;
    let stand_in = above(alloc, names, b'd', spare.0)?;
    Ok(Named {
        body,
        spare,
        stand_in,
    })
}

/// Steps from a program to its normal program, whose body is given, as the strategy proposes them.
#[tactic(auto, using(crate::proofs::grows_not))]
pub(crate) fn proposals(
    alloc: Global,
    names: &mut Names,
    program: &Program,
    normal: &Proc,
) -> Result<Dones, Lost>
    ensures grown { GrowsByNames names.old names.new }
{
    let params = program.params.items();
    let targets = targets(alloc, normal)?;
    let mut trail = Trail::new(alloc);
    let taken = names_in(alloc, params, targets.as_slice())?;
    let body = program.body.copy(alloc)?;
    let Named {
        body,
        spare,
        stand_in,
    } = with_own_names(&mut trail, names, taken.as_slice(), program.name, body)?;
    let frame = Frame {
        params: variables(alloc, params)?,
        targets,
        spare,
    };
    let view = View {
        frame,
        params: program.params.copy(alloc)?,
    };
    derived(&mut trail, &view, (stand_in, Width::Bool), body)?;
    Ok(trail.into_steps())
}
