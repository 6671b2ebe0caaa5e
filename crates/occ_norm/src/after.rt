ghost use Rattle.std.specs.Prelude.{◌≡◌, ℕ, ◌≤◌, ◌<◌, false, IfOk};
ghost use Rattle.occ_syntax.specs.Declarations.{is_declaration};
ghost use Rattle.occ_syntax.specs.Tree.{alt, par, select, seq};
ghost use Rattle.occ_syntax.specs.Usage.{AllKeepUsage, AreSeparate, BranchesKeepUsage, CasesKeepUsage, KeepsUsage};
ghost use Rattle.occ_syntax.specs.View.{tree, trees, cases, branches};
ghost use Rattle.occ_norm_alt.specs.occ_follow.Sequence.{HasNodes};
ghost use Rattle.occ_norm_alt.specs.occ_norm_frame.Maps.{Extends};
ghost use Rattle.occ_norm_alt.specs.occ_norm_frame.After.{IsOver};
ghost use Rattle.occ_norm_alt.specs.occ_norm_frame.Placed.{Fits, FitAll, FitBranches, FitCases};
ghost use Rattle.occ_norm.specs.From.{IsFront, IsSpan};
ghost use Rattle.occ_norm.specs.Parts.{IsAfterIn};

use occ_compare::{MapId, SetId};
use occ_norm_alt::{
    Alternation, Alternative, Frame, Get, Normaliser, Put, ending, freed, holds, input, output,
};
use occ_norm_assign::{Assignment, assigned, straight};
use occ_norm_par::{Sides, all_states, limited, side_frame, states_between, states_left};
use occ_syntax::{Expr, Guard, Memory, Proc};

// The states in which a part begins, and the map of what follows it.
#[derive(Clone, Copy)]
struct Span {
    from: SetId,
    rest: MapId,
}

/// The map of a part and then what another map has.
#[cycle(after)]
pub fn after(
    world: &mut Normaliser,
    frame: &Frame,
    part: &Proc,
    rest: MapId,
) -> Result<MapId, Memory>
    requires part { Fits frame.now.vars (tree part.now) }
    requires usage { KeepsUsage (tree part.now) }
    requires rest { IsOver world.old frame.now.bits rest }
    ensures extends { Extends world.old world.new }
    ensures nodes { IfOk result (HasNodes world.new) }
    ensures after { IfOk result (IsAfterIn world.new frame.now.vars frame.now.layout frame.now.keep frame.now.closed.items (tree part.now) rest) }
{
    let from = all_states(world, frame);
    front(world, frame, part, Span { from, rest })
}

// The same in the states of a set alone: a part in a SEQ or an IF need not say what it does in those that can't be reached there.
// The declarations round a process are a loop, since there may be thousands. A set of outside says nothing of what they declare.
#[cycle(after)]
fn front(world: &mut Normaliser, frame: &Frame, part: &Proc, span: Span) -> Result<MapId, Memory>
    requires part { Fits frame.now.vars (tree part.now) }
    requires usage { KeepsUsage (tree part.now) }
    requires span { IsSpan world.old frame.now span }
    ensures extends { Extends world.old world.new }
    ensures over { IfOk result (IsOver world.new frame.now.bits) }
    ensures front { IfOk result (IsFront world.new frame.now span.from (tree part.now) span.rest) }
{
    let alloc = world.alloc();
    let mut inner = frame.copy(alloc)?;
    let mut body = part;
    while let Some((name, kind, inside)) = body.declared() {
        inner.declare(alloc, name, kind)?;
        body = inside;
    }
    let map = undeclared(world, &inner, body, span)?;
    freed(world, frame.bits, inner.bits, map)
}

#[tactic(auto, unfolding(crate::specs::tree))]
#[cycle(after)]
fn undeclared(
    world: &mut Normaliser,
    frame: &Frame,
    part: &Proc,
    span: Span,
) -> Result<MapId, Memory>
    requires declared { is_declaration (tree part.now) ≡ false }
    requires part { Fits frame.now.vars (tree part.now) }
    requires usage { KeepsUsage (tree part.now) }
    requires span { IsSpan world.old frame.now span }
    ensures extends { Extends world.old world.new }
    ensures over { IfOk result (IsOver world.new frame.now.bits) }
    ensures front { IfOk result (IsFront world.new frame.now span.from (tree part.now) span.rest) }
{
    let rest = span.rest;
    match part {
        Proc::Skip => Ok(rest),
        Proc::Stop => world.stop(),
        Proc::Assign { vars, values } => {
            let vars = vars.items();
            let values = values.items();
            assigned(world, frame, &Assignment { vars, values }, rest)
        }
        &Proc::Input { chan, var } => input(world, frame, Get { chan, var }, rest),
        Proc::Output { chan, value } => output(world, frame, &Put { chan: *chan, value }, rest),
        Proc::Seq(parts) => in_turn(world, frame, parts.items(), span),
        Proc::Par(parts) => at_once(world, frame, parts.items(), rest),
        Proc::If(choices) => first_choice(world, frame, choices.items(), span),
        Proc::Alt(alternatives) => alternated(world, frame, alternatives.items(), rest),
        Proc::Var { .. } | Proc::Chan { .. } => unreachable!(),
    }
}

// The parts of a SEQ, and then what another map has. What follows a part has no rows for states that can't be reached there, and
// straight parts in a row are gone through at once.
#[cycle(after)]
fn in_turn(
    world: &mut Normaliser,
    frame: &Frame,
    parts: &[Proc],
    span: Span,
) -> Result<MapId, Memory>
    requires parts { FitAll frame.now.vars (trees parts.now) }
    requires usage { AllKeepUsage (trees parts.now) }
    requires span { IsSpan world.old frame.now span }
    ensures extends { Extends world.old world.new }
    ensures over { IfOk result (IsOver world.new frame.now.bits) }
    ensures front { IfOk result (IsFront world.new frame.now span.from (seq (trees parts.now)) span.rest) }
{
    let sets = states_between(world, frame, parts, span.from)?;
    let mut map = span.rest;
    let mut left = parts.len();
    while left > 0 {
        let rest = limited(world, frame, sets[left], map)?;
        if let Some((start, made)) = straight(world, frame, &parts[..left], rest)? {
            left = start;
            map = made;
            continue;
        }
        left -= 1;
        let from = sets[left];
        let next = front(world, frame, &parts[left], Span { from, rest })?;
        map = next;
    }
    Ok(map)
}

// The choices of an IF, and then what another map has. Each begins where its condition is TRUE and none in front of it is.
#[cycle(after)]
fn first_choice(
    world: &mut Normaliser,
    frame: &Frame,
    choices: &[(Expr, Proc)],
    span: Span,
) -> Result<MapId, Memory>
    requires choices { FitCases frame.now.vars (cases choices.now) }
    requires usage { CasesKeepUsage (cases choices.now) }
    requires span { IsSpan world.old frame.now span }
    ensures extends { Extends world.old world.new }
    ensures over { IfOk result (IsOver world.new frame.now.bits) }
    ensures front { IfOk result (IsFront world.new frame.now span.from (select (cases choices.now)) span.rest) }
{
    let rest = span.rest;
    let alloc = world.alloc();
    let sets = states_left(world, frame, choices, span.from)?;
    let mut map = world.stop()?;
    let mut left = choices.len();
    while left > 0 {
        left -= 1;
        let choice = &choices[left];
        let set = holds(alloc, world, frame, &choice.0)?;
        let from = world.within(sets[left], set)?;
        let chosen = front(world, frame, &choice.1, Span { from, rest })?;
        let next = world.choose(set, chosen, map)?;
        map = next;
    }
    Ok(map)
}

// The alternatives of an ALT, and then what another map has.
#[cycle(after)]
fn alternated(
    world: &mut Normaliser,
    frame: &Frame,
    alternatives: &[(Guard, Proc)],
    rest: MapId,
) -> Result<MapId, Memory>
    requires alternatives { FitBranches frame.now.vars (branches alternatives.now) }
    requires usage { BranchesKeepUsage (branches alternatives.now) }
    requires rest { IsOver world.old frame.now.bits rest }
    ensures extends { Extends world.old world.new }
    ensures nodes { IfOk result (HasNodes world.new) }
    ensures after { IfOk result (IsAfterIn world.new frame.now.vars frame.now.layout frame.now.keep frame.now.closed.items (alt (branches alternatives.now)) rest) }
{
    let alloc = world.alloc();
    let mut alternation = Alternation::none(world)?;
    let mut left = alternatives.len();
    while left > 0 {
        left -= 1;
        let alternative = &alternatives[left];
        let next = after(world, frame, &alternative.1, rest)?;
        let guard = &alternative.0;
        let enabled = holds(alloc, world, frame, &guard.condition)?;
        let wait = &guard.wait;
        let added = Alternative {
            enabled,
            wait,
            next,
        };
        let more = alternation.and(world, frame, &added)?;
        alternation = more;
    }
    alternation.map(world)
}

// The parts of a PAR, and then what another map has.
#[cycle(after)]
fn at_once(
    world: &mut Normaliser,
    frame: &Frame,
    parts: &[Proc],
    rest: MapId,
) -> Result<MapId, Memory>
    requires parts { FitAll frame.now.vars (trees parts.now) }
    requires usage { AllKeepUsage (trees parts.now) }
    requires separate { AreSeparate (trees parts.now) }
    requires rest { IsOver world.old frame.now.bits rest }
    ensures extends { Extends world.old world.new }
    ensures nodes { IfOk result (HasNodes world.new) }
    ensures after { IfOk result (IsAfterIn world.new frame.now.vars frame.now.layout frame.now.keep frame.now.closed.items (par (trees parts.now)) rest) }
{
    if parts.is_empty() {
        return Ok(rest);
    }
    if parts.len() == 1 {
        return after(world, frame, &parts[0], rest);
    }
    let alloc = world.alloc();
    let sides = Sides::of(world, frame, parts, rest)?;
    let mut maps = Vec::new(alloc);
    for place in 0..parts.len() {
        let inner = side_frame(alloc, frame, &sides, place)?;
        let ended = ending(world, sides.all, inner.keep)?;
        let map = after(world, &inner, &parts[place], ended)?;
        maps.push(map)?;
    }
    let map = sides.joined(world, maps.as_slice())?;
    sides.sequel(world, frame, map, rest)
}
