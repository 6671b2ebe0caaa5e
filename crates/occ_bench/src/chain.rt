ghost use Rattle.std.specs.Prelude.{◌≡◌, ◌+◌, ◌^◌, ◌<◌, ◌≤◌, [], ◌∷◌, IfOk};
ghost use Rattle.occ_weave.specs.occ_node.World.{IsNode, Leads};

use crate::reach::reached;
use occ_bits::Memo;
use occ_syntax::{Dir, Event, Memory, Name};
use occ_weave::{Manner, NodeId, Weaver, World, alt, prefix_in, prefix_out, weave};
use std::alloc::Global;
use std::mem;

// How many messages pass.
const MESSAGES: usize = 10;

/// The figures of a chain.
#[derive(Clone, Copy)]
struct Figures {
    /// How many nodes were made.
    made: usize,
    /// How many of them are reached from the result: its rows.
    rows: usize,
}

/// How many nodes were made for a chain and how many are its rows, in words, with names of its own for each channel or two in turn.
pub fn line(alloc: Global, stages: usize, apart: bool) -> Result<String, Memory>
    requires { 1 ≤ stages }
{
    let figures = if apart {
        measure_apart(alloc, stages)
    } else {
        measure_in_turn(alloc, stages)
    };
    let Figures { made, rows } = figures?;
    Ok(format!(in alloc; "{stages} stages: {made} nodes made, {rows} rows of the result")?)
}

/// The figures of a chain of buffers whose inner channels have two names in turn: a closed name is free again. It is woven
/// from its end, by tables that serve all stages.
fn measure_in_turn(alloc: Global, stages: usize) -> Result<Figures, Memory>
    requires { 1 ≤ stages }
    ensures { IfOk result (λ r. r.rows ≤ r.made) }
{
    let mut weaver = Weaver::new(alloc, World::new(alloc)?);
    let mut manner = Manner::new(alloc, 0, &[in_turn(stages - 1)])?;
    let mut other = Manner::new(alloc, 0, &[in_turn(stages)])?;
    let mut other_pairs = Memo::new(alloc);
    let mut chain = buffer(alloc, &mut weaver.world, in_turn(stages - 1), Name(0))?;
    for place in (1..stages).rev() {
        let node = buffer(alloc, &mut weaver.world, in_turn(place - 1), in_turn(place))?;
        chain = weaver.weave(&manner, node, chain)?;
        // The next stage closes the other name.
        mem::swap(&mut manner, &mut other);
        mem::swap(&mut weaver.pairs, &mut other_pairs);
    }
    measured(alloc, &weaver.world, chain)
}

/// The figures of a chain of buffers whose channels have names of their own. It is woven from its end.
fn measure_apart(alloc: Global, stages: usize) -> Result<Figures, Memory>
    requires { 1 ≤ stages }
    ensures { IfOk result (λ r. r.rows ≤ r.made) }
{
    let mut world = World::new(alloc)?;
    let mut chain = buffer(alloc, &mut world, Name(stages - 1), Name(stages))?;
    for place in (1..stages).rev() {
        let node = buffer(alloc, &mut world, Name(place - 1), Name(place))?;
        chain = weave(alloc, &mut world, node, chain, 0, &[Name(place)])?;
    }
    measured(alloc, &world, chain)
}

// The figures of a chain that was made.
fn measured(alloc: Global, world: &World, chain: NodeId) -> Result<Figures, Memory>
    requires { IsNode world.now chain }
    ensures { IfOk result (λ r. r.rows ≤ r.made) }
{
    Ok(Figures {
        made: world.nodes(),
        rows: reached(alloc, world, chain)?,
    })
}

// The name of the channel at a place, of two in turn.
fn in_turn(place: usize) -> Name {
    Name(1 + place % 2)
}

// A buffer of one place, from a channel to another, for all messages.
fn buffer(alloc: Global, world: &mut World, from: Name, to: Name) -> Result<NodeId, Memory>
    ensures leads { Leads world.old world.new }
    ensures node { IfOk result (IsNode world.new) }
{
    let mut node = alt(alloc, world, &[])?;
    for _message in 0..MESSAGES {
        node = pass(alloc, world, from, to, node)?;
    }
    Ok(node)
}

// The node that takes in a bit on a channel, puts it out on another, and is then another node.
fn pass(
    alloc: Global,
    world: &mut World,
    from: Name,
    to: Name,
    next: NodeId,
) -> Result<NodeId, Memory>
    requires next { IsNode world.old next }
    ensures leads { Leads world.old world.new }
    ensures node { IfOk result (IsNode world.new) }
{
    let zero = put(alloc, world, to, 0, next)?;
    let one = put(alloc, world, to, 1, next)?;
    prefix_in(alloc, world, from, &[zero, one])
}

// The node that puts out a value on a channel and is then another node.
fn put(
    alloc: Global,
    world: &mut World,
    chan: Name,
    value: u8,
    next: NodeId,
) -> Result<NodeId, Memory>
    requires { IsNode world.old next }
    ensures leads { Leads world.old world.new }
    ensures node { IfOk result (IsNode world.new) }
{
    let event = Event {
        chan,
        dir: Dir::Output,
        value,
    };
    prefix_out(alloc, world, event, next)
}
