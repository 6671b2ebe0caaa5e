ghost use Rattle.std.specs.Prelude.{◌≡◌, ◌≤◌, [], IfOk, IfSome};
ghost use Rattle.occ_compare.specs.occ_mdd.Maps.{Keeps};
ghost use Rattle.occ_compare.specs.occ_node.World.{Grows};
ghost use Rattle.occ_syntax.specs.Counts.{bits_of_scope, most_bits};
ghost use Rattle.occ_syntax.specs.View.{tree};
ghost use Rattle.occ_norm_alt.specs.occ_usage.Accepted.{KeepsRules};
ghost use Rattle.occ_norm_assign.specs.occ_norm_arrange.Flat.{IsFlat};
ghost use Rattle.occ_norm_alt.specs.occ_norm_frame.Maps.{Extends};
ghost use Rattle.occ_norm.specs.Root.{IsRoot};

use crate::after::after;
use occ_compare::{MapId, Root, World};
use occ_norm_alt::{Accepted, Frame, Normaliser, ending, except, keeps, rebased};
use occ_norm_assign::flattened;
use occ_norm_par::written_bits;
use occ_syntax::{Memory, Proc, Program};
use std::alloc::Global;
use std::mem;

// The frame of a program's body where the bits that the body never writes matter as changes, and the others as values.
fn unwritten_frame(alloc: Global, whole: &Frame, body: &Proc) -> Result<Frame, Memory>
    ensures vars { IfOk result (λ r. r.vars ≡ whole.now.vars) }
    ensures closed { IfOk result (λ r. r.closed.items ≡ []) }
{
    let written = written_bits(alloc, whole, body)?;
    let keep = except(whole.keep, written);
    whole.with(alloc, keep, Vec::new(alloc))
}

// The map of a program whose rules and limits are kept.
fn states_of(program: &Program, world: &mut Normaliser) -> Result<MapId, Memory>
    requires rules { KeepsRules program.now }
    requires interface { bits_of_scope program.now.params ≤ 16 }
    requires state { most_bits (tree program.now.body) (bits_of_scope program.now.params) ≤ 24 }
    ensures extends { Extends world.old world.new }
    ensures root { IfOk result (IsRoot world.new program.now.params (tree program.now.body)) }
{
    let alloc = world.alloc();
    let whole = Frame::of(alloc, program)?;
    let frame = unwritten_frame(alloc, &whole, &program.body)?;
    let ended = ending(world, whole.keep, frame.keep)?;
    let changes = after(world, &frame, &program.body, ended)?;
    let states = rebased(world, frame.keep, changes)?;
    Ok(states)
}

// The same in a world that is an owner's as long as this takes.
fn states_in(alloc: Global, program: &Program, world: &mut World) -> Result<MapId, Memory>
    requires rules { KeepsRules program.now }
    requires interface { bits_of_scope program.now.params ≤ 16 }
    requires state { most_bits (tree program.now.body) (bits_of_scope program.now.params) ≤ 24 }
    ensures grows { Grows world.old world.new }
    ensures maps { Keeps world.old.maps world.new.maps }
    ensures root { IfOk result (IsRoot world.new program.now.params (tree program.now.body)) }
{
    let empty = World::new(alloc)?;
    let mut owner = Normaliser::new(alloc, mem::replace(world, empty));
    let states = states_of(program, &mut owner);
    *world = owner.into_world();
    states
}

// The program with flat PARs, if it has others and keeps the rules with them too. Types are kept by the contract of `flattened`;
// `keeps` is asked for usage alone.
fn flat_program(alloc: Global, program: &Program) -> Result<Option<Program>, Memory>
    ensures params { IfOk result (λ found. IfSome found (λ flat. flat.params ≡ program.now.params)) }
    ensures body { IfOk result (λ found. IfSome found (λ flat. IsFlat (tree program.now.body) (tree flat.body))) }
    ensures rules { IfOk result (λ found. IfSome found (λ flat. KeepsRules flat)) }
{
    let Some(body) = flattened(alloc, &program.body)? else {
        return Ok(None);
    };
    let flat = Program {
        name: program.name,
        params: program.params.copy(alloc)?,
        body,
    };
    if !keeps(alloc, &flat)? {
        return Ok(None);
    }
    Ok(Some(flat))
}

/// The behaviours of a program from each of its initial states: a map that has a node at every assignment of the bits of its
/// parameters' variables, laid out from bit 0 in the order of the parameters, the low bit of each first. The node has exactly the
/// failures and the ends of the program's body from that state; its ends are assignments of the same bits. Also where memory
/// runs out, each node, set and map of the world keeps what it stands for.
// PARs inside one another are made one first, so that a chain of parts is put side by side half by half.
pub fn normalise(alloc: Global, accepted: &Accepted, world: &mut World) -> Result<Root, Memory>
    ensures grows { Grows world.old world.new }
    ensures maps { Keeps world.old.maps world.new.maps }
    ensures params { IfOk result (λ r. r.params ≡ accepted.now.program.params) }
    ensures root { IfOk result (λ r. IsRoot world.new accepted.now.program.params (tree accepted.now.program.body) r.states) }
{
    let program = accepted.program();
    let flat = flat_program(alloc, program)?;
    let states = match &flat {
        Some(flat) => states_in(alloc, flat, world)?,
        None => states_in(alloc, program, world)?,
    };
    Ok(Root {
        params: program.params.copy(alloc)?,
        states,
    })
}
