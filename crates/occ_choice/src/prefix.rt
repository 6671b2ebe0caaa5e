ghost use Rattle.std.specs.Prelude.{◌≡◌, ◌≤◌, [], ◌∷◌, IfOk, length};
ghost use Rattle.std.specs.List.{All};
ghost use Rattle.occ_node.specs.World.{IsNode, Leads};
ghost use Rattle.occ_choice.specs.Branches.{IsAlt, inputs_from};
ghost use Rattle.occ_choice.specs.declared.branch.Branch.TheVariants.{Event as Comm};

use crate::{Branch, alt};
use occ_node::{Dir, Event, Memory, Name, NodeId, World};
use std::alloc::Global;

/// The node that offers the input of each value v on a channel, after which it is `nexts[v]`.
pub fn prefix_in(
    alloc: Global,
    world: &mut World,
    chan: Name,
    nexts: &[NodeId],
) -> Result<NodeId, Memory>
    requires some { 1 ≤ length nexts.now }
    requires values { length nexts.now ≤ 256 }
    requires nexts { All (IsNode world.old) nexts.now }
    ensures leads { Leads world.old world.new }
    ensures prefix { IfOk result (IsAlt world.old world.new (inputs_from chan 0 nexts.now)) }
{
    let branches = inputs(alloc, chan, nexts)?;
    alt(alloc, world, &branches)
}

// The inputs of a channel, each with its node.
fn inputs(alloc: Global, chan: Name, nexts: &[NodeId]) -> Result<Vec<Branch>, Memory>
    requires { length nexts.now ≤ 256 }
    ensures { IfOk result (λ r. r.items ≡ inputs_from chan 0 nexts.now) }
{
    let mut branches = Vec::new(alloc);
    for place in 0..nexts.len() {
        let event = Event {
            chan,
            dir: Dir::Input,
            value: place as u8,
        };
        branches.push(Branch::Event(event, nexts[place]))?;
    }
    Ok(branches)
}

/// The node that offers one event, after which it is `next`.
pub fn prefix_out(
    alloc: Global,
    world: &mut World,
    event: Event,
    next: NodeId,
) -> Result<NodeId, Memory>
    requires { IsNode world.old next }
    ensures leads { Leads world.old world.new }
    ensures prefix { IfOk result (IsAlt world.old world.new (Comm event next ∷ [])) }
{
    alt(alloc, world, &[Branch::Event(event, next)])
}
