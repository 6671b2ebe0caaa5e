ghost use Rattle.std.specs.Prelude.{◌≡◌, IfOk};
ghost use Rattle.occ_node.specs.World.{IsNode, Leads};
ghost use Rattle.occ_scope.specs.Results.{IsForgotten, IsRestricted, IsShifted};
ghost use Rattle.occ_scope.specs.Tables.{KeepForgotten, KeepRestricted, KeepShifted, bits_of, chan_of};

use crate::change::Change;
use crate::changing::node_after;
use crate::{Forgets, Restricts, Shifts};
use occ_node::{Memory, Name, NodeId, World};
use std::alloc::Global;

/// The node that has those behaviours of a node that have no event of the channel, as where a channel is
/// declared and nothing outside reaches it (Roscoe 1985).
pub fn restrict(
    alloc: Global,
    world: &mut World,
    node: NodeId,
    chan: Name,
) -> Result<NodeId, Memory>
    requires { IsNode world.old node }
    ensures leads { Leads world.old world.new }
    ensures restricted { IfOk result (IsRestricted world.old world.new chan node) }
{
    let mut restricts = Restricts::new(alloc, chan);
    restrict_with(alloc, world, &mut restricts, node)
}

/// The same by a table of such nodes, which learns those that are made on the way and says which channel
/// it is.
pub fn restrict_with(
    alloc: Global,
    world: &mut World,
    restricts: &mut Restricts,
    node: NodeId,
) -> Result<NodeId, Memory>
    requires restricts { KeepRestricted world.old restricts.old }
    requires node { IsNode world.old node }
    ensures leads { Leads world.old world.new }
    ensures restricts { KeepRestricted world.new restricts.new }
    ensures chan { chan_of restricts.new ≡ chan_of restricts.old }
    ensures restricted { IfOk result (IsRestricted world.old world.new (chan_of restricts.old) node) }
{
    let change = Change::Restrict(restricts.chan);
    node_after(alloc, world, &mut restricts.memo, change, node)
}

/// The node that has the behaviours of a node, where these bits take every value in all final states: what
/// they are at the end is no longer known.
pub fn forget(alloc: Global, world: &mut World, node: NodeId, bits: u64) -> Result<NodeId, Memory>
    requires { IsNode world.old node }
    ensures leads { Leads world.old world.new }
    ensures forgotten { IfOk result (IsForgotten world.old world.new bits node) }
{
    let mut forgets = Forgets::new(alloc, bits);
    forget_with(alloc, world, &mut forgets, node)
}

/// The same by a table of such nodes, which learns those that are made on the way and says which bits
/// they are.
pub fn forget_with(
    alloc: Global,
    world: &mut World,
    forgets: &mut Forgets,
    node: NodeId,
) -> Result<NodeId, Memory>
    requires forgets { KeepForgotten world.old forgets.old }
    requires node { IsNode world.old node }
    ensures leads { Leads world.old world.new }
    ensures forgets { KeepForgotten world.new forgets.new }
    ensures bits { bits_of forgets.new ≡ bits_of forgets.old }
    ensures forgotten { IfOk result (IsForgotten world.old world.new (bits_of forgets.old) node) }
{
    let change = Change::Forget(forgets.bits);
    node_after(alloc, world, &mut forgets.memo, change, node)
}

/// The node that has the behaviours of a node, where these bits are turned in all final states. Where there
/// are none it is the node itself.
pub fn shift(alloc: Global, world: &mut World, node: NodeId, change: u64) -> Result<NodeId, Memory>
    requires { IsNode world.old node }
    ensures leads { Leads world.old world.new }
    ensures none { change ≡ 0 → IfOk result (λ r. r ≡ node) }
    ensures shifted { IfOk result (IsShifted world.old world.new change node) }
{
    let mut shifts = Shifts::new(alloc);
    shift_with(alloc, world, &mut shifts, node, change)
}

/// The same by a table of such nodes, which learns those that are made on the way. It can serve all bits.
pub fn shift_with(
    alloc: Global,
    world: &mut World,
    shifts: &mut Shifts,
    node: NodeId,
    change: u64,
) -> Result<NodeId, Memory>
    requires shifts { KeepShifted world.old shifts.old }
    requires node { IsNode world.old node }
    ensures leads { Leads world.old world.new }
    ensures shifts { KeepShifted world.new shifts.new }
    ensures none { change ≡ 0 → IfOk result (λ r. r ≡ node) }
    ensures shifted { IfOk result (IsShifted world.old world.new change node) }
{
    if change == 0 {
        return Ok(node);
    }
    node_after(alloc, world, &mut shifts.memo, Change::Shift(change), node)
}
