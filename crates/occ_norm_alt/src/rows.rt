ghost use Rattle.std.specs.Prelude.{◌≡◌, ◌≤◌, IfOk};
ghost use Rattle.occ_norm_frame.specs.occ_follow.Sequence.{HasNodes};
ghost use Rattle.occ_norm_frame.specs.Maps.{Extends};
ghost use Rattle.occ_norm_alt.specs.Inputs.{AreInputsAt, AreNexts, AreRows, placed};

use crate::values::Inputs;
use occ_norm_frame::{MapId, NodeId, Normaliser, has_bit, node_at, prefix_in, with_bit};
use occ_syntax::Memory;

/// What the rows of inputs are made of, one for each state: the inputs, and the map of what follows.
#[derive(Clone, Copy)]
pub(crate) struct Rows {
    pub inputs: Inputs,
    pub next: MapId,
}

// A state with a number in the bits of the inputs.
fn with_input(inputs: Inputs, number: u64, state: u64) -> u64
    ensures { result ≡ placed inputs.first inputs.bits number state }
{
    let mut made = state;
    for digit in 0..inputs.bits {
        let one = has_bit(number, digit);
        made = with_bit(made, inputs.first + digit, one);
    }
    made
}

impl Rows {
    // The nodes behind the inputs of all numbers from a state.
    fn nexts(self, world: &Normaliser, state: u64) -> Result<Vec<NodeId>, Memory>
        requires { HasNodes world.now self.next }
        ensures { IfOk result (λ r. AreNexts world.now self.inputs.first self.inputs.bits self.next state r.items) }
    {
        let size: usize = 1 << self.inputs.bits;
        let mut nodes = Vec::with_capacity(world.alloc(), size)?;
        for number in 0..size {
            let there = with_input(self.inputs, number as u64, state);
            nodes.push(node_at(world, self.next, there))?;
        }
        Ok(nodes)
    }

    // The node that waits for the inputs from a state.
    fn row_at(self, world: &mut Normaliser, state: u64) -> Result<NodeId, Memory>
        requires { HasNodes world.old self.next }
        ensures extends { Extends world.old world.new }
        ensures row { IfOk result (AreInputsAt world.new self.inputs.chan self.inputs.first self.inputs.bits 0 0 self.next state) }
    {
        let nodes = self.nexts(world, state)?;
        let weaver = &mut world.lifting.weaver;
        prefix_in(weaver.alloc, &mut weaver.world, self.inputs.chan, &nodes)
    }

    /// The map that waits at each state for the inputs, where it is told for the lowest bits of a state, so many, with the others as
    /// in this one.
    pub fn map(self, world: &mut Normaliser, left: u32, state: u64) -> Result<MapId, Memory>
        requires left { left ≤ 64 }
        requires next { HasNodes world.old self.next }
        ensures extends { Extends world.old world.new }
        ensures rows { IfOk result (AreRows world.new self.inputs.chan self.inputs.first self.inputs.bits self.next left state) }
    {
        if left == 0 {
            let node = self.row_at(world, state)?;
            return world.constant(Some(node));
        }
        let bit = left - 1;
        if self.inputs.has(bit) {
            return self.map(world, bit, state);
        }
        let zero = with_bit(state, bit, false);
        let one = with_bit(state, bit, true);
        let low = self.map(world, bit, zero)?;
        let high = self.map(world, bit, one)?;
        let set = world.bit(bit)?;
        let map = world.choose(set, high, low)?;
        Ok(map)
    }
}
