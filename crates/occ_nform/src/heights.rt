ghost use Rattle.std.specs.Prelude.{◌≡◌, ◌<◌, ◌≤◌, ◌+◌, ℕ, length, slice_index, IfOk};
ghost use Rattle.std.specs.List.{All};
ghost use Rattle.occ_syntax.specs.occ_base.declared.event.Event.{Event};
ghost use Rattle.occ_nform_rows.specs.occ_node.declared.node.NodeId.{NodeId};
ghost use Rattle.occ_nform.specs.Numbering.{AreHeights, nodes_over};

use occ_nform_rows::{NodeId, World};
use occ_syntax::{Event, Memory};
use std::alloc::Global;

// The height of a node over those that it offers.
fn height_over(heights: &[usize], offers: &[(Event, NodeId)]) -> usize
    requires known { All (λ (o : Event × NodeId). o.1.0 < length heights.now) offers.now }
    requires low { (i : ℕ) → i < length heights.now → slice_index heights.now i ≤ i }
    ensures height { result ≡ nodes_over heights.now offers.now }
    ensures most { result ≤ length heights.now }
{
    let mut height = 0;
    for (_, node) in offers {
        height = height.max(heights[node.0] + 1);
    }
    height
}

// The height of each node: 0 without offers, else one more than the greatest height that it offers.
pub(crate) fn all_heights(alloc: Global, world: &World) -> Result<Vec<usize>, Memory>
    ensures { IfOk result (λ heights. AreHeights world.now heights.items) }
{
    let mut heights = Vec::new(alloc);
    for place in 0..world.nodes() {
        let offers = world.row(NodeId(place)).offers.items();
        heights.push(height_over(&heights, offers))?;
    }
    Ok(heights)
}
