ghost use Rattle.std.specs.Prelude.{◌≡◌, length, IfOk};
ghost use Rattle.occ_nform.specs.Numbering.{AreOrdered};

use occ_nform_rows::NodeId;
use occ_syntax::Memory;
use std::alloc::Global;

// A node with its height.
#[derive(Clone, Copy)]
pub(crate) struct Placed {
    pub height: usize,
    pub node: NodeId,
}

// The marked nodes by height.
pub(crate) fn by_height(
    alloc: Global,
    marks: &[bool],
    heights: &[usize],
) -> Result<Vec<Placed>, Memory>
    requires { length heights.now ≡ length marks.now }
    ensures { IfOk result (λ placed. AreOrdered marks.now heights.now placed.items) }
{
    let mut placed = Vec::new(alloc);
    for place in 0..marks.len() {
        if marks[place] {
            placed.push(Placed {
                height: heights[place],
                node: NodeId(place),
            })?;
        }
    }
    placed.sort_unstable_by_key(|node| node.height);
    Ok(placed)
}
