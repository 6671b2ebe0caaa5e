ghost use Rattle.std.specs.Prelude.{◌≡◌, ◌≤◌, ◌^◌, IfOk};
ghost use Rattle.occ_syntax.specs.Counts.{bits_of_scope};
ghost use Rattle.occ_nform_rows.specs.occ_compare.Interface.{HasNodes};
ghost use Rattle.occ_nform.specs.Numbering.{AreStarts};

use occ_nform_rows::{NodeId, Root, World, assignment, interface_bits};
use occ_syntax::{Kind, Memory, Name};
use std::alloc::Global;

// How many states an interface has.
fn state_count(params: &[(Name, Kind)]) -> u64
    requires { bits_of_scope params.now ≤ 16 }
    ensures { result ≡ 2 ^ bits_of_scope params.now }
{
    1 << interface_bits(params)
}

// The nodes of the initial states in their order.
pub(crate) fn start_nodes(alloc: Global, world: &World, root: &Root) -> Result<Vec<NodeId>, Memory>
    requires few { bits_of_scope root.now.params ≤ 16 }
    requires nodes { HasNodes world.now root.now.states }
    ensures { IfOk result (λ starts. AreStarts world.now root.now starts.items) }
{
    let params = root.params.items();
    let mut starts = Vec::new(alloc);
    for place in 0..state_count(params) {
        match world.maps.get(root.states, assignment(params, place)) {
            Some(node) => starts.push(node)?,
            None => unreachable!(),
        }
    }
    Ok(starts)
}
