ghost use Rattle.std.specs.Prelude.{◌≡◌, ◌<◌, [], true, length};
ghost use Rattle.occ_syntax.specs.occ_base.Names.{IsDistinct};
ghost use Rattle.occ_syntax.specs.Types.{scope_kept};
ghost use Rattle.occ_nform_rows.specs.occ_nform_table.Tables.{are_params, IsInterface};
ghost use Rattle.occ_nform.specs.Interface.{interface_prop};

use crate::level::Draft;
use crate::order::Placed;
use occ_nform_rows::{Lister, NodeId, World, row_text};
use occ_syntax::{Kind, Memory, Name, Names};
use std::alloc::Global;

/// Drafts the rows of nodes over the parameters of a text and their names. No text stands twice in the table of names, which is
/// known where a parameter has a name.
#[derive(Clone, Copy)]
pub(crate) struct Drafter<'a> {
    pub alloc: Global,
    pub names: &'a Names,
    pub params: &'a [(Name, Kind)],
    pub ghost interface: { IsInterface names.now params.now } by { interface_prop names.now params.now },
    pub ghost good: { are_params names.now [] params.now ≡ true },
    pub ghost distinct: { 0 < length params.now → IsDistinct names.now },
    pub ghost kept: { scope_kept params.now ≡ true },
}

impl Drafter<'_> {
    ghost use Rattle.std.specs.Prelude.{IfOk};
    ghost use Rattle.occ_nform.specs.Numbering.{AreDrafts, AreReady, IsDraft, IsReady};

    // The row of a node, where the nodes that it offers have their numbers.
    fn draft(&self, world: &World, numbers: &[u32], node: NodeId) -> Result<Draft, Memory>
        requires { IsReady world.now self.now.params.now numbers.now node }
        ensures { IfOk result (IsDraft world.now self.now.names.now self.now.params.now numbers.now node) }
    {
        let lister = Lister {
            alloc: self.alloc,
            params: self.params,
        };
        let row = lister.row(world, numbers, node)?;
        let text = row_text(self.alloc, self.names, &row)?;
        Ok(Draft { node, row, text })
    }

    /// The rows of the nodes of one height, which begin at a place.
    pub fn drafts(
        &self,
        world: &World,
        numbers: &[u32],
        placed: &[Placed],
        start: usize,
    ) -> Result<Vec<Draft>, Memory>
        requires some { start < length placed.now }
        requires ready { AreReady world.now self.now.params.now numbers.now placed.now start }
        ensures { IfOk result
            (λ drafts. AreDrafts world.now self.now.names.now self.now.params.now numbers.now placed.now start drafts.items) }
    {
        let height = placed[start].height;
        let mut drafts = Vec::new(self.alloc);
        for place in start..placed.len() {
            if placed[place].height != height {
                return Ok(drafts);
            }
            drafts.push(self.draft(world, numbers, placed[place].node)?)?;
        }
        Ok(drafts)
    }
}
