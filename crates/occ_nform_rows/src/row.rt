ghost use Rattle.std.specs.Prelude.{◌≡◌, true, length, IfOk};
ghost use Rattle.occ_compare.specs.Interface.{IsWithin};
ghost use Rattle.occ_nform_rows.specs.Listed.{IsListed};
ghost use Rattle.occ_compare.specs.occ_node.Offers.{are_below};
ghost use Rattle.occ_compare.specs.occ_node.World.{IsNode, row_of};

use crate::Lister;
use crate::offers::listed_offers;
use crate::sets::listed_sets;
use occ_compare::{NodeId, World};
use occ_nform_table::TableRow;
use occ_syntax::Memory;

impl Lister<'_> {
    /// The row of a table that a node is: its ends as states, its acceptances and its offers, each list in the order of the
    /// lines of a normal text. `numbers` has at the number of each node that is offered the number of its row. Each END costs a
    /// step for each bit of the parameters.
    pub fn row(&self, world: &World, numbers: &[u32], node: NodeId) -> Result<TableRow, Memory>
        requires node { IsNode world.now node }
        requires within { IsWithin world.now self.now.params.now node }
        requires numbered { are_below (length numbers.now) (row_of world.now node).offers ≡ true }
        ensures { IfOk result (IsListed world.now self.now.params.now numbers.now node) }
    {
        let row = world.row(node);
        let ends = self.listed_ends(&world.store, row.ends)?;
        let accepts = listed_sets(self.alloc, self.params, row.accepts.items())?;
        let offers = listed_offers(self.alloc, self.params, numbers, &row.offers)?;
        Ok(TableRow {
            ends,
            accepts,
            offers,
        })
    }
}
