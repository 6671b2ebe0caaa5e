ghost use Rattle.std.specs.Prelude.{◌<◌, length, OnOk, IfOk};
ghost use Rattle.std.specs.List.{All};
ghost use Rattle.occ_nform.specs.declared.level.Draft.{Draft};
ghost use Rattle.occ_nform.specs.Numbering.{ArePlaced, IsGraph, IsNumbering, IsPlaced};

use crate::drafter::Drafter;
use crate::level::{Draft, by_text};
use crate::order::Placed;
use occ_nform_rows::{TableRows, World};
use occ_syntax::Memory;

// The rows so far, and the number that each node's row has.
#[derive(Drop)]
pub(crate) struct Numbering {
    pub rows: TableRows,
    pub numbers: Vec<u32>,
}

// How many rows a table can have, since their numbers have 32 bits.
const MOST_ROWS: usize = 4_294_967_294;

impl Numbering {
    // Makes a draft the next row. Want of memory also where there are MOST_ROWS rows.
    fn place(&mut self, draft: Draft) -> Result<(), Memory>
        requires { draft.node.0 < length self.old.numbers.items }
        ensures { OnOk result (IsPlaced self.old self.new draft) }
    {
        let count = self.rows.items().len();
        if count >= MOST_ROWS {
            return Err(Memory);
        }
        let Draft { node, row, .. } = draft;
        self.numbers[node.0] = count as u32;
        self.rows.push(row)?;
        Ok(())
    }

    // Makes drafts the next rows, in their order.
    fn place_all(&mut self, drafts: Vec<Draft>) -> Result<(), Memory>
        requires known { All (λ (d : Draft). d.node.0 < length self.old.numbers.items) drafts.items }
        ensures { OnOk result (ArePlaced self.old self.new drafts.items) }
    {
        for draft in drafts {
            self.place(draft)?;
        }
        Ok(())
    }

    // The placed nodes numbered by height, and then by the texts of their rows: level by level, since the row of a node has the
    // numbers of lower ones.
    pub fn of(drafter: &Drafter, world: &World, placed: &[Placed]) -> Result<Numbering, Memory>
        requires { IsGraph world.now drafter.now.params.now placed.now }
        ensures { IfOk result
            (IsNumbering world.now drafter.now.names.now drafter.now.params.now placed.now (length placed.now)) }
    {
        let alloc = drafter.alloc;
        let rows = TableRows::new(alloc);
        let numbers = vec![in alloc; 0; world.nodes()]?;
        let mut numbering = Numbering { rows, numbers };
        let mut start = 0;
        while start < placed.len() {
            let level = drafter.drafts(world, &numbering.numbers, placed, start)?;
            start += level.len();
            numbering.place_all(by_text(level))?;
        }
        Ok(numbering)
    }
}
