ghost use Rattle.std.specs.Prelude.{◌≡◌, ℕ, ◌<◌, ◌≤◌, ◌^◌, IfOk, All, false, length, slice_index_or};
ghost use Rattle.occ_dd.specs.Table.{nodes_of};

use crate::{SetId, Store};
use occ_base::Memory;

impl Store {
    ghost use Rattle.occ_dd.specs.Store.{has, IsKnown, IsSet, Keeps, row_of};
    ghost use Rattle.occ_dd.specs.Grows.{Grows, IsRows};

    /// The set of the assignments whose row of a truth table is true. The digits of a row's number are
    /// the memberships in the inputs, of which the first is the lowest digit.
    pub fn truth<const ROWS: usize>(
        &mut self,
        rows: &[bool; ROWS],
        inputs: &[SetId],
    ) -> Result<SetId, Memory>
        requires rows { ROWS ≡ 2 ^ length inputs.now }
        requires few { length inputs.now ≤ 6 }
        requires known { All (IsKnown self.old) inputs.now }
        ensures keeps { Keeps self.old self.new }
        ensures set { IfOk result (λ r. IsSet self.new r
            (λ x. slice_index_or rows.now (row_of self.old inputs.now x) false)) }
    {
        Ok(SetId(self.choose_rows(rows, inputs)?))
    }

    // The set of a truth table: the last input chooses between the two halves of the rows.
    fn choose_rows(&mut self, rows: &[bool], inputs: &[SetId]) -> Result<usize, Memory>
        requires rows { length rows.now ≡ 2 ^ length inputs.now }
        requires known { All (IsKnown self.old) inputs.now }
        ensures grows { Grows self.old self.new }
        ensures rows { IfOk result (IsRows self.old self.new rows.now inputs.now) }
    {
        let Some((last, rest)) = inputs.split_last() else {
            return Ok(if rows[0] { self.full } else { self.empty });
        };
        let half = rows.len() / 2;
        let (front, back) = rows.split_at(half);
        let low = self.choose_rows(front, rest)?;
        let high = self.choose_rows(back, rest)?;
        self.choose(last.0, high, low)
    }
}
