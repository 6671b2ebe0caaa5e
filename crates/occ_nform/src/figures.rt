ghost use Rattle.std.specs.Prelude.{◌≡◌, ◌≤◌, ◌+◌, [], get_or, length, IfOk};
ghost use Rattle.occ_syntax.specs.Counts.{capped};
ghost use Rattle.occ_nform_rows.specs.occ_nform_table.Judging.{height_over};
ghost use Rattle.occ_nform.specs.Counts.{greatest, heights_of, offers_in};

use occ_nform_rows::{Table, TableRow};
use occ_syntax::{Event, Memory};
use std::alloc::Global;

/// How large a table is.
#[derive(Clone, Copy, Debug, PartialEq, Eq)]
pub struct Counts {
    /// The number of rows.
    pub rows: u64,
    /// The number of OFFER lines, of all rows together.
    pub offers: u64,
    /// The greatest height of a row, and 0 where there is no row.
    pub height: u64,
    /// The number of initial states.
    pub states: u64,
}

/// How many rows, offers and initial states a table has, and the height of its highest row. An offer counts as of height 0
/// where it names no row before its own.
pub fn count(alloc: Global, table: &Table) -> Result<Counts, Memory>
    ensures rows { IfOk result (λ c. c.rows ≡ length table.now.rows) }
    ensures offers { IfOk result (λ c. c.offers ≡ capped (offers_in table.now.rows)) }
    ensures height { IfOk result (λ c. c.height ≡ greatest (heights_of [] table.now.rows)) }
    ensures states { IfOk result (λ c. c.states ≡ length table.now.states) }
{
    let rows = table.rows.items();
    Ok(Counts {
        rows: rows.len() as u64,
        offers: offers_in(rows),
        height: greatest_height(alloc, rows)?,
        states: table.states.items().len() as u64,
    })
}

// The OFFER lines of rows together, as 64 bits hold them.
fn offers_in(rows: &[TableRow]) -> u64
    ensures { result ≡ capped (offers_in rows.now) }
{
    let mut offers: u64 = 0;
    for row in rows {
        offers = offers.saturating_add(row.offers.items().len() as u64);
    }
    offers
}

// The greatest height of a row.
fn greatest_height(alloc: Global, rows: &[TableRow]) -> Result<u64, Memory>
    ensures { IfOk result (λ height. height ≡ greatest (heights_of [] rows.now)) }
{
    let mut heights = Vec::new(alloc);
    let mut height: u64 = 0;
    for row in rows {
        let own = height_over(heights.as_slice(), row.offers.items());
        heights.push(own)?;
        height = height.max(own);
    }
    Ok(height)
}

// The height of a row with these offers, by the heights of the rows before it.
fn height_over(heights: &[u64], offers: &[(Event, u32)]) -> u64
    requires { greatest heights.now ≤ length heights.now }
    ensures height { result ≡ height_over heights.now offers.now }
    ensures most { result ≤ 1 + length heights.now }
{
    let mut height: u64 = 0;
    for (_, row) in offers {
        height = height.max(1 + height_of(heights, *row));
    }
    height
}

// The height of a row before, and 0 where there is none.
#[tactic(auto, using(crate::proofs::Counting::height_within))]
fn height_of(heights: &[u64], row: u32) -> u64
    ensures height { result ≡ get_or heights.now row 0 }
    ensures most { result ≤ greatest heights.now }
{
    match heights.get(row as usize) {
        Some(height) => *height,
        None => 0,
    }
}
