ghost use Rattle.std.specs.Prelude.{◌≡◌, max, ◌+◌, ℕ, ◌<◌, ◌≤◌, true, nat_lt, ◌∷◌, length, map, Option, None, IfOk};
ghost use Rattle.std.specs.List.{All};
ghost use Rattle.std.specs.List.Sorted.{IsNonDecreasing, IsPermutation};
ghost use Rattle.occ_syntax.specs.occ_base.declared.event.Event.{Event};
ghost use Rattle.occ_syntax.specs.Counts.{bits_of_scope};
ghost use Rattle.occ_nform_table.specs.Lines.{rank, state_place, is_rising};
ghost use Rattle.occ_nform_table.specs.Judging.{height_over, text_less, comes_after, follows, placed, list_marks, accept_marks, row_marks};
ghost use Rattle.occ_nform_table.specs.Normal.{first_mark};
ghost use Rattle.occ_nform_read.specs.Marks.{Offer, seen};

use crate::places::{Places, ranks, state_places};
use crate::sets::sets_fault;
use occ_nform_table::{TableFault, TableRow, rank};
use occ_syntax::{Event, Events, Kind, List, Memory, Name, State};
use std::alloc::Global;

/// Where a row stands in the order of rows: its height, and the text of the row.
#[derive(Drop)]
pub struct Standing {
    pub height: u64,
    pub text: Vec<u8>,
}

fn greater(first: u64, second: u64) -> u64
    ensures { result ≡ max first second }
{
    if first < second { second } else { first }
}

/// The height of a row with these offers, by the heights of the rows before it.
pub fn height_over(heights: &[u64], offers: &[(Event, u32)]) -> u64
    requires low { All (λ h. h ≤ length heights.now) heights.now }
    requires within { All (Offer (length heights.now)) offers.now }
    requires few { length heights.now ≤ 4294967295 }
    ensures value { result ≡ height_over heights.now offers.now }
    ensures low { result ≤ length heights.now + 1 }
{
    let mut height = 0;
    for offer in offers {
        height = greater(height, 1 + heights[offer.1 as usize]);
    }
    height
}

/// Whether a text comes before another one by its bytes.
fn is_less(first: &[u8], second: &[u8]) -> bool
    ensures { result ≡ text_less first.now second.now }
{
    first < second
}

/// Whether a row is after the one before, where there is one.
fn comes_after(before: &Option<Standing>, row: &Standing) -> bool
    ensures { result ≡ comes_after (seen before.now) (row.now.height, row.now.text.items) }
{
    match before {
        None => true,
        Some(earlier) => {
            if earlier.height == row.height {
                is_less(earlier.text.as_slice(), row.text.as_slice())
            } else {
                earlier.height < row.height
            }
        }
    }
}

/// Whether a place is after the one before, where there is one.
fn follows(before: Option<u64>, place: u64) -> bool
    ensures { result ≡ follows nat_lt before place }
{
    match before {
        None => true,
        Some(earlier) => earlier < place,
    }
}

/// The first of the lines from a line on, each with its place, that isn't after the line before it.
fn order_fault(line: u32, places: &[u64]) -> Option<TableFault>
    requires { line + length places.now ≤ 4294967295 }
    ensures { result ≡ first_mark line (list_marks nat_lt None places.now) }
{
    let mut before = None;
    let mut at = line;
    for place in places {
        if !follows(before, *place) {
            return Some(TableFault::Order { line: at });
        }
        before = Some(*place);
        at += 1;
    }
    None
}

/// The first fault of END lines from a line on.
fn ends_fault(
    alloc: Global,
    params: &[(Name, Kind)],
    line: u32,
    ends: &[State],
) -> Result<Option<TableFault>, Memory>
    requires bits { bits_of_scope params.now ≤ 16 }
    requires few { length params.now ≤ 16 }
    requires fits { line + length ends.now ≤ 4294967295 }
    ensures { IfOk result (λ fault. fault ≡ first_mark line (list_marks (λ s u. nat_lt (state_place params.now s) (state_place params.now u)) None ends.now)) }
{
    let places = state_places(alloc, params, ends)?;
    Ok(order_fault(line, places.items()))
}

/// The ranks of offered events, in the order of the offers.
fn offer_ranks(
    alloc: Global,
    params: &[(Name, Kind)],
    offers: &[(Event, u32)],
) -> Result<Vec<u64>, Memory>
    requires { length params.now ≤ 16 }
    ensures { IfOk result (λ ranks. ranks.items ≡ map (λ (o : Event × ℕ). rank params.now o.0) offers.now) }
{
    let mut ranks = Vec::new(alloc);
    for offer in offers {
        ranks.push(rank(params, offer.0))?;
    }
    Ok(ranks)
}

/// The ranks of the events of each set.
fn set_ranks(
    alloc: Global,
    params: &[(Name, Kind)],
    sets: &[Events],
) -> Result<List<Places>, Memory>
    requires { length params.now ≤ 16 }
    ensures { IfOk result (λ ranks. ranks ≡ map (map (rank params.now)) sets.now) }
{
    let mut all = List::new(alloc);
    for set in sets {
        all.push(ranks(alloc, params, set.items())?)?;
    }
    Ok(all)
}

/// Puts ranks in order.
fn sort(ranks: &mut [u64])
    ensures permutation { IsPermutation ranks.old ranks.new }
    ensures sorted { IsNonDecreasing ranks.new }
{
    ranks.sort_unstable();
}

/// The first fault of ACCEPT lines from a line on.
fn accepts_fault(
    alloc: Global,
    params: &[(Name, Kind)],
    line: u32,
    accepts: &[Events],
    offers: &[(Event, u32)],
) -> Result<Option<TableFault>, Memory>
    requires few { length params.now ≤ 16 }
    requires rising { All (λ set. is_rising params.now 0 set ≡ true) accepts.now }
    requires fits { line + length accepts.now ≤ 4294967295 }
    ensures { IfOk result (λ fault. fault ≡ first_mark line (accept_marks params.now offers.now accepts.now None accepts.now)) }
{
    let mut offered = offer_ranks(alloc, params, offers)?;
    sort(offered.as_mut_slice());
    let sets = set_ranks(alloc, params, accepts)?;
    Ok(sets_fault(line, offered.as_slice(), sets.items()))
}

/// The first fault of OFFER lines from a line on.
fn offers_fault(
    alloc: Global,
    params: &[(Name, Kind)],
    line: u32,
    offers: &[(Event, u32)],
) -> Result<Option<TableFault>, Memory>
    requires few { length params.now ≤ 16 }
    requires fits { line + length offers.now ≤ 4294967295 }
    ensures { IfOk result (λ fault. fault ≡ first_mark line (list_marks (λ (o : Event × ℕ) (p : Event × ℕ). nat_lt (rank params.now o.0) (rank params.now p.0)) None offers.now)) }
{
    let ranks = offer_ranks(alloc, params, offers)?;
    Ok(order_fault(line, ranks.as_slice()))
}

/// The first fault of the lines under a ROW line, from a line on.
fn lines_fault(
    alloc: Global,
    params: &[(Name, Kind)],
    line: u32,
    row: &TableRow,
) -> Result<Option<TableFault>, Memory>
    requires bits { bits_of_scope params.now ≤ 16 }
    requires few { length params.now ≤ 16 }
    requires rising { All (λ set. is_rising params.now 0 set ≡ true) row.now.accepts }
    requires fits { line + (length row.now.ends + length row.now.accepts + length row.now.offers) ≤ 4294967295 }
    ensures { IfOk result (λ fault. fault ≡ first_mark line (row_marks params.now row.now)) }
{
    let ends = row.ends.items();
    let accepts = row.accepts.items();
    let offers = row.offers.items();
    let fault = ends_fault(alloc, params, line, ends)?;
    if fault.is_some() {
        return Ok(fault);
    }
    let first = line + ends.len() as u32;
    let fault = accepts_fault(alloc, params, first, accepts, offers)?;
    if fault.is_some() {
        return Ok(fault);
    }
    offers_fault(alloc, params, first + accepts.len() as u32, offers)
}

/// The first fault of the lines of a row, from its ROW line on.
pub fn row_fault(
    alloc: Global,
    params: &[(Name, Kind)],
    line: u32,
    before: &Option<Standing>,
    here: &Standing,
    row: &TableRow,
) -> Result<Option<TableFault>, Memory>
    requires bits { bits_of_scope params.now ≤ 16 }
    requires few { length params.now ≤ 16 }
    requires rising { All (λ set. is_rising params.now 0 set ≡ true) row.now.accepts }
    requires fits { line + (1 + (length row.now.ends + length row.now.accepts + length row.now.offers)) ≤ 4294967295 }
    ensures { IfOk result (λ fault. fault ≡ first_mark line (placed (comes_after (seen before.now) (here.now.height, here.now.text.items)) ∷ row_marks params.now row.now)) }
{
    if !comes_after(before, here) {
        return Ok(Some(TableFault::Order { line }));
    }
    lines_fault(alloc, params, line + 1, row)
}

/// How many lines a row has.
pub fn lines_of(row: &TableRow) -> u32
    requires { 1 + (length row.now.ends + length row.now.accepts + length row.now.offers) ≤ 4294967295 }
    ensures { result ≡ 1 + (length row.now.ends + length row.now.accepts + length row.now.offers) }
{
    let ends = row.ends.items().len();
    let accepts = row.accepts.items().len();
    let offers = row.offers.items().len();
    (1 + (ends + accepts + offers)) as u32
}
