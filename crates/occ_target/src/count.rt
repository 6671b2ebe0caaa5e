//! How large the normal program of a table is, counted on the table.

ghost use Rattle.std.specs.Prelude.{◌≡◌, ◌<◌, IfOk, [], length};
ghost use Rattle.std.specs.List.{All, sum_by};
ghost use Rattle.occ_syntax.specs.Counts.{capped, controls};
ghost use Rattle.occ_nform_table.specs.Tables.{AreRowsOf};
ghost use Rattle.occ_target.specs.Framed.{AreBelow};
ghost use Rattle.occ_target.specs.Program.{normal_body};
ghost use Rattle.occ_target.specs.Sizes.{acceptance_size, choices_size, events_size, row_size, size_behind, sizes_from, states_size};

use crate::events::{is_in_branch, is_on};
use crate::inputs::width_count;
use crate::row::chosen;
use occ_nform_table::{Table, TableRow};
use occ_syntax::{Dir, Event, Events, Kind, List, Memory, Name, Names};
use std::alloc::Global;

/// The sizes of the processes of rows.
type Sizes = List<u64>;

fn choices_size(sizes: &[u64], chan: Name, offers: &[(Event, u32)]) -> u64
    requires { AreBelow (length sizes.now) offers.now }
    ensures { result ≡ capped (choices_size sizes.now chan.0 offers.now) }
{
    let mut count: u64 = 0;
    for offer in offers {
        if is_on(chan, *offer) {
            count = count
                .saturating_add(1)
                .saturating_add(sizes[offer.1 as usize]);
        }
    }
    count
}

fn size_behind(sizes: &[u64], first: (Event, u32), offers: &[(Event, u32)]) -> u64
    requires first { first.1 < length sizes.now }
    requires all { AreBelow (length sizes.now) offers.now }
    ensures { result ≡ capped (size_behind sizes.now first.0.dir first.0.chan.0 first.1 offers.now) }
{
    match first.0.dir {
        Dir::Input => choices_size(sizes, first.0.chan, offers).saturating_add(1),
        Dir::Output => sizes[first.1 as usize],
    }
}

fn events_size(sizes: &[u64], offers: &[(Event, u32)]) -> u64
    requires { AreBelow (length sizes.now) offers.now }
    ensures { result ≡ capped (events_size sizes.now None offers.now) }
{
    let mut count: u64 = 0;
    let mut before = None;
    for (place, offer) in offers.iter().enumerate() {
        if !is_in_branch(before, offer.0) {
            let size = size_behind(sizes, *offer, &offers[place..]);
            count = count.saturating_add(1).saturating_add(size);
        }
        before = Some(offer.0.chan);
    }
    count
}

fn acceptances_size(
    alloc: Global,
    sizes: &[u64],
    offers: &[(Event, u32)],
    sets: &[Events],
) -> Result<u64, Memory>
    requires { AreBelow (length sizes.now) offers.now }
    ensures { IfOk result (λ count. count ≡ capped (sum_by (acceptance_size sizes.now offers.now) sets.now)) }
{
    let mut count: u64 = 0;
    for set in sets {
        let moves = chosen(alloc, set.items(), offers)?;
        let size = events_size(sizes, moves.items());
        count = count.saturating_add(2).saturating_add(size);
    }
    Ok(count)
}

/// The size of the process of a row.
fn row_size(alloc: Global, sizes: &[u64], row: &TableRow) -> Result<u64, Memory>
    requires { AreBelow (length sizes.now) row.now.offers }
    ensures { IfOk result (λ count. count ≡ capped (row_size sizes.now row.now)) }
{
    let offers = row.offers.items();
    let accepting = acceptances_size(alloc, sizes, offers, row.accepts.items())?;
    let ends = row.ends.items().len() as u64;
    Ok(
        events_size(sizes, offers)
            .saturating_add(1)
            .saturating_add(accepting)
            .saturating_add(ends)
            .saturating_add(ends),
    )
}

/// The sizes of the processes of rows.
fn row_sizes(alloc: Global, params: &[(Name, Kind)], rows: &[TableRow]) -> Result<Sizes, Memory>
    requires { AreRowsOf params.now 0 rows.now }
    ensures sizes { IfOk result (λ sizes. sizes ≡ sizes_from [] rows.now) }
    ensures count { IfOk result (λ sizes. length sizes ≡ length rows.now) }
{
    let mut sizes = Sizes::new(alloc);
    for row in rows {
        let size = row_size(alloc, sizes.items(), row)?;
        sizes.push(size)?;
    }
    Ok(sizes)
}

fn states_size(sizes: &[u64], states: &[u32]) -> u64
    requires { All (λ n. n < length sizes.now) states.now }
    ensures { result ≡ capped (states_size sizes.now states.now) }
{
    let mut count: u64 = 0;
    for row in states {
        count = count.saturating_add(1).saturating_add(sizes[*row as usize]);
    }
    count
}

/// The controls of the normal program of a table; a count that no `u64` holds is the greatest `u64`.
pub(crate) fn table_size(alloc: Global, _names: &Names, table: &Table) -> Result<u64, Memory>
    requires rows { AreRowsOf table.now.params 0 table.now.rows }
    requires states { All (λ n. n < length table.now.rows) table.now.states }
    ensures { IfOk result (λ count. count ≡ capped (controls (normal_body _names.now table.now.params table.now.rows table.now.states))) }
{
    let params = table.params.items();
    let rows = table.rows.items();
    let states = table.states.items();
    let sizes = row_sizes(alloc, params, rows)?;
    let choices = states_size(sizes.items(), states);
    let inputs = width_count(params);
    let count = choices.saturating_add(1).saturating_add(inputs);
    Ok(count)
}
