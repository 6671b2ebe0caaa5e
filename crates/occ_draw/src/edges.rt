ghost use Rattle.std.specs.List.{list_any, position_or_len};
ghost use Rattle.std.specs.Prelude.{◌≡◌, ◌<◌, ◌++◌, ◌∷◌, [], length, not, IfOk, OnOk};
ghost use Rattle.occ_draw.specs.Edges.{edges_of};
ghost use Rattle.occ_draw.specs.Adding.{edge_of, grown_at, same_way, way_of, ways_of, with_offer, with_way};

use indexmap::IndexSet;
use occ_syntax::{Dir, Event, Events, List, Memory, Name};
use std::alloc::Global;

/// An edge: all offers of a row that lead to one other row on one channel.
#[derive(Debug, Drop)]
pub struct Edge {
    /// The first of the offers: its event, and the number of the row that it leads to.
    pub offer: (Event, u32),
    /// The events of all of them, in their order.
    pub events: Events,
}

/// The edges of the offers of a row.
pub(crate) fn edges(alloc: Global, offers: &[(Event, u32)]) -> Result<Vec<Edge>, Memory>
    ensures { IfOk result (λ edges. edges.items ≡ edges_of offers.now) }
{
    let mut found = Found {
        ways: IndexSet::new(alloc),
        edges: Vec::new(alloc),
    };
    for offer in offers {
        found.add(alloc, *offer)?;
    }
    Ok(found.edges)
}

// A channel with its direction, and the row to which an edge leads.
type Way = ((Name, Dir), u32);

// The edges so far, and the way of each in the same order.
#[derive(Drop)]
struct Found {
    ways: IndexSet<Way>,
    edges: Vec<Edge>,
}

impl Found {
    // Adds an offer: to the edge that goes its way, or as an edge of its own.
    fn add(&mut self, alloc: Global, offer: (Event, u32)) -> Result<(), Memory>
        requires { self.old.ways.keys ≡ ways_of self.old.edges.items }
        ensures edges { OnOk result (self.new.edges.items ≡ with_offer self.old.edges.items offer) }
        ensures ways { OnOk result (self.new.ways.keys ≡ ways_of self.new.edges.items) }
    {
        let (place, is_new) = note(&mut self.ways, way(offer))?;
        if is_new {
            begin(alloc, &mut self.edges, offer)
        } else {
            grow(&mut self.edges, place, offer)
        }
    }
}

fn way(offer: (Event, u32)) -> Way
    ensures { result ≡ way_of offer }
{
    let (event, row) = offer;
    ((event.chan, event.dir), row)
}

// The place of a way, which is put last if it isn't there yet, and whether it is new.
fn note(ways: &mut IndexSet<Way>, way: Way) -> Result<(usize, bool), Memory>
    ensures place { IfOk result (λ noted. noted.0 ≡ position_or_len (same_way way) ways.old.keys) }
    ensures within { IfOk result (λ noted. noted.0 < length ways.new.keys) }
    ensures is_new { IfOk result (λ noted. noted.1 ≡ not (list_any (same_way way) ways.old.keys)) }
    ensures keys { OnOk result (ways.new.keys ≡ with_way ways.old.keys way) }
{
    let noted = ways.insert_full(way)?;
    Ok(noted)
}

// Adds an edge with one offer.
fn begin(alloc: Global, edges: &mut Vec<Edge>, offer: (Event, u32)) -> Result<(), Memory>
    ensures { OnOk result (edges.new.items ≡ edges.old.items ++ edge_of offer ∷ []) }
{
    let mut events = Events::new(alloc);
    events.push(offer.0)?;
    edges.push(Edge { offer, events })?;
    Ok(())
}

// Adds an offer to the edge at a place.
fn grow(edges: &mut Vec<Edge>, place: usize, offer: (Event, u32)) -> Result<(), Memory>
    requires { place < length edges.old.items }
    ensures { OnOk result (edges.new.items ≡ grown_at edges.old.items place offer) }
{
    match edges.get_mut(place) {
        Some(edge) => edge.events.push(offer.0),
        None => unreachable!(),
    }
}
