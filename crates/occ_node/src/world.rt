ghost use Rattle.std.specs.Prelude.{◌≡◌, ◌<◌, false, IfOk, length, slice_get, Some, [], List, ◌⊎◌, ◌++◌, ◌∷◌};
ghost use Rattle.occ_accept.specs.Accept.{in_set};
ghost use Rattle.occ_node.specs.Offers.{next_in};
ghost use Rattle.occ_node.specs.Rows.{AreRows, Interns, IsRow};

use crate::find::{can_refuse, find};
use crate::{NodeId, Row};
use indexmap::IndexSet;
use occ_accept::{Event, Memory};
use occ_mdd::{Maps, SetId, Store};
use std::alloc::Global;

/// Nodes, which stand for behaviours: the failures and ends of processes (Roscoe 1985). A node is known
/// by its number, keeps its behaviours whatever is made later, also where memory runs out, and has the
/// number that every node of its behaviours has.
#[derive(Drop)]
pub struct World {
    /// The sets of assignments, of which the rows' sets of ends are.
    pub store: Store,
    /// The maps from assignments to nodes.
    pub maps: Maps<NodeId>,
    rows: IndexSet<Row>,
    ghost right: { AreRows store rows.keys },
}

// The place of a row among the rows, where it is put last if it isn't there.
fn intern(rows: &mut IndexSet<Row>, row: Row) -> Result<usize, Memory>
    ensures rows { Interns rows.old.keys rows.new.keys row }
    ensures place { IfOk result (λ r. slice_get rows.new.keys r ≡ Some row) }
{
    let (place, _) = rows.insert_full(row)?;
    Ok(place)
}

impl World {
    ghost use Rattle.occ_mdd.specs.occ_dd.Store.{IsSet, sets_of};
    ghost use Rattle.occ_mdd.specs.Maps.{maps_of};
    ghost use Rattle.occ_node.specs.World.{Grows, IsFit, IsMade, IsNode, Leads, nodes_of, row_of, fails, ends};

    /// A world without nodes and maps, whose store has the empty and the full set.
    pub fn new(alloc: Global) -> Result<World, Memory>
        ensures nodes { IfOk result (λ w. nodes_of w ≡ 0) }
        ensures sets { IfOk result (λ w. sets_of w.store ≡ 2) }
        ensures maps { IfOk result (λ w. maps_of w.maps ≡ 0) }
    {
        Ok(World {
            store: Store::new(alloc)?,
            maps: Maps::new(alloc),
            rows: IndexSet::new(alloc),
        })
    }

    /// How many nodes the world has. It takes no memory.
    pub fn nodes(&self) -> usize
        ensures { result ≡ nodes_of self.now }
    {
        self.rows.len()
    }

    /// The set of no assignments, for a row that never ends. It takes no memory.
    pub fn no_ends(&self) -> SetId
        ensures { IsSet self.now.store result (λ x. false) }
    {
        self.store.empty()
    }

    /// The node of a row: the one that has it, or a new one. Where memory runs out, all nodes are as before.
    pub fn make(&mut self, row: Row) -> Result<NodeId, Memory>
        requires { IsFit self.old row }
        ensures leads { Leads self.old self.new }
        ensures made { IfOk result (λ r. IsMade self.new r row) }
    {
        let _sets = row.accepts.items();
        Ok(NodeId(intern(&mut self.rows, row)?))
    }

    /// Gives up all maps, and the results that the store remembers. All nodes and sets stay.
    pub fn forget(&mut self, alloc: Global)
        ensures { Grows self.old self.new }
    {
        self.store.forget(alloc);
        self.maps = Maps::new(alloc);
    }

    /// The row of a node. It takes no memory.
    pub fn row(&self, id: NodeId) -> &Row
        requires { IsNode self.now id }
        ensures row { result.now ≡ row_of self.now id }
        ensures right { IsRow self.now.store id.0 (row_of self.now id) }
    {
        match self.rows.get_index(id.0) {
            Some(row) => row,
            None => unreachable!(),
        }
    }

    /// The node that an event leads to. None exactly where the event isn't offered. It takes no memory.
    pub fn child(&self, id: NodeId, event: Event) -> Option<NodeId>
        requires { IsNode self.now id }
        ensures { result ≡ next_in (row_of self.now id).offers event }
    {
        find(self.row(id).offers.items(), event)
    }

    /// Whether the node can have ended in an assignment before any event. It takes no memory.
    pub fn has_end(&self, id: NodeId, bits: u64) -> bool
        requires { IsNode self.now id }
        ensures { result ≡ ends self.now id [] bits }
    {
        self.store.has(self.row(id).ends, bits)
    }

    /// Whether the node can be stable and refuse all of some events before any event. It takes no memory.
    pub fn refuses(&self, id: NodeId, refused: &[Event]) -> bool
        requires { IsNode self.now id }
        ensures { result ≡ fails self.now id [] (in_set refused.now) }
    {
        can_refuse(self.row(id).accepts.items(), refused)
    }
}
