ghost use Rattle.std.specs.Prelude.{◌≡◌, ℕ, ◌<◌, ◌^◌, IfOk, if◌then◌else◌};
ghost use Rattle.occ_dd.specs.Assignment.{turned};
ghost use Rattle.occ_dd.specs.Store.{has};
ghost use Rattle.occ_dd.specs.Store.{IsKnown as IsSetKnown, Keeps as KeepsSets};

use crate::choose::choose;
use crate::collect::{Found, collect};
use crate::combine::combine;
use crate::{Both, MapId};
use occ_dd::{Call, Label, Memo, Memory, SetId, Store, Table};
use std::alloc::Global;
use std::hash::Hash;

/// Functions from assignments of 64 bits to optional labels, known by their numbers. An assignment is
/// a u64 whose k-th binary digit is bit k. One function has one number, and a number keeps its
/// function whatever is made later, also where memory runs out. The functions are ordered reduced
/// decision diagrams with shared nodes (Bryant 1986).
#[derive(Drop)]
pub struct Maps<L>
where
    Option<L>: Eq + Hash,
{
    table: Table<Option<L>>,
    alloc: Global,
}

impl<L: Label> Maps<L> {
    ghost use Rattle.occ_mdd.specs.Maps.{value, IsKnown, IsMap, IsRelated, HasLabels, AreLabelsOn, Keeps, maps_of};

    /// A table without maps. It takes no memory.
    pub fn new(alloc: Global) -> Maps<L>
        ensures { maps_of result ≡ 0 }
    {
        Maps {
            table: Table::new(alloc),
            alloc,
        }
    }

    /// How many maps the table has given numbers to. It takes no memory.
    pub fn maps(&self) -> usize
        ensures { result ≡ maps_of self.now }
    {
        self.table.size()
    }

    /// The function that has one value at every assignment.
    pub fn constant(&mut self, leaf: Option<L>) -> Result<MapId, Memory>
        ensures keeps { Keeps self.old self.new }
        ensures map { IfOk result (λ r. IsMap self.new r (λ x. leaf)) }
    {
        Ok(MapId(self.table.leaf(leaf)?))
    }

    /// The function's value at an assignment. It takes no memory.
    pub fn get(&self, a: MapId, bits: u64) -> Option<L>
        requires { IsKnown self.now a }
        ensures { result ≡ value self.now a bits }
    {
        self.table.label(a.0, bits)
    }

    /// The function whose value at each assignment is this one's where one bit of it is turned.
    pub fn flip(&mut self, a: MapId, bit: u32) -> Result<MapId, Memory>
        requires bit { bit < 64 }
        requires a { IsKnown self.old a }
        ensures keeps { Keeps self.old self.new }
        ensures map { IfOk result (λ r. IsMap self.new r (λ x. value self.old a (turned x bit))) }
    {
        Ok(MapId(self.table.flip(a.0, bit)?))
    }

    /// The function that is `a` on the set and `b` elsewhere.
    pub fn ite(
        &mut self,
        store: &mut Store,
        set: SetId,
        a: MapId,
        b: MapId,
    ) -> Result<MapId, Memory>
        requires set { IsSetKnown store.old set }
        requires a { IsKnown self.old a }
        requires b { IsKnown self.old b }
        ensures sets { KeepsSets store.old store.new }
        ensures keeps { Keeps self.old self.new }
        ensures map { IfOk result (λ r. IsMap self.new r
            (λ x. if has store.old set x then value self.old a x else value self.old b x)) }
    {
        let mut memo = Memo::new(self.alloc);
        let call = Call {
            first: set.0,
            second: a.0,
            third: b.0,
        };
        Ok(MapId(choose(&mut self.table, store, call, &mut memo)?))
    }

    /// The function whose value at each assignment is what `f` gives for the values of the two.
    /// Also where memory runs out, `f` is at a later state.
    pub fn apply2<F: Both<L>>(&mut self, a: MapId, b: MapId, f: &mut F) -> Result<MapId, Memory>
        requires a { IsKnown self.old a }
        requires b { IsKnown self.old b }
        requires a_labels { HasLabels self.old a (F.accepts f.old) }
        requires b_labels { HasLabels self.old b (F.accepts f.old) }
        ensures keeps { Keeps self.old self.new }
        ensures leads { F.leads f.old f.new }
        ensures map { IfOk result (λ r. IsRelated self.old self.new a b r (F.relates f.new)) }
    {
        let mut memo = Memo::new(self.alloc);
        let call = Call {
            first: a.0,
            second: b.0,
            third: 0,
        };
        Ok(MapId(combine(&mut self.table, call, f, &mut memo)?))
    }

    /// The labels that the function has on the set, each once, in increasing order. Where its value is
    /// None it has no label.
    pub fn leaves_under(&self, store: &Store, a: MapId, set: SetId) -> Result<Vec<L>, Memory>
        requires a { IsKnown self.now a }
        requires set { IsSetKnown store.now set }
        ensures { IfOk result (λ labels. AreLabelsOn self.now a store.now set L.cmp labels.items) }
    {
        let labels = Vec::new(self.alloc);
        let seen = Memo::new(self.alloc);
        let mut found = Found { labels, seen };
        collect(&self.table, store, set, a.0, &mut found)?;
        let mut labels = found.labels;
        labels.sort_unstable();
        labels.dedup();
        Ok(labels)
    }
}
