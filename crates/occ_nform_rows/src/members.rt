ghost use Rattle.std.specs.Prelude.{◌≡◌, ◌≤◌, ◌<◌, ◌+◌, ◌-◌, ◌^◌, ◌++◌, OnOk};
ghost use Rattle.std.specs.Bool.{OnTrue};
ghost use Rattle.occ_compare.specs.occ_dd.Store.{IsKnown, IsEmpty, depth, has};
ghost use Rattle.occ_nform_rows.specs.Ends.{AreHalves, places_of};

use crate::Lister;
use crate::places::size;
use occ_compare::{SetId, Store};
use occ_syntax::Memory;

// The assignments that begin with `first`: so many of the lowest bits are free in them, and these are 0 in the first.
#[derive(Clone, Copy)]
pub(crate) struct Cube {
    pub first: u32,
    pub free: u32,
    pub ghost few: { free ≤ 16 },
    pub ghost room: { first + 2 ^ free ≤ 2 ^ 16 },
}

impl Cube {
    // The lower half, in which the greatest free bit is 0.
    fn low(self) -> Cube
        requires { 0 < self.free }
        ensures first { result.first ≡ self.first }
        ensures free { result.free ≡ self.free - 1 }
    {
        Cube {
            first: self.first,
            free: self.free - 1,
        }
    }

    // The upper half, in which that bit is 1.
    fn high(self) -> Cube
        requires { 0 < self.free }
        ensures first { result.first ≡ self.first + 2 ^ (self.free - 1) }
        ensures free { result.free ≡ self.free - 1 }
    {
        let free = self.free - 1;
        Cube {
            first: self.first + size(free),
            free,
        }
    }
}

// Whether a set is the empty one.
fn is_empty(store: &Store, set: SetId) -> bool
    requires { IsKnown store.now set }
    ensures { OnTrue result (IsEmpty store.now set) }
{
    set == store.empty()
}

// The parts of a set at a bit, of which no higher one matters to it: its members where the bit is 0, and where it is 1.
fn halves(store: &Store, set: SetId, bit: u32) -> (SetId, SetId)
    requires set { IsKnown store.now set }
    requires deep { depth store.now set ≤ bit + 1 }
    ensures { AreHalves store.now set bit result.0 result.1 }
{
    match store.split(set) {
        Some((top, low, high)) if top == bit => (low, high),
        _ => (set, set),
    }
}

impl Lister<'_> {
    // Adds the place of one assignment, where it is a member.
    fn add_member(&self, member: bool, assignment: u32, found: &mut Vec<u32>) -> Result<(), Memory>
        ensures { OnOk result (found.new.items ≡ found.old.items ++ places_of self.now.params.now (λ x. member) 0 assignment) }
    {
        if member {
            found.push(self.place(assignment))?;
        }
        Ok(())
    }

    // Adds the places of the assignments of a cube whose free bits are a member of a set.
    pub(crate) fn add_members(
        &self,
        store: &Store,
        set: SetId,
        cube: Cube,
        found: &mut Vec<u32>,
    ) -> Result<(), Memory>
        requires set { IsKnown store.now set }
        requires deep { depth store.now set ≤ cube.free }
        ensures { OnOk result
            (found.new.items ≡ found.old.items ++ places_of self.now.params.now (has store.now set) cube.free cube.first) }
    {
        if is_empty(store, set) {
            return Ok(());
        }
        let level = cube.free;
        if level == 0 {
            return self.add_member(store.has(set, 0), cube.first, found);
        }
        let parts = halves(store, set, level - 1);
        self.add_members(store, parts.0, cube.low(), found)?;
        self.add_members(store, parts.1, cube.high(), found)
    }
}
