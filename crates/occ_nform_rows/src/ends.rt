ghost use Rattle.std.specs.Prelude.{◌≡◌, ◌≤◌, ℕ, true, map, IfOk};
ghost use Rattle.std.specs.List.Sorted.{IsPermutation, IsSorted};
ghost use Rattle.std.specs.Ordering.{nat_cmp};
ghost use Rattle.occ_compare.specs.occ_accept.Order.{strict};
ghost use Rattle.occ_compare.specs.occ_dd.Store.{IsKnown, depth};
ghost use Rattle.occ_nform_rows.specs.Ends.{byte_state_at, has_number};
ghost use Rattle.occ_nform_rows.specs.Lists.{AreEnds};
ghost use Rattle.occ_syntax.specs.Counts.{bits_of_scope};

use crate::Lister;
use crate::members::Cube;
use occ_compare::{SetId, Store};
use occ_nform_table::{States, interface_bits};
use occ_syntax::Memory;

// The same numbers, none of which is less than the one before it.
fn sorted(mut numbers: Vec<u32>) -> Vec<u32>
    ensures moved { IsPermutation numbers.items result.items }
    ensures sorted { IsSorted nat_cmp result.items }
{
    numbers.sort_unstable();
    numbers
}

// The numbers in increasing order, each once.
fn in_order(numbers: Vec<u32>) -> Vec<u32>
    ensures increasing { strict nat_cmp result.items ≡ true }
    ensures members { (k : ℕ) → has_number result.items k ≡ has_number numbers.items k }
{
    let mut kept = sorted(numbers);
    kept.dedup();
    kept
}

impl Lister<'_> {
    // The states that have these places.
    fn states_at(&self, places: &[u32]) -> Result<States, Memory>
        ensures { IfOk result (λ states. states ≡ map (byte_state_at self.now.params.now) places.now) }
    {
        let mut states = States::new(self.alloc);
        for place in places {
            states.push(self.state_at(*place)?)?;
        }
        Ok(states)
    }

    // The states of the members of a set, in the order of states. The set is that of the bits of the parameters.
    pub(crate) fn listed_ends(&self, store: &Store, set: SetId) -> Result<States, Memory>
        requires set { IsKnown store.now set }
        requires deep { depth store.now set ≤ bits_of_scope self.now.params.now }
        ensures { IfOk result (AreEnds store.now self.now.params.now set) }
    {
        let bits = interface_bits(self.params);
        let mut found = Vec::new(self.alloc);
        let all = Cube {
            first: 0,
            free: bits,
        };
        self.add_members(store, set, all, &mut found)?;
        let places = in_order(found);
        self.states_at(places.as_slice())
    }
}
