ghost use Rattle.std.specs.Prelude.{◌≡◌, true, IfOk};
ghost use Rattle.occ_behaviour_read.specs.occ_dd.Store.{IsKnown, Keeps};
ghost use Rattle.occ_follow.specs.occ_mdd.Maps.{IsKnown as IsMapKnown};

use occ_behaviour_read::{SetId, Store};
use occ_desk::Memory;
use occ_follow::{Both, MapId, Maps};
use std::test::Fail;

// Of two labels the first.
#[derive(Drop)]
struct First;

impl Both<bool> for First {
    ghost accepts = { λ _ _. true ≡ true };

    ghost relates = { λ _ a _ r. r ≡ a };

    ghost leads = { λ _ _. true ≡ true };

    ghost leads_refl = { λ _ _. true };

    ghost leads_trans = { λ _ _ _ _ _ _. true };

    ghost accepts_later = { λ _ _ _ _ _ _. true };

    ghost relates_later = { λ _ _ _ _ _ _ is. is };

    fn both(&mut self, a: Option<bool>, _b: Option<bool>) -> Result<Option<bool>, Memory>
        ensures leads { true ≡ true }
        ensures relates { IfOk result (λ r. r ≡ a) }
    {
        Ok(a)
    }
}

// The map that is TRUE on a set, and has no label elsewhere.
fn on_set(store: &mut Store, maps: &mut Maps<bool>, set: SetId) -> Result<MapId, Memory>
    requires { IsKnown store.old set }
    ensures sets { Keeps store.old store.new }
    ensures map { IfOk result (IsMapKnown maps.new) }
{
    let label = maps.constant(Some(true))?;
    let none = maps.constant(None)?;
    maps.ite(store, set, label, none)
}

#[test]
fn a_bit_chooses(rt: HostRuntime) -> Result<(), Memory> {
    let mut store = Store::new(rt.alloc())?;
    let mut maps = Maps::new(rt.alloc());
    let bit = store.bit(0)?;
    let map = on_set(&mut store, &mut maps, bit)?;
    assert_eq!(rt; maps.get(map, 1), Some(true));
    assert_eq!(rt; maps.get(map, 0), None);
    let turned = maps.flip(map, 0)?;
    assert_eq!(rt; maps.get(turned, 1), None);
    assert_eq!(rt; maps.get(turned, 0), Some(true));
    Ok(())
}

#[test]
fn a_map_has_labels(rt: HostRuntime) -> Result<(), Fail> {
    let mut store = Store::new(rt.alloc())?;
    let mut maps = Maps::new(rt.alloc());
    let bit = store.bit(0)?;
    let map = on_set(&mut store, &mut maps, bit)?;
    let labels = maps.leaves_under(&store, map, bit)?;
    assert_eq!(rt; labels.as_slice(), [true].as_slice());
    assert_eq!(rt; maps.apply2(map, map, &mut First)?, map);
    Ok(())
}

// The assignments with an odd number of ones among 40 bits, of which a table would have 2^40 rows.
fn odd_of_forty(store: &mut Store) -> Result<SetId, Memory>
    ensures { IfOk result (IsKnown store.new) }
{
    let mut odd = store.empty();
    for k in 0..40 {
        let bit = store.bit(k)?;
        let even = store.not(odd)?;
        odd = store.ite(bit, even, odd)?;
    }
    Ok(odd)
}

#[test]
fn a_set_of_forty_bits_chooses(rt: HostRuntime) -> Result<(), Memory> {
    let mut store = Store::new(rt.alloc())?;
    let mut maps = Maps::new(rt.alloc());
    let odd = odd_of_forty(&mut store)?;
    assert!(rt; store.has(odd, 1));
    assert!(rt; !store.has(odd, 3));
    assert_eq!(rt; store.pick(odd), Some(1));
    // nothing and all; each bit; odd and even of so many bits, which are the bit itself where it is one
    assert_eq!(rt; store.sets(), 2 + 40 + 39 + 39);
    let map = on_set(&mut store, &mut maps, odd)?;
    assert_eq!(rt; maps.get(map, 7), Some(true));
    assert_eq!(rt; maps.get(map, 0), None);
    Ok(())
}
