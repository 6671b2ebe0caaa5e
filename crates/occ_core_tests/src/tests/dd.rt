use occ_behaviour_read::Store;
use occ_desk::Memory;

#[test]
fn two_bits_make_a_set(rt: HostRuntime) -> Result<(), Memory> {
    let mut store = Store::new(rt.alloc())?;
    let low = store.bit(0)?;
    let high = store.bit(1)?;
    let both = store.and(low, high)?;
    assert!(rt; store.has(both, 3));
    assert!(rt; !store.has(both, 1));
    assert_eq!(rt; store.pick(both), Some(3));
    assert_eq!(rt; store.split(both), Some((1, store.empty(), low)));
    Ok(())
}

#[test]
fn two_bits_are_a_part_of_each(rt: HostRuntime) -> Result<(), Memory> {
    let mut store = Store::new(rt.alloc())?;
    let low = store.bit(0)?;
    let high = store.bit(1)?;
    let both = store.and(low, high)?;
    assert_eq!(rt; store.exists(both, 0)?, high);
    assert!(rt; store.subset(both, low)?);
    Ok(())
}

#[test]
fn a_bit_and_its_opposite(rt: HostRuntime) -> Result<(), Memory> {
    let mut store = Store::new(rt.alloc())?;
    let bit = store.bit(0)?;
    let other = store.not(bit)?;
    assert_eq!(rt; store.flip(bit, 0)?, other);
    assert_eq!(rt; store.or(bit, other)?, store.full());
    Ok(())
}

#[test]
fn nothing_all_and_the_last_bit(rt: HostRuntime) -> Result<(), Memory> {
    let mut store = Store::new(rt.alloc())?;
    assert_eq!(rt; store.pick(store.empty()), None);
    assert_eq!(rt; store.split(store.empty()), None);
    assert_eq!(rt; store.pick(store.full()), Some(0));
    assert_eq!(rt; store.split(store.full()), None);
    let last = store.bit(63)?;
    assert_eq!(rt; store.pick(last), Some(1 << 63));
    Ok(())
}

#[test]
fn one_bit_chooses_between_two_sets(rt: HostRuntime) -> Result<(), Memory> {
    let mut store = Store::new(rt.alloc())?;
    let low = store.bit(0)?;
    let high = store.bit(1)?;
    let other = store.not(high)?;
    let alike = store.ite(low, high, other)?;
    for bits in 0..4 {
        assert_eq!(rt; store.has(alike, bits), bits == 0 || bits == 3);
    }
    Ok(())
}

#[test]
fn a_truth_table(rt: HostRuntime) -> Result<(), Memory> {
    let mut store = Store::new(rt.alloc())?;
    let inputs = [store.bit(0)?, store.bit(1)?];
    let lower = store.truth(&[false, true, false, false], &inputs)?;
    let differ = store.truth(&[false, true, true, false], &inputs)?;
    for bits in 0..4 {
        assert_eq!(rt; store.has(lower, bits), bits == 1);
        assert_eq!(rt; store.has(differ, bits), bits == 1 || bits == 2);
    }
    Ok(())
}
