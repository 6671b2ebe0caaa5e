use crate::tests::follow::ended;
use occ_desk::Memory;
use occ_follow::{World, forget, shift};

#[test]
fn all_final_bits_stay_all(rt: HostRuntime) -> Result<(), Memory> {
    let alloc = rt.alloc();
    let mut world = World::new(alloc)?;
    let all = ended(alloc, &mut world)?;
    let turned = shift(alloc, &mut world, all, 3)?;
    let free = forget(alloc, &mut world, turned, 1)?;
    assert_eq!(rt; turned, all);
    assert_eq!(rt; free, all);
    Ok(())
}
