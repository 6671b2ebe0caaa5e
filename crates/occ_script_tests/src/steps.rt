use occ_derive_trail::{Lost, Trail, parts_of};
use occ_script::Law;
use occ_syntax::{Proc, Procs};

#[test]
fn steps_are_kept(rt: HostRuntime) -> Result<(), Lost> {
    let alloc = rt.alloc();
    let mut parts = Procs::new(alloc);
    parts.push(Proc::Skip)?;
    let parts = parts_of(alloc, parts)?;
    let mut trail = Trail::new(alloc);
    trail.enter(0)?;
    for part in parts.as_slice() {
        trail.forward(Law::SeqOne, part)?;
    }
    trail.leave();
    let steps = trail.into_steps();
    assert!(rt; steps.items().len() == 1);
    Ok(())
}
