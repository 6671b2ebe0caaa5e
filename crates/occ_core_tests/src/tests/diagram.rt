use occ_behaviour_read::DdTable as Table;
use occ_desk::Memory;

#[test]
fn a_flip_exchanges_the_sides(rt: HostRuntime) -> Result<(), Memory> {
    let mut table = Table::new(rt.alloc());
    let no = table.leaf(false)?;
    let yes = table.leaf(true)?;
    assert!(rt; table.depth(no) == 0);
    assert!(rt; table.depth(yes) == 0);
    let bit = table.branch(3, no, yes)?;
    let turned = table.flip(bit, 3)?;
    assert!(rt; table.label(bit, 8));
    assert!(rt; !table.label(turned, 8));
    Ok(())
}
