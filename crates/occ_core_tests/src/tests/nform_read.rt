use occ_behaviour_read::{TableFault, nform_read_read as read};
use occ_desk::Names;

const NORMAL: &[u8] = b"occam-normal 1
PARAM CHAN OF BOOL a!
PARAM CHAN OF BOOL b!
ROW 0
END []
ROW 1
END []
ACCEPT {a!1}
ACCEPT {b!0}
OFFER a!1 0
OFFER b!0 0
STATE [] 1
";

// The same with an offer of its own row on line 10.
const OWN_ROW: &[u8] = b"occam-normal 1
PARAM CHAN OF BOOL a!
PARAM CHAN OF BOOL b!
ROW 0
END []
ROW 1
END []
ACCEPT {a!1}
ACCEPT {b!0}
OFFER a!1 1
OFFER b!0 0
STATE [] 1
";

#[test]
fn a_normal_text_is_read(rt: HostRuntime) -> Result<(), TableFault> {
    let alloc = rt.alloc();
    let table = read(alloc, &mut Names::new(alloc), NORMAL)?;
    assert_eq!(rt; table.params.items().len(), 2);
    assert_eq!(rt; table.rows.items().len(), 2);
    assert_eq!(rt; table.states.items(), [1].as_slice());
    Ok(())
}

#[test]
fn the_first_faulty_line_is_named(rt: HostRuntime) -> Result<(), TableFault> {
    let alloc = rt.alloc();
    let own_row = read(alloc, &mut Names::new(alloc), OWN_ROW);
    assert!(rt; matches!(own_row, Err(TableFault::Form { line: 10 })));
    let cut_off = read(alloc, &mut Names::new(alloc), &NORMAL[..NORMAL.len() - 11]);
    assert!(rt; matches!(cut_off, Err(TableFault::Form { line: 11 })));
    Ok(())
}
