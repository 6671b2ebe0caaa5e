use occ_script::{ParseFault, ScriptFault, orders, read};
use occ_syntax::Names;

#[test]
fn scripts_and_orders_are_read(rt: HostRuntime) -> Result<(), ScriptFault> {
    let mut names = Names::new(rt.alloc());
    let text =
        b"occam-script 2\nFROM\nPROC p ()\n  x := 1\n:\nTO\nPROC p ()\n  y := 1\n:\n".as_slice();
    let wanted = ScriptFault::Text(ParseFault::Undeclared { line: 4 });
    assert!(rt; read(rt.alloc(), &mut names, text).err() == Some(wanted));
    let text = b"occam-orders 2\nORDER seq-none FORWARD /0\nORDER expr BACKWARD /\n  SKIP\n";
    let found = orders(rt.alloc(), &mut names, text)?;
    assert!(rt; found.items().len() == 2);
    Ok(())
}
