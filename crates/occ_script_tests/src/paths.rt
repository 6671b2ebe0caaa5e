use occ_script::{at, script_lines_path as path};
use occ_syntax::{List, Memory, Name, Proc, Program, Scope};

#[test]
fn paths_lead_to_parts(rt: HostRuntime) -> Result<(), Memory> {
    let params: Scope = List::new(rt.alloc());
    let program = Program {
        name: Name(0),
        params,
        body: Proc::Stop,
    };
    if let Some(whole) = path(rt.alloc(), b"/")? {
        assert!(rt; matches!(at(&program, &whole), Some(Proc::Stop)));
    }
    if let Some(past) = path(rt.alloc(), b"/0")? {
        assert!(rt; at(&program, &past).is_none());
    }
    Ok(())
}
