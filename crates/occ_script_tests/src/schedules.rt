use occ_run_schedule::{ScheduleFault, read};
use occ_syntax::{Kind, Name, Width};

#[test]
fn a_blank_line_is_no_line_of_a_schedule(rt: HostRuntime) {
    let params = [(Name(0), Kind::Var(Width::Word(2)))];
    let text = b"occam-schedule 1\nSTATE [3]\nSTEP 4294967295\n\n".as_slice();
    let found = read(rt.alloc(), &params, text).err();
    assert!(rt; matches!(found, Some(ScheduleFault::Form { line: 4 })));
}
