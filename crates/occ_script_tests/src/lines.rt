use occ_script::{
    Direction, Format, Sections, is_blank, last_line, script_lines_lines as lines, step_line,
};
use occ_syntax::Memory;

const SCRIPT: &[u8] =
    b"occam-script 2\nFROM -- first\n\nSTEP seq-one FORWARD /0/12\n  SKIP\n\nTO\nTOP\n\n";

#[test]
fn texts_have_sections(rt: HostRuntime) -> Result<(), Memory> {
    let mut sections = Sections::new(Format::Script, SCRIPT);
    let wanted: [(u32, bool); 4] = [(1, true), (2, true), (4, false), (7, false)];
    for (number, blank) in &wanted {
        if let Some(section) = sections.next() {
            assert!(rt; section.number == *number);
            assert!(rt; is_blank(&section) == *blank);
            let reading = lines(rt.alloc(), &section)?;
            assert!(rt; reading.lines.is_empty() == *blank);
        }
    }
    assert!(rt; sections.next().is_none());
    assert!(rt; last_line(SCRIPT) == 8);
    Ok(())
}

#[test]
fn a_step_is_read(rt: HostRuntime) -> Result<(), Memory> {
    let row = b"STEP seq-one BACKWARD /3".as_slice();
    if let Some(head) = step_line(rt.alloc(), b"STEP", row)? {
        assert!(rt; head.law == b"seq-one".as_slice());
        assert!(rt; head.dir == Direction::Backward);
    }
    Ok(())
}
