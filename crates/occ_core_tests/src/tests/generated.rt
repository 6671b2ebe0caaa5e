use occ_gen::{Shape, generate};
use std::test::Fail;

const BUFFERS: &str = "PROC buffers (CHAN OF WORD1 in?, CHAN OF WORD1 out!)
  CHAN OF WORD1 c1:
  PAR
    WORD1 v:
    SEQ i = 0 FOR 10
      SEQ
        in ? v
        c1 ! v
    WORD1 v:
    SEQ i = 0 FOR 10
      SEQ
        c1 ? v
        out ! v
:
";

const ADDERS: &str = "PROC adders (CHAN OF WORD2 in?, CHAN OF WORD2 out!)
  WORD2 v:
  SEQ i = 0 FOR 5
    SEQ
      in ? v
      out ! v PLUS 1
:
";

const MUXES: &str = "PROC muxes (WORD4 s, CHAN OF WORD1 in?, CHAN OF WORD1 out!)
  CHAN OF WORD1 c1:
  PAR
    WORD1 v:
    SEQ i = 0 FOR 6
      SEQ
        in ? v
        IF
          s = 1
            c1 ! ~ v
          TRUE
            c1 ! v
    WORD1 v:
    SEQ i = 0 FOR 6
      SEQ
        c1 ? v
        IF
          s = 2
            out ! ~ v
          TRUE
            out ! v
:
";

#[test]
fn chains(rt: HostRuntime) -> Result<(), Fail> {
    let cases = [
        (Shape::Buffers, 2, BUFFERS),
        (Shape::Adders, 1, ADDERS),
        (Shape::Muxes, 2, MUXES),
    ];
    for (shape, n, text) in cases {
        let made = generate(rt.alloc(), shape, n)?;
        assert_eq!(rt; made.as_slice(), text.as_bytes());
    }
    Ok(())
}
