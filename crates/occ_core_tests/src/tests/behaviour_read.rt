use occ_behaviour_read::{ClaimFault, read};
use occ_desk::{Dir, Memory, Names, Width};
use occ_syntax::Kind;

#[test]
fn behaviours_are_read(rt: HostRuntime) -> Result<(), Memory> {
    let alloc = rt.alloc();
    let mut names = Names::new(alloc);
    let x = names.intern(b"x")?;
    let c = names.intern(b"c")?;
    let params = [
        (x, Kind::Var(Width::Word(2))),
        (c, Kind::Chan(Width::Bool, Some(Dir::Output))),
    ];
    for (text, line) in [
        (b"STATE [3]\nTRACE c!1\nREFUSES {c!0 c!1}".as_slice(), 0),
        (
            b"DIFFER\r\nSTATE [0]\r\nTRACE\r\nENDS [2]\r\nONLY SECOND\r\n".as_slice(),
            0,
        ),
        (b"".as_slice(), 1),
        (b"STATE [4]\nTRACE\nREFUSES {}\n".as_slice(), 1),
        (b"STATE [3]\nTRACE \nREFUSES {}\n".as_slice(), 2),
        (b"STATE [3]\nTRACE\nREFUSES {c!1 c!1}\n".as_slice(), 3),
        (b"DIFFER\nSTATE [3]\nTRACE\nREFUSES {}\n".as_slice(), 4),
        (b"STATE [3]\nTRACE\nREFUSES {}\nONLY FIRST\n".as_slice(), 4),
    ] {
        let found = match read(alloc, &names, &params, text) {
            Ok(_) => 0,
            Err(ClaimFault::Form { line }) => line,
            Err(ClaimFault::Memory) => 99,
        };
        assert_eq!(rt; found, line);
    }
    Ok(())
}
