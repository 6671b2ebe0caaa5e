ghost use Rattle.std.specs.Prelude.{◌≡◌, ◌≤◌, [], ◌∷◌, IfOk, codes};
ghost use Rattle.occ_desk.specs.MemoryDesk.{new_desk};

use occ_desk::{Desk, Memory, MemoryDesk, ReadError, RealDesk, WriteFailed, send};
use std::alloc::Global;
use std::test::Fail;
use std::{fs, process};

// A desk with the file `in` of three bytes.
fn with_file(
    alloc: Global,
    failing: &[u64],
    piece: usize,
    room: usize,
) -> Result<MemoryDesk, Memory>
    requires { 1 ≤ piece }
    ensures { IfOk result (λ desk.
        desk ≡ record (new_desk failing.now piece room) { files = (codes "in", codes "abc") ∷ [] }) }
{
    let mut desk = MemoryDesk::new(alloc, failing, piece, room)?;
    desk.add("in", b"abc")?;
    Ok(desk)
}

#[test]
fn reads_give_the_file_or_the_cause(rt: HostRuntime) -> Result<(), Fail> {
    let mut into = [7].to_vec(rt.alloc())?;
    for (name, most, answer, bytes) in [
        ("in", 3, Ok(()), "abc"),
        ("in", 2, Err(ReadError::TooLong), ""),
        ("nowhere", 3, Err(ReadError::Failed), ""),
    ] {
        let mut desk = with_file(rt.alloc(), &[], 1, 0)?;
        assert_eq!(rt; desk.read(name, most, &mut into), answer);
        assert_eq!(rt; into.as_slice(), bytes.as_bytes());
    }
    Ok(())
}

#[test]
fn two_files_stand_beside_each_other(rt: HostRuntime) -> Result<(), Fail> {
    let mut desk = with_file(rt.alloc(), &[], 1, 0)?;
    desk.add("empty", b"")?;
    let mut into = Vec::new(rt.alloc());
    desk.read("in", 65_536, &mut into)?;
    assert_eq!(rt; into.as_slice(), b"abc".as_slice());
    desk.read("empty", 0, &mut into)?;
    assert!(rt; into.is_empty());
    Ok(())
}

#[test]
fn a_call_fails_by_its_number(rt: HostRuntime) -> Result<(), Fail> {
    for failing in 0..5 {
        let mut desk = with_file(rt.alloc(), &[failing], 2, 3)?;
        let mut into = Vec::new(rt.alloc());
        let read = desk.read("in", 3, &mut into);
        let first = desk.write(b"xyz");
        let second = desk.write(b"xyz");
        assert_eq!(rt; read.is_err(), failing == 0);
        assert_eq!(rt; first.ok(), if failing == 1 { None } else { Some(2) });
        assert_eq!(rt;
            second.ok(),
            match failing {
                1 => Some(2),
                2 => None,
                _ => Some(1)
            }
        );
        let written = match failing {
            1 | 2 => b"xy".as_slice(),
            _ => b"xyx".as_slice()
        };
        assert_eq!(rt; desk.written(), written);
    }
    Ok(())
}

#[test]
fn all_is_sent_until_the_room_is_full(rt: HostRuntime) -> Result<(), Fail> {
    for (piece, room, answer, written) in [
        (3, 8, Ok(()), "a letter"),
        (100, 100, Ok(()), "a letter"),
        (3, 7, Err(WriteFailed), "a lette"),
        (1, 0, Err(WriteFailed), ""),
    ] {
        let mut desk = with_file(rt.alloc(), &[], piece, room)?;
        assert_eq!(rt; send(&mut desk, b"a letter"), answer);
        assert_eq!(rt; desk.written(), written.as_bytes());
    }
    Ok(())
}

#[test]
fn files_of_the_system_are_read(rt: HostRuntime) -> Result<(), Fail> {
    let folder = format!(in rt.alloc(); "/tmp/occ_desk_{}", process::id(rt.process()))?;
    let first = format!(in rt.alloc(); "{folder}/first")?;
    let second = format!(in rt.alloc(); "{folder}/second")?;
    let nowhere = format!(in rt.alloc(); "{folder}/nowhere")?;
    let long = [b'x'; 70_000];
    fs::create_dir_all(&rt, folder.as_str())?;
    fs::write(&rt, first.as_str(), "abc")?;
    fs::write(&rt, second.as_str(), long.as_slice())?;
    let mut into = [7].to_vec(rt.alloc())?;
    for (name, most, answer, bytes) in [
        (first.as_str(), 3, Ok(()), b"abc".as_slice()),
        (first.as_str(), 2, Err(ReadError::TooLong), b"".as_slice()),
        (second.as_str(), u64::MAX, Ok(()), long.as_slice()),
        (
            second.as_str(),
            69_999,
            Err(ReadError::TooLong),
            b"".as_slice(),
        ),
        (nowhere.as_str(), 3, Err(ReadError::Failed), b"".as_slice()),
        (folder.as_str(), 3, Err(ReadError::Failed), b"".as_slice()),
    ] {
        let mut desk = RealDesk::new(rt);
        assert_eq!(rt;
            desk.read(name, most, &mut into),
            answer,
            "at {name} {most}"
        );
        assert_eq!(rt; into.as_slice(), bytes);
    }
    fs::remove_dir_all(&rt, folder.as_str())?;
    Ok(())
}

#[test]
fn output_goes_to_the_system(rt: HostRuntime) -> Result<(), Fail> {
    let mut desk = RealDesk::new(&rt);
    assert_eq!(rt; send(&mut desk, b"a letter\n"), Ok(()));
    Ok(())
}
