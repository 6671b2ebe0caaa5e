//! The first faults of parts in a scope.

use occ_script::{ParseFault, Raw, form, lex_lines as lines, resolve};
use occ_syntax::{Dir, Kind, Memory, Name, Names, Proc, Scope, Width};
use std::alloc::Global;

const WORD2: Kind = Kind::Var(Width::Word(2));

// An array x of two, a variable y, and a channel c for outputs, in the order in which they are put into the table.
const TEXTS: [&str; 4] = ["x[0]", "x[1]", "y", "c"];

const ENTRIES: [(Name, Kind); 4] = [
    (Name(0), WORD2),
    (Name(1), WORD2),
    (Name(2), WORD2),
    (Name(3), Kind::Chan(Width::Bool, Some(Dir::Output))),
];

fn names(alloc: Global) -> Result<Names, Memory> {
    let mut names = Names::new(alloc);
    for text in &TEXTS {
        names.intern(text.as_bytes())?;
    }
    Ok(names)
}

fn scope(alloc: Global) -> Result<Scope, Memory> {
    let mut scope = Scope::new(alloc);
    for entry in &ENTRIES {
        scope.push(*entry)?;
    }
    Ok(scope)
}

/// Reads a short text as a part.
fn read(alloc: Global, names: &mut Names, text: &[u8]) -> Result<Raw, ParseFault> {
    if text.len() > 1000 {
        return Err(ParseFault::Memory);
    }
    match lines(alloc, text) {
        Ok(lines) => form(alloc, names, text, &lines),
        Err(_) => Err(ParseFault::Memory),
    }
}

fn read_in_scope(alloc: Global, text: &[u8]) -> Result<Proc, ParseFault> {
    let mut names = names(alloc)?;
    let raw = read(alloc, &mut names, text)?;
    resolve(alloc, &scope(alloc)?, &raw)
}

const PARTS: [(&[u8], Option<ParseFault>); 8] = [
    (b"  SEQ\n    x[1] := y PLUS 1\n    c ! x[0] = 2\n", None),
    (b"  SKIP\n  SKIP", Some(ParseFault::Form { line: 2 })),
    (
        b"  SEQ i = 0 FOR 2\n    SKIP",
        Some(ParseFault::Form { line: 1 }),
    ),
    (b"  z := 1", Some(ParseFault::Undeclared { line: 1 })),
    (b"  x[5] := 1", Some(ParseFault::Index { line: 1 })),
    (b"  y := TRUE", Some(ParseFault::TypeClash { line: 1 })),
    (
        b"  BOOL b:\n  c ? b",
        Some(ParseFault::Direction { line: 2 }),
    ),
    (
        b"  BOOL b:\n  SEQ\n    c ? b\n    y := TRUE",
        Some(ParseFault::TypeClash { line: 4 }),
    ),
];

#[test]
fn the_first_fault_of_a_part(rt: HostRuntime) {
    for (text, wanted) in &PARTS {
        let found = read_in_scope(rt.alloc(), text).err();
        assert!(rt; found == *wanted, "in {text:?}");
    }
}
