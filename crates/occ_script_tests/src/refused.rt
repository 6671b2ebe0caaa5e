//! The first faults of texts, where the bound tells.

use occ_script::ParseFault::{Form, Limit};
use occ_script::{Bound, ParseFault, Text, Which, parse};
use occ_syntax::Names;
use std::alloc::Global;

/// What a short text reads as.
fn read(alloc: Global, text: &[u8], bound: Bound) -> Result<Text, ParseFault> {
    let mut names = Names::new(alloc);
    if text.len() > 1000 {
        return Err(ParseFault::Memory);
    }
    parse(alloc, &mut names, text, bound)
}

// A program behind the steps of a script may be larger, and has no replicator.
const TEXTS: [(&[u8], Bound, Option<ParseFault>); 4] = [
    (
        b"PROC p ([17]WORD8 x)\n  SKIP\n:",
        Bound::Program,
        Some(Limit {
            which: Which::Parameters,
            line: 1,
        }),
    ),
    (b"PROC p ([17]WORD8 x)\n  SKIP\n:", Bound::Script, None),
    (
        b"PROC p ()\n  SEQ i = 0 FOR 2\n    SKIP\n:",
        Bound::Program,
        None,
    ),
    (
        b"PROC p ()\n  SEQ i = 0 FOR 2\n    SKIP\n:",
        Bound::Script,
        Some(Form { line: 2 }),
    ),
];

#[test]
fn the_bound_tells(rt: HostRuntime) {
    for (text, bound, wanted) in &TEXTS {
        let found = read(rt.alloc(), text, *bound).err();
        assert!(rt; found == *wanted, "of {text:?}");
    }
}
