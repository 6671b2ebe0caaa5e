//! The figures of a part.

use crate::texts::Large;
use occ_parse_part::{LexFault, ParseFault, Raw, form, lines, resolve};
use occ_syntax::{Kind, Memory, Names, Scope, Width, controls};
use std::alloc::Global;

// Texts that are read are shorter.
const LONGEST: usize = 4_294_967_295;

/// The figures of a part that was read.
#[derive(Clone, Copy)]
struct Figures {
    /// How many of its lines aren't blank.
    lines: usize,
    /// How many controls the process that it is has.
    controls: u64,
}

/// How many bytes, lines and controls a large part has, in words, or why it is refused.
pub fn line(alloc: Global, large: Large) -> Result<String, Memory> {
    let text = large.text(alloc)?;
    let name = large.name();
    let bytes = text.len();
    Ok(match measure(alloc, text.as_slice()) {
        Ok(Figures { lines, controls }) => {
            format!(in alloc; "{name}: {bytes} bytes, {lines} lines, {controls} controls")?
        }
        Err(fault) => format!(in alloc; "{name}: {bytes} bytes, refused: {fault}")?,
    })
}

/// Reads a part, resolves it in the scope of one BOOL variable `x`, counts, and drops it.
fn measure(alloc: Global, text: &[u8]) -> Result<Figures, ParseFault> {
    let mut names = Names::new(alloc);
    let scope = scope(alloc, &mut names)?;
    let (lines, raw) = read(alloc, &mut names, text)?;
    let part = resolve(alloc, &scope, &raw)?;
    Ok(Figures {
        lines,
        controls: controls(&part),
    })
}

fn scope(alloc: Global, names: &mut Names) -> Result<Scope, Memory> {
    let mut scope = Scope::new(alloc);
    scope.push((names.intern(b"x")?, Kind::Var(Width::Bool)))?;
    Ok(scope)
}

// How many lines a text has, and the part that they are.
fn read(alloc: Global, names: &mut Names, text: &[u8]) -> Result<(usize, Raw), ParseFault> {
    if text.len() >= LONGEST {
        return Err(ParseFault::Memory);
    }
    match lines(alloc, text) {
        Ok(lines) => {
            let raw = form(alloc, names, text, &lines)?;
            Ok((lines.len(), raw))
        }
        Err(LexFault::Line { line, fault }) => Err(ParseFault::Line { line, fault }),
        Err(LexFault::Memory) => Err(ParseFault::Memory),
    }
}
