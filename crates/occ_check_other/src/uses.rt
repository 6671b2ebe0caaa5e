//! Variables and channels whose uses are odd.

use crate::choices::warning;
use occ_check_find::{
    Decl, Does, Form, Look, Memory, Piece as P, Put, Sort, Span, Told, Use, is_array, parts,
    width_word,
};

/// The most rows around one that are looked at: there are levels for fewer.
const MOST_AROUND: usize = 100;

/// What was seen of a declaration: its first use, its first output and input as a channel, and whether both ends stand in
/// parts that run at once.
#[derive(Clone, Copy, Debug)]
pub struct Seen {
    first: Option<Use>,
    output: Option<Use>,
    input: Option<Use>,
    apart: bool,
}

/// Nothing was seen yet.
pub const UNSEEN: Seen = Seen {
    first: None,
    output: None,
    input: None,
    apart: false,
};

impl Seen {
    /// Sees one more use.
    pub fn see(&mut self, look: Look, found: Use) {
        let other = match found.does {
            Does::InputsOn => {
                self.input = self.input.or(Some(found));
                self.output
            }
            Does::OutputsOn => {
                self.output = self.output.or(Some(found));
                self.input
            }
            _ => None,
        };
        if let Some(end) = other {
            self.apart = self.apart || are_apart(look, end.row, found.row);
        }
        if self.first.is_none_or(|before| is_before(found, before)) {
            self.first = Some(found);
        }
    }
}

/// Whether a use comes before one that stands in front of it: what stands on the right of an assignment is read first.
fn is_before(found: Use, other: Use) -> bool {
    other.row == found.row && other.does.changes() && matches!(found.does, Does::Reads)
}

/// The nearest row that two rows stand below, or one of them.
fn around_both(look: Look, one: usize, two: usize) -> Option<usize> {
    let (mut a, mut b) = (one, two);
    for _ in 0..MOST_AROUND.saturating_mul(2) {
        if a == b {
            break;
        }
        if look.src.level(a) >= look.src.level(b) {
            a = look.parent(a)?;
        } else {
            b = look.parent(b)?;
        }
    }
    Some(a)
}

/// Whether two rows stand in two parts of one PAR, or in copies of one.
fn are_apart(look: Look, one: usize, two: usize) -> bool {
    let Some(both) = around_both(look, one, two) else {
        return false;
    };
    let mut row = both;
    for _ in 0..MOST_AROUND {
        if matches!(look.form(row), Form::Par) && (row == both || look.repeats(row)) {
            return true;
        }
        match look.parent(row) {
            Some(up) => row = up,
            None => break,
        }
    }
    false
}

/// What is told of a declaration behind all of its uses.
pub fn about(look: Look, decl: Decl, seen: Seen) -> Result<Option<Told>, Memory> {
    if decl.is_param || matches!(decl.sort, Sort::Counter { .. }) {
        return Ok(None);
    }
    let Some(first) = seen.first else {
        return Ok(Some(unused(look, decl)));
    };
    if is_array(decl) {
        return Ok(None);
    }
    Ok(match (decl.sort, seen.input, seen.output) {
        (Sort::Chan(_, _), Some(found), None) | (Sort::Chan(_, _), None, Some(found)) => {
            Some(one_end(look, decl, found)?)
        }
        (Sort::Chan(_, _), Some(input), Some(output)) if !seen.apart => {
            Some(self_end(look, decl, input, output))
        }
        (Sort::Var(bits), _, _) if matches!(first.does, Does::Reads) => {
            Some(read_first(look, decl, first, bits))
        }
        _ => None,
    })
}

/// The name of a declaration.
fn name_of<'a>(look: Look<'a>, decl: Decl) -> P<'a> {
    P::B(look.src.text_of(decl.row, decl.tok))
}

/// The place of a declaration's name.
fn place_of(look: Look, decl: Decl) -> Span {
    look.tok(decl.row, decl.tok)
}

/// A warning at a place; its name is words and pieces.
fn named(look: Look, place: Span, words: &str, pieces: &[P]) -> Told {
    let mut told = warning(Told::new(look.alloc, place, b""));
    told.fault.say(words, pieces);
    told
}

/// A declaration that isn't used.
fn unused(look: Look, decl: Decl) -> Told {
    let name = name_of(look, decl);
    let mut told = named(look, place_of(look, decl), "Unused %", &[name]);
    told.say("% is never used", &[name]);
    told.here("declared here", &[]);
    told.hint("take the declaration away", &[]);
    if let Sort::Var(bits) = decl.sort {
        let all = usize::from(bits.max(1)).saturating_mul(decl.count.max(1));
        told.hint(
            ": it is % of the 24 bits that may be in scope",
            &[P::N(all)],
        );
    }
    told
}

/// The nearest PAR around a row, and the place of the part in it that has the row.
fn part_of(look: Look, row: usize) -> Result<Option<(usize, usize)>, Memory> {
    let mut at = row;
    for _ in 0..MOST_AROUND {
        let Some(up) = look.parent(at) else {
            return Ok(None);
        };
        if matches!(look.form(up), Form::Par) {
            let all = parts(look, up)?;
            let before = all.iter().take_while(|part| part.last < row).count();
            return Ok(Some((up, before)));
        }
        at = up;
    }
    Ok(None)
}

/// A declared channel of which one end isn't used.
fn one_end(look: Look, decl: Decl, found: Use) -> Result<Told, Memory> {
    let name = name_of(look, decl);
    let (mark, said, does, own) = if matches!(found.does, Does::OutputsOn) {
        ("?", "nothing inputs from ", " input from ", "output")
    } else {
        ("!", "nothing outputs on ", " output on ", "input")
    };
    let part = part_of(look, found.row)?;
    let place = place_of(look, decl);
    let mut told = named(look, place, "OneEnd % %", &[name, P::T(mark)]);
    told.say("%%", &[P::T(said), name]);
    told.here("% is declared here", &[name]);
    let guard = look.src.find(found.row, 0, "&").is_some()
        || look.last_below(found.row) > found.row;
    let mut who = Put::new(look.alloc);
    match part {
        _ if guard => who.say("this guard is never ready", &[]),
        Some((_, k)) => who.say("P% waits here for ever", &[P::N(k.saturating_add(1))]),
        None => who.say("the program waits here for ever", &[]),
    }
    told.mark(look.all(found.row), "%", &[P::W(&who)]);
    match part {
        Some((par, _)) => {
            let line = P::N(par.saturating_add(1));
            told.hint(
                "let another part of the PAR on line %%%",
                &[line, P::T(does), name],
            );
        }
        None => told.hint("let another part of a PAR%%", &[P::T(does), name]),
    }
    told.hint(", or take the % away", &[P::T(own)]);
    Ok(told)
}

/// A declared channel whose both ends stand in one part.
fn self_end(look: Look, decl: Decl, input: Use, output: Use) -> Told {
    let name = name_of(look, decl);
    let one = input.row.min(output.row);
    let two = input.row.max(output.row);
    let mut told = named(look, look.all(one), "SelfEnd %", &[name]);
    told.say("both ends of % stand in one part", &[name]);
    told.here("the program waits here for ever", &[]);
    told.mark(look.all(two), "the other end is behind it", &[]);
    told.hint(
        "a communication takes two parts that run at once: PAR in place of SEQ",
        &[],
    );
    told
}

/// The process that a declaration governs.
fn governed(look: Look, decl: Decl) -> usize {
    let mut row = decl.row;
    for r in decl.row.saturating_add(1)..look.src.rows() {
        if !look.src.is_blank(r) {
            row = r;
            if !matches!(look.form(r), Form::Declare) {
                break;
            }
        }
    }
    row
}

/// The row in front of which a variable would be set: that of the part of the governed SEQ that reads it.
fn set_before(look: Look, decl: Decl, read: usize) -> usize {
    let process = governed(look, decl);
    if !matches!(look.form(process), Form::Seq) || look.repeats(process) {
        return process;
    }
    let mut row = read;
    for _ in 0..MOST_AROUND {
        match look.parent(row) {
            Some(up) if up == process => return row,
            Some(up) => row = up,
            None => break,
        }
    }
    process
}

/// The replicator around a read below the row in front of which the variable would be set.
fn repeated(look: Look, row: usize, outer: usize) -> Option<usize> {
    let mut at = row;
    let mut found = None;
    for _ in 0..MOST_AROUND {
        if look.repeats(at) {
            found = Some(at);
        }
        if at == outer {
            break;
        }
        at = look.parent(at)?;
    }
    found
}

/// A variable that is read before it is set.
fn read_first(look: Look, decl: Decl, read: Use, bits: u8) -> Told {
    let name = name_of(look, decl);
    let mut told = named(
        look,
        look.tok(read.row, read.tok),
        "ReadBeforeSet %",
        &[name],
    );
    told.say("% is read before it is set", &[name]);
    let width = P::T(width_word(bits));
    told.mark(place_of(look, decl), "begins with any value of %", &[width]);
    let outer = set_before(look, decl, read.row);
    match repeated(look, read.row, outer) {
        Some(row) => {
            let counter = P::B(look.src.text_of(row, 1));
            let base = P::B(look.src.text_of(row, 3));
            told.here("read here first, where % = %", &[counter, base]);
        }
        None => told.here("read here first", &[]),
    }
    let value = P::T(if bits == 0 { "FALSE" } else { "0" });
    let line = P::N(outer.saturating_add(1));
    told.hint("write % := % in front of line %", &[name, value, line]);
    told
}
