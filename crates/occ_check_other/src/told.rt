//! What is told of a refusal of another text than a program.

use crate::lines::wanted_line;
use occ_check_find::{
    Fault, Limit, Look, Memory, Piece as P, Refused, Source, TextKind, Told, errors, words_fault,
};

/// What is told of a text that is refused, where a text of that kind is wanted. Programs inside scripts are explained as
/// programs.
pub(crate) fn other_error(
    look: Look,
    text: &[u8],
    wanted: TextKind,
    refused: Refused,
) -> Result<Vec<Told>, Memory> {
    let kind = TextKind::of(look.src);
    let first = look.first().unwrap_or(0);
    let mut all = Vec::new(look.alloc);
    if refused.row == 0 && matches!(refused.fault, Fault::Over(Limit::Bytes)) {
        all.push(too_long(look, wanted, refused))?;
        return Ok(all);
    }
    if kind != wanted && refused.row <= first {
        all.push(of_another_kind(look, first, (kind, wanted), refused))?;
        return Ok(all);
    }
    if matches!(wanted, TextKind::Script) {
        if let Some((from, to)) = program_around(look, refused.row) {
            let part = Source::read_part(look.alloc, text, from, to)?;
            let inner = Look {
                alloc: look.alloc,
                src: &part,
            };
            return errors(inner, refused);
        }
    }
    let formless = matches!(refused.fault, Fault::Form) && look.src.level(refused.row) > 0;
    let told = if formless {
        words_fault(look, refused.row)
    } else {
        None
    };
    all.push(match told {
        Some(told) => told,
        None => of_line(look, wanted, refused),
    })?;
    Ok(all)
}

/// The rows of the program of a script in which a row stands.
fn program_around(look: Look, row: usize) -> Option<(usize, usize)> {
    let mut from = None;
    let mut to = look.src.rows();
    for r in 0..look.src.rows() {
        if look.src.level(r) > 0 || look.src.is_blank(r) {
            continue;
        }
        let opens = matches!(look.src.text_of(r, 0), b"FROM" | b"TO") && look.src.count(r) == 1;
        let ends = opens || look.src.is(r, 0, "STEP");
        if r > row && ends {
            to = r;
            break;
        }
        if ends {
            from = if opens && r < row {
                Some(r.saturating_add(1))
            } else {
                None
            };
        }
    }
    from.map(|found| (found, to))
}

/// A file that is too long.
fn too_long(look: Look, kind: TextKind, refused: Refused) -> Told {
    let most = match kind {
        TextKind::Normal => 67_108_864,
        TextKind::Script | TextKind::Orders => 4_194_304,
        _ => 65_536,
    };
    let mut told = Told::new(look.alloc, look.tok(0, 0), refused.words);
    told.say("the file is too long", &[]);
    told.here("expected at most % bytes", &[P::N(most)]);
    told
}

/// A file of another kind than the one that is wanted.
fn of_another_kind(look: Look, row: usize, kinds: (TextKind, TextKind), refused: Refused) -> Told {
    let (kind, wanted) = kinds;
    let mut told = Told::new(look.alloc, look.all(row), refused.words);
    if matches!(kind, TextKind::Unknown) {
        told.say("this isn't %", &[P::T(wanted.word())]);
        told.here("expected %", &[P::T(wanted_line(look, wanted, 0))]);
        return told;
    }
    let (found, asked) = (P::T(kind.word()), P::T(wanted.word()));
    told.say("this is %, and not %", &[found, asked]);
    let (begins, begun) = (P::T(wanted.begins()), P::T(kind.begins()));
    told.here("expected %, found %", &[begins, begun]);
    told.hint("it is for the command %", &[P::T(kind.taken_by())]);
    told
}

/// A line of a format.
fn of_line(look: Look, kind: TextKind, refused: Refused) -> Told {
    let mut told = Told::new(look.alloc, look.all(refused.row), refused.words);
    match refused.words {
        b"Version" => {
            told.say("this text is of version 1", &[]);
            told.here("expected %", &[P::T(kind.begins())]);
            told.hint(
                "make it again, or write its paths and laws by version 2 (docs/FORMATS.md)",
                &[],
            );
        }
        b"Order" => {
            told.say("this line isn't in order", &[]);
            told.here("expected a line behind the one before it", &[]);
            told.hint(
                "states go by their values from the left, events by the order of the parameters and then by value",
                &[],
            );
        }
        b"NotLeast" => {
            told.say("this set isn't a least one", &[]);
            told.here(
                "expected a set within the row's offers that contains no other set of the row",
                &[],
            );
        }
        _ => plain_line(look, kind, refused.row, &mut told),
    }
    told
}

fn plain_line(look: Look, kind: TextKind, row: usize, told: &mut Told) {
    let wanted = wanted_line(look, kind, row);
    told.here("expected %", &[P::T(wanted)]);
    let first = look.src.text_of(row, 0);
    if first.is_empty() || !wanted.as_bytes().starts_with(first) {
        return told.say("another line is wanted here", &[]);
    }
    told.say("this line isn't as its first word asks", &[]);
    let hint = match first {
        b"REFUSES" | b"ACCEPT" => {
            "a set has its events in the order of the program's parameters, and then by value, each once"
        }
        b"STATE" | b"ENDS" | b"END" => {
            "a state has a value for each parameter variable, in order: FALSE is 0, TRUE is 1"
        }
        b"TRACE" => "an event is a channel parameter, its mark and a value of its type, as in?0",
        _ => "",
    };
    told.hint(hint, &[]);
}
