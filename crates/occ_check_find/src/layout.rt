//! A row that stands where it may not, or lacks what it needs.

use crate::header::header_fault;
use crate::look::{Below, Form, Look};
use crate::syntax::words_fault;
use occ_check_text::{Piece as P, Span, Told};

/// What a program is, as a hint.
pub const PROGRAM: &str =
    "a program is PROC name (parameters), a process at level 1, and a line with : alone";

/// What is told of a row with the fault of form.
pub fn form_fault(look: Look, row: usize) -> Told {
    let Some(first) = look.first() else {
        let words = (
            "the text is empty",
            "expected PROC, found the end of the text",
            PROGRAM,
        );
        return look.whole(
            Span {
                row: 0,
                at: 0,
                len: 1,
            },
            "Form",
            words,
            &[],
        );
    };
    if row <= first {
        return header_fault(look, first);
    }
    let closed = (0..row).find(|r| look.src.level(*r) == 0 && matches!(look.form(*r), Form::Close));
    if let Some(close) = closed {
        return behind_close(look, first, close, row);
    }
    if let Some(told) = words_fault(look, row) {
        return told;
    }
    if let Some(told) = misplaced(look, row) {
        return told;
    }
    if matches!(look.form(row), Form::Declare) {
        return lonely_declaration(look, row);
    }
    lacking(look, row)
}

/// Text behind the closing line.
fn behind_close(look: Look, header: usize, close: usize, row: usize) -> Told {
    let text = P::B(look.src.text_of(row, 0));
    let (said, hint) = if look.src.is(row, 0, "PROC") {
        (
            "a second PROC",
            "a file holds one program, and nothing is called: write the body of % where it is used",
        )
    } else {
        (
            "text behind the closing :",
            "a file holds one program; begin a remark with --",
        )
    };
    let name = P::B(look.src.text_of(header, 1));
    let words = (said, "expected the end of the text, found %", hint);
    let mut told = look.whole(look.tok(row, 0), "Form", words, &[text, name]);
    told.mark(look.tok(close, 0), "the program ends here", &[]);
    told
}

/// How a row is named.
pub fn kind_word(form: Form) -> &'static str {
    match form {
        Form::Header => "PROC",
        Form::Close => ":",
        Form::Skip => "SKIP",
        Form::Stop => "STOP",
        Form::Seq => "SEQ",
        Form::Par => "PAR",
        Form::If => "IF",
        Form::Alt => "ALT",
        Form::Declare => "a declaration",
        Form::Assign => "an assignment",
        Form::Guard => "a guard",
        Form::Input => "an input",
        Form::Output => "an output",
        Form::Condition => "a condition",
        Form::Blank => "nothing",
    }
}

/// How what stands below a construct is named: many, and one.
fn part_words(form: Form) -> (&'static str, &'static str) {
    match form {
        Form::If => ("choices", "choice"),
        Form::Alt => ("guards", "guard"),
        Form::Seq | Form::Par => ("parts", "part"),
        _ => ("processes", "process"),
    }
}

fn is_process(form: Form) -> bool {
    !matches!(
        form,
        Form::Guard | Form::Condition | Form::Declare | Form::Header | Form::Close | Form::Blank
    )
}

/// What is told of a row that stands where it may not.
fn misplaced(look: Look, row: usize) -> Option<Told> {
    let before = look.before(row)?;
    let level = look.src.level(row);
    if level == 0 {
        return Some(outermost(look, row));
    }
    let above = look.src.level(before);
    if level > above.saturating_add(1) {
        return Some(too_deep(look, row, above.saturating_add(1)));
    }
    if level > above && matches!(look.below(before), Below::Nothing) {
        return Some(below_nothing(look, row, before));
    }
    let parent = look.parent(row)?;
    let place = look.below(parent);
    if matches!(place, Below::Slot | Below::Choice | Below::Branch) {
        if let Some(earlier) = earlier_part(look, row, parent) {
            return Some(part_too_many(look, row, parent, earlier));
        }
    }
    if fits(look, row, place) {
        return None;
    }
    Some(unfit(look, row, parent))
}

/// A row at level 0 in front of the closing line.
fn outermost(look: Look, row: usize) -> Told {
    let form = look.form(row);
    let words = if matches!(form, Form::Header) {
        (
            "a second PROC",
            "expected : at level 0, found %",
            "a file holds one program, and nothing is called: write what it does where it is used",
        )
    } else {
        (
            "this line stands at level 0",
            "expected : or a line at level 1 or more, found %",
            "write it with two spaces for each level in front",
        )
    };
    look.whole(look.all(row), "Form", words, &[P::T(kind_word(form))])
}

fn too_deep(look: Look, row: usize, most: usize) -> Told {
    let words = (
        "this line stands too deep",
        "expected level % or less, found level %",
        "each level is two spaces: write this line with % spaces",
    );
    let level = look.src.level(row);
    let wide = most.saturating_mul(2);
    look.whole(
        look.margin(row),
        "Form",
        words,
        &[P::N(most), P::N(level), P::N(wide)],
    )
}

fn below_nothing(look: Look, row: usize, before: usize) -> Told {
    let (level, above) = (look.src.level(row), look.src.level(before));
    let words = (
        "nothing can stand below %",
        "expected level % or less, found level %",
        "write this line with % spaces",
    );
    let kind = P::T(kind_word(look.form(before)));
    let pieces = [
        kind,
        P::N(above),
        P::N(level),
        P::N(above.saturating_mul(2)),
    ];
    let mut told = look.whole(look.margin(row), "Form", words, &pieces);
    told.mark(look.all(before), "this has no parts", &[]);
    if let Some(parent) = look.parent(before) {
        if matches!(look.below(parent), Below::Slots) {
            let word = P::T(kind_word(look.form(parent)));
            let line = P::N(parent.saturating_add(1));
            told.hint(", as the next part of the % on line %", &[word, line]);
        }
    }
    told
}

/// The nearest earlier part below a parent at the level of a row that is no declaration.
fn earlier_part(look: Look, row: usize, parent: usize) -> Option<usize> {
    let level = look.src.level(row);
    (parent.saturating_add(1)..row).rev().find(|r| {
        !look.src.is_blank(*r)
            && look.src.level(*r) == level
            && !matches!(look.form(*r), Form::Declare)
    })
}

/// A further part where there is room for one: it may be meant as one of the part before it.
fn part_too_many(look: Look, row: usize, parent: usize, earlier: usize) -> Told {
    let group = matches!(
        look.form(earlier),
        Form::Seq | Form::Par | Form::If | Form::Alt
    );
    let childless = group && look.last_below(earlier) == earlier;
    let next = look.after(earlier) == Some(row);
    if childless && next && fits(look, row, look.below(earlier)) {
        unindented(look, row, earlier)
    } else {
        second_part(look, row, parent, earlier)
    }
}

fn fits(look: Look, row: usize, place: Below) -> bool {
    let form = look.form(row);
    match place {
        Below::Nothing => false,
        Below::Slot | Below::Slots => is_process(form) || matches!(form, Form::Declare),
        Below::Choice | Below::Choices => matches!(form, Form::Condition | Form::If),
        Below::Branch | Below::Branches => {
            matches!(form, Form::Guard | Form::Input | Form::Output | Form::Alt)
        }
    }
}

/// The parts of a construct at its own level.
fn unindented(look: Look, row: usize, group: usize) -> Told {
    let form = look.form(group);
    let word = P::T(kind_word(form));
    let (many, one) = part_words(form);
    let level = look.src.level(row);
    let mut last = row;
    for r in row..look.src.rows() {
        if look.src.is_blank(r) {
            continue;
        }
        if look.src.level(r) < level {
            break;
        }
        last = r;
    }
    let words = (
        "this % has no % below it",
        "expected level % for a % of the %, found level %",
        "write lines % to % one level deeper",
    );
    let pieces = [
        word,
        P::T(many),
        P::N(level.saturating_add(1)),
        P::T(one),
        word,
        P::N(level),
        P::N(row.saturating_add(1)),
        P::N(last.saturating_add(1)),
    ];
    let mut told = look.whole(look.all(row), "Form", words, &pieces);
    told.mark(
        look.all(group),
        "this % ends here, without a %",
        &[word, P::T(one)],
    );
    told
}

/// A second part where there is room for one.
fn second_part(look: Look, row: usize, parent: usize, earlier: usize) -> Told {
    let form = look.form(parent);
    let line = P::N(parent.saturating_add(1));
    let most = P::N(look.src.level(row).saturating_sub(1));
    let place = look.all(row);
    if matches!(form, Form::Header) {
        let words = (
            "a second process in the body",
            "expected : at level 0, found a process",
            "put SEQ or PAR above both, and both one level deeper",
        );
        let mut told = look.whole(place, "Form", words, &[]);
        told.mark(look.all(earlier), "this is the whole body", &[]);
        return told;
    }
    if look.repeats(parent) {
        let words = (
            "a second part below a replicator",
            "expected a line of level % or less, found a second part",
            "put % below line %, and both parts one level deeper",
        );
        let word = if matches!(form, Form::Par) {
            "SEQ"
        } else {
            kind_word(form)
        };
        let mut told = look.whole(place, "Form", words, &[most, P::T(word), line]);
        told.mark(look.all(parent), "this has one part", &[]);
        return told;
    }
    let word = if matches!(form, Form::Condition) {
        "condition"
    } else {
        "guard"
    };
    let words = (
        "a second process below a %",
        "expected a line of level % or less, found a second process",
        "put SEQ below line %, and both one level deeper",
    );
    let mut told = look.whole(place, "Form", words, &[P::T(word), most, line]);
    told.mark(look.all(parent), "this % has one process", &[P::T(word)]);
    told
}

/// A row of another kind than its place has.
fn unfit(look: Look, row: usize, parent: usize) -> Told {
    let form = look.form(row);
    let found = if is_process(form) && !matches!(form, Form::Skip | Form::Stop) {
        "a process"
    } else {
        kind_word(form)
    };
    let line = P::N(parent.saturating_add(1));
    match look.below(parent) {
        Below::Branch | Below::Branches => no_guard(look, row, parent, found),
        Below::Choice | Below::Choices => {
            let hint = match form {
                Form::Declare => "declare it in front of the IF, above line %",
                _ if is_process(form) =>
                    "write TRUE in front of it, and the process one level deeper",
                _ => "",
            };
            let words = (
                "this is no condition",
                "expected a condition, found %",
                hint,
            );
            let mut told = look.whole(look.all(row), "Form", words, &[P::T(found), line]);
            told.mark(look.all(parent), "choices stand below it", &[]);
            told
        }
        _ => {
            let hint = match form {
                Form::Guard => "a guard stands below ALT",
                Form::Close => "take out the spaces in front of it",
                _ => "",
            };
            let words = ("this is no process", "expected a process, found %", hint);
            look.whole(look.all(row), "Form", words, &[P::T(found)])
        }
    }
}

fn no_guard(look: Look, row: usize, parent: usize, found: &str) -> Told {
    let form = look.form(row);
    let here = "expected an input, an output or a condition with &, found %";
    if matches!(form, Form::Skip) {
        let hint = "write TRUE & SKIP for a branch that may always be taken";
        let words = ("SKIP alone is no guard", here, hint);
        return look.whole(look.all(row), "Form", words, &[P::T(found)]);
    }
    let hint = match form {
        Form::Condition => "write & and SKIP, c ? x or c ! e behind the condition",
        Form::Declare => "declare it in front of the ALT, above line %",
        _ => "",
    };
    let pieces = [P::T(found), P::N(parent.saturating_add(1))];
    let mut told = look.whole(
        look.all(row),
        "Form",
        ("this is no guard", here, hint),
        &pieces,
    );
    told.mark(look.all(parent), "guards stand below it", &[]);
    told
}

/// What is told of a row that lacks what must stand below it.
fn lacking(look: Look, row: usize) -> Told {
    let form = look.form(row);
    let level = look.src.level(row);
    let wanted = level.saturating_add(1);
    let spaces = P::N(wanted.saturating_mul(2));
    let word = P::T(match form {
        Form::Condition => "this choice",
        Form::Guard | Form::Input | Form::Output => "this guard",
        _ => "this replicator",
    });
    let part = P::T(part_words(form).1);
    let place = look.all(row);
    let next = look.after(row).filter(|r| look.src.level(*r) == level && is_process(look.form(*r)));
    let Some(next) = next else {
        let words = (
            "% has no %",
            "expected a % below it at level %, found none",
            "write the % with % spaces below line %",
        );
        let line = P::N(row.saturating_add(1));
        return look.whole(
            place,
            "Form",
            words,
            &[word, part, part, P::N(wanted), part, spaces, line],
        );
    };
    let words = (
        "% has no %",
        "expected a % below it at level %, found level %",
        "indent line % by % spaces",
    );
    let line = P::N(next.saturating_add(1));
    let pieces = [word, part, part, P::N(wanted), P::N(level), line, spaces];
    let mut told = look.whole(place, "Form", words, &pieces);
    told.mark(look.all(next), "found here", &[]);
    if matches!(form, Form::Condition) {
        let text = look.src.between(row, 0, look.src.count(row));
        told.hint(" to make it what is done where %", &[P::B(text)]);
    }
    told
}

fn lonely_declaration(look: Look, row: usize) -> Told {
    let level = look.src.level(row);
    let said = "this declaration governs no process";
    let place = look.all(row);
    let deeper = look.after(row).filter(|r| look.src.level(*r) > level);
    let Some(deeper) = deeper else {
        let words = (
            said,
            "expected a process behind it at level %, found none",
            "put it in front of the process that uses it, or take it away",
        );
        return look.whole(place, "Form", words, &[P::N(level)]);
    };
    let words = (
        said,
        "expected a process behind it at level %, found level %",
        "what it governs stands at its own level: write line % with % spaces",
    );
    let pieces = [
        P::N(level),
        P::N(look.src.level(deeper)),
        P::N(deeper.saturating_add(1)),
        P::N(level.saturating_mul(2)),
    ];
    let mut told = look.whole(place, "Form", words, &pieces);
    told.mark(look.all(deeper), "found here", &[]);
    told
}
