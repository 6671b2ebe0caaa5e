//! A program with its places.

ghost use Rattle.std.specs.Prelude.{◌≡◌, ◌<◌, IfOk, IfSome, length, true};
ghost use Rattle.occ_run.specs.occ_behaviour.States.{is_state};
ghost use Rattle.occ_run.specs.occ_usage.Accepted.{IsTyped};

use crate::marking::{End, Marker};
use crate::source::Source;
use crate::walking::Layout;
use occ_parse::{Bound, Frame, ParseFault, grown, judge_rows, least_bad, parse};
use occ_parse_rules::{read, rows};
use occ_run::{Accepted, Point, UsageFault, check, keeps_scope, keeps_types, point_of};
use occ_syntax::{Memory, Name, Names, Program, State, controls, interface_bits, scope_bits};
use std::alloc::Global;

/// A marked copy of a program, and who uses which end of a channel.
#[derive(Drop)]
pub struct Marked {
    pub accepted: Accepted,
    pub ends: Vec<End>,
}

/// The marked copy of a program. None where it is over the limit of controls; it keeps all other rules that the program keeps.
fn marked_copy(
    alloc: Global,
    layout: &Layout,
    base: usize,
    program: &Program,
) -> Result<Option<Marked>, Memory>
    ensures { IfOk result (λ found. IfSome found (λ marked. marked.accepted.program.params ≡ program.now.params)) }
{
    let mut marker = Marker {
        alloc,
        layout,
        base,
        next: 0,
        ends: Vec::new(alloc),
    };
    let program = marker.program(program)?;
    let Marker { ends, .. } = marker;
    if !is_typed(alloc, &program)? {
        return Ok(None);
    }
    match check(alloc, program) {
        Ok(accepted) => Ok(Some(Marked { accepted, ends })),
        Err(UsageFault::Memory) => Err(Memory),
        Err(_) => Ok(None),
    }
}

/// Whether a program keeps what a check asks of it.
fn is_typed(alloc: Global, program: &Program) -> Result<bool, Memory>
    ensures { IfOk result (λ typed. typed ≡ true → IsTyped program.now) }
{
    let scope = keeps_scope(alloc, program.params.items())?;
    let types = keeps_types(alloc, &program.params, &program.body)?;
    Ok(
        scope
            && types
            && controls(&program.body) <= 4_096
            && program.params.items().len() <= 16
            && interface_bits(program) <= 16
            && scope_bits(program) <= 24,
    )
}

/// A program with the places of its text. Its steps are those of a marked copy, in which channels that nothing uses tell where each
/// part stands; they make no step.
#[derive(Drop)]
pub struct Places {
    pub(crate) alloc: Global,
    pub marked: Marked,
    pub(crate) base: usize,
    pub layout: Layout,
    pub source: Source,
    texts: Vec<Vec<u8>>,
}

impl Places {
    /// The places of an accepted program, by its text. None where the text isn't that program's.
    pub fn of(alloc: Global, text: &[u8], program: &Program) -> Result<Option<Places>, Memory>
        requires { length text.now < 4294967295 }
        ensures { IfOk result (λ found. IfSome found (λ places. places.marked.accepted.program.params ≡ program.now.params)) }
    {
        let mut names = Names::new(alloc);
        let Some(layout) = layout_of(alloc, &mut names, text)? else {
            return Ok(None);
        };
        let texts = texts_of(alloc, names)?;
        let base = texts.len();
        let Some(marked) = marked_copy(alloc, &layout, base, program)? else {
            return Ok(None);
        };
        Ok(Some(Places {
            alloc,
            marked,
            base,
            layout,
            source: Source::new(alloc, text)?,
            texts,
        }))
    }

    /// Where the program stands before its first step, in a state of its parameters. Its steps have the numbers of the program's.
    pub fn point(&self, state: &State) -> Result<Point<'_>, Memory>
        requires { is_state self.now.marked.accepted.program.params state.now ≡ true }
    {
        point_of(self.alloc, self.marked.accepted.program(), state)
    }

    /// The text of a name of the program.
    pub fn text(&self, name: Name) -> &[u8] {
        match self.texts.get(name.0) {
            Some(text) => text.as_slice(),
            None => b"?",
        }
    }

    /// Whether the outside has the other end of a channel.
    pub fn is_outside(&self, chan: Name) -> bool {
        for (name, _) in self.marked.accepted.program().params.items() {
            if *name == chan {
                return true;
            }
        }
        false
    }

    /// The allocator.
    pub fn alloc(&self) -> Global {
        self.alloc
    }

    /// The number of the process that a channel's name marks.
    pub(crate) fn marked_by(&self, name: Name) -> Option<usize> {
        name.0.checked_sub(self.base)
    }
}

/// The places of a text's lines, where they are laid out as a program is.
fn layout_of(alloc: Global, names: &mut Names, text: &[u8]) -> Result<Option<Layout>, Memory>
    requires { length text.now < 4294967295 }
{
    match parse(alloc, names, text, Bound::Program) {
        Ok(_) => {}
        Err(ParseFault::Memory) => return Err(Memory),
        Err(_) => return Ok(None),
    }
    let reading = read(alloc, text)?;
    let rows = rows(alloc, names, text, &reading.lines)?;
    let judged = judge_rows(alloc, Bound::Program, &rows, reading.fault)?;
    if let Some(_) = least_bad(alloc, &judged.lines, Frame::Program, false)? {
        return Ok(None);
    }
    let nodes = grown(alloc, judged.lines, 0)?;
    match nodes.items() {
        [header, ..] => {
            let (_, _, below) = header.seen();
            Ok(Some(Layout::of(alloc, below)?))
        }
        [] => Ok(None),
    }
}

/// The text of each name of a table, and one more that no program has.
fn texts_of(alloc: Global, names: Names) -> Result<Vec<Vec<u8>>, Memory> {
    let mut names = names;
    let last = names.intern(b"#")?;
    let mut texts = Vec::new(alloc);
    for number in 0..last.0 {
        texts.push(Vec::from_slice(alloc, names.text(Name(number)))?)?;
    }
    texts.push(Vec::from_slice(alloc, b"#")?)?;
    Ok(texts)
}
