//! Answers, their statuses and their texts.

ghost use Rattle.std.specs.Prelude.{◌≡◌, ◌++◌, codes, IfOk, OnOk};
ghost use Rattle.occ_tool_words.specs.Words.{shape_text};
ghost use Rattle.occ_tool_run.specs.Texts.{told, status_of, text_of, figure_text, counts_text, refined_text, FoundIsNamed, RefinementIsNamed, IsPrintable};

use crate::reason::{Reason, order_refusal, path_refusal};
use crate::refusal::{
    claim_refusal, refusal, script_refusal, table_refusal, too_long, usage_refusal,
};
use crate::rejection::rejection;
use itoa::Buffer;
use occ_read_renamed::Counts;
use occ_replay::{Rejected, ScriptFault};
use occ_run_schedule::{
    Behaviour, Followed, Refined, Side, TableFault, UsageFault, Verdict, behaviour_text,
    followed_text, verdict_text,
};
use occ_syntax::{Memory, Names};
use occ_tool_words::{ParseFault, Shape};
use std::alloc::Global;

/// What a command line is answered with, where all files could be read and memory was found.
#[derive(Drop)]
pub enum Answer {
    /// The words don't fit.
    Usage,
    /// The text of a program is refused, the first that is. The fault isn't `Memory`.
    Refused(Side, ParseFault),
    /// A text reads as a program in which the parts of a PAR share what they may not, the first text that is refused.
    /// The PAR stands on the line. The names are those of the texts so far, and the fault isn't `Memory`.
    Unusable {
        names: Names,
        place: Side,
        line: u32,
        fault: UsageFault,
    },
    /// A text that is no program has more bytes than a text of its kind may have.
    TooLong(Side),
    /// The first text isn't a normal one. The fault isn't `Memory`.
    RefusedTable(TableFault),
    /// The second text is no behaviour of the program's interface, by this line.
    RefusedClaim(u32),
    /// Both programs are accepted, and their interfaces differ.
    InterfacesDiffer,
    /// Both programs are accepted and have one interface. The names are those of both.
    Compared(Names, Verdict),
    /// The normal text of the program, or the script of what laws made of it.
    Written(Vec<u8>),
    /// The text is a normal one, with so many rows.
    Counted(u64),
    /// Whether the behaviour is one of the program's.
    Member(bool),
    /// The figures of the normal text of a generated program.
    Stressed {
        shape: Shape,
        stages: u64,
        counts: Counts,
    },
    /// Whether the second program does no more than the first allows. The names are those of both.
    Allowed(Names, Refined),
    /// Where the program can be stuck, if it can.
    Sought(Names, Option<Behaviour>),
    /// The first text isn't a script. The fault is never out of memory.
    RefusedScript(ScriptFault),
    /// The steps of a script, so many, join its two programs.
    Joined(u32),
    /// A script doesn't join its two programs. Where the first one breaks the usage rule, the PAR stands on the line. The cause is
    /// never out of memory.
    Unjoined {
        names: Names,
        line: u32,
        cause: Rejected,
    },
    /// The second text isn't a schedule.
    RefusedSchedule(u32),
    /// Where the steps of a schedule lead.
    Stepped(Names, Followed),
    /// The second text isn't orders. The fault is never out of memory.
    RefusedOrders(ScriptFault),
    /// The order of that number, from 1, can't be followed.
    RefusedOrder {
        order: u32,
        reason: Reason,
    },
    /// The part at a path can't be expanded.
    RefusedPath(Reason),
    /// The normal program of the program has more than 4,096 controls.
    Long,
}

/// The status of an answer.
pub fn status(answer: &Answer) -> u8
    ensures { result ≡ status_of answer.now }
{
    match answer {
        Answer::Usage => 2,
        Answer::Refused(..) | Answer::Unusable { .. } | Answer::TooLong(_) => 3,
        Answer::RefusedTable(_) | Answer::RefusedClaim(_) => 3,
        Answer::InterfacesDiffer => 7,
        Answer::Compared(_, verdict) => match verdict {
            Verdict::Same => 0,
            Verdict::Differ { .. } => 1,
        },
        Answer::Written(_) | Answer::Counted(_) | Answer::Stressed { .. } => 0,
        Answer::Member(is) => { if *is { 0 } else { 1 } }
        Answer::Allowed(_, refined) => match refined {
            Refined::Yes => 0,
            Refined::No(_) => 1,
        },
        Answer::Sought(_, found) => match found {
            None => 0,
            Some(_) => 1,
        },
        Answer::RefusedScript(_) => 3,
        Answer::Joined(_) => 0,
        Answer::Unjoined { .. } => 1,
        Answer::RefusedSchedule(_) => 3,
        Answer::Stepped(_, followed) => match followed {
            Followed::Stood(_) => 0,
            Followed::NoStep { .. } => 3,
        },
        Answer::RefusedOrders(_) | Answer::RefusedOrder { .. } => 3,
        Answer::RefusedPath(_) => 3,
        Answer::Long => 3,
    }
}

/// The whole text of an answer.
pub fn text(alloc: Global, answer: Answer) -> Result<Vec<u8>, Memory>
    requires { IsPrintable answer }
    ensures { IfOk result (λ text. text.items ≡ text_of answer) }
{
    match answer {
        Answer::Usage => Ok(Vec::from_slice(
            alloc,
            b"USAGE same A B, normalise A, normal T, belongs A T, transform A T, expand A PATH, replay T, stress KIND N, refine A B, deadlock A, run A T, derive A\n",
        )?),
        Answer::Refused(place, fault) => refusal(alloc, place, fault),
        Answer::Unusable {
            names,
            place,
            line,
            fault,
        } => usage_refusal(alloc, &names, place, line, fault),
        Answer::TooLong(place) => too_long(alloc, place),
        Answer::RefusedTable(fault) => table_refusal(alloc, fault),
        Answer::RefusedClaim(line) => claim_refusal(alloc, line),
        Answer::InterfacesDiffer => Ok(Vec::from_slice(alloc, b"INTERFACES DIFFER\n")?),
        Answer::Compared(names, verdict) => verdict_text(alloc, &names, &verdict),
        Answer::Written(text) => Ok(text),
        Answer::Counted(rows) => figure(alloc, b"NORMAL", rows),
        Answer::Member(is) => Ok(Vec::from_slice(alloc, member_words(is))?),
        Answer::Stressed {
            shape,
            stages,
            counts,
        } => stress_figures(alloc, shape, stages, counts),
        Answer::Allowed(names, refined) => refined_lines(alloc, &names, refined),
        Answer::Sought(names, found) => found_lines(alloc, &names, found),
        Answer::RefusedScript(fault) => script_refusal(alloc, Side::First, fault),
        Answer::Joined(steps) => figure(alloc, b"JOINED", u64::from(steps)),
        Answer::Unjoined { names, line, cause } => rejection(alloc, &names, line, cause),
        Answer::RefusedSchedule(line) => claim_refusal(alloc, line),
        Answer::Stepped(names, followed) => followed_text(alloc, &names, followed),
        Answer::RefusedOrders(fault) => script_refusal(alloc, Side::Second, fault),
        Answer::RefusedOrder { order, reason } => order_refusal(alloc, order, reason),
        Answer::RefusedPath(reason) => path_refusal(alloc, reason),
        Answer::Long => Ok(Vec::from_slice(alloc, b"REFUSED FIRST 1 Long\n")?),
    }
}

/// The lines about a program that may refine another.
fn refined_lines(alloc: Global, names: &Names, refined: Refined) -> Result<Vec<u8>, Memory>
    requires { RefinementIsNamed names.now refined }
    ensures { IfOk result (λ text. text.items ≡ refined_text names.now refined) }
{
    match refined {
        Refined::Yes => Ok(Vec::from_slice(alloc, b"REFINES\n")?),
        Refined::No(behaviour) => {
            let verdict = Verdict::Differ {
                behaviour,
                only: Side::Second,
            };
            verdict_text(alloc, names, &verdict)
        }
    }
}

/// The lines about a program that may be stuck.
fn found_lines(alloc: Global, names: &Names, found: Option<Behaviour>) -> Result<Vec<u8>, Memory>
    requires { FoundIsNamed names.now found }
    ensures { IfOk result (λ text. text.items ≡ (told (Answer.Sought names.now found)).1) }
{
    match found {
        None => Ok(Vec::from_slice(alloc, b"FREE\n")?),
        Some(behaviour) => {
            let mut text = Vec::from_slice(alloc, b"DEADLOCK\n")?;
            let lines = behaviour_text(alloc, names, &behaviour)?;
            text.extend_from_slice(lines.as_slice())?;
            Ok(text)
        }
    }
}

/// Adds a line with a figure.
fn push_figure(text: &mut Vec<u8>, word: &[u8], figure: u64) -> Result<(), Memory>
    ensures { OnOk result (text.new.items ≡ text.old.items ++ figure_text word.now figure) }
{
    let mut buffer = Buffer::new();
    text.extend_from_slice(word)?;
    text.extend_from_slice(b" ")?;
    text.extend_from_slice(buffer.format(figure).as_bytes())?;
    text.extend_from_slice(b"\n")?;
    Ok(())
}

/// A line with a figure.
fn figure(alloc: Global, word: &[u8], figure: u64) -> Result<Vec<u8>, Memory>
    ensures { IfOk result (λ text. text.items ≡ figure_text word.now figure) }
{
    let mut text = Vec::new(alloc);
    push_figure(&mut text, word, figure)?;
    Ok(text)
}

fn member_words(is: bool) -> &'static [u8]
    ensures { result.now ≡ (told (Answer.Member is)).1 }
{
    if is { b"YES\n" } else { b"NO\n" }
}

fn shape_word(shape: Shape) -> &'static [u8]
    ensures { result.now ≡ shape_text shape }
{
    match shape {
        Shape::Buffers => b"buffers",
        Shape::Adders => b"adders",
        Shape::Muxes => b"muxes",
    }
}

/// The lines about a generated program.
fn stress_figures(
    alloc: Global,
    shape: Shape,
    stages: u64,
    counts: Counts,
) -> Result<Vec<u8>, Memory>
    ensures { IfOk result (λ text. text.items ≡ codes "STRESS " ++ figure_text (shape_text shape) stages ++ counts_text counts) }
{
    let mut text = Vec::from_slice(alloc, b"STRESS ")?;
    push_figure(&mut text, shape_word(shape), stages)?;
    push_counts(&mut text, counts)?;
    Ok(text)
}

/// Adds the figures of a normal text, a line each.
fn push_counts(text: &mut Vec<u8>, counts: Counts) -> Result<(), Memory>
    ensures { OnOk result (text.new.items ≡ text.old.items ++ counts_text counts) }
{
    push_figure(text, b"ROWS", counts.rows)?;
    push_figure(text, b"OFFERS", counts.offers)?;
    push_figure(text, b"HEIGHT", counts.height)?;
    push_figure(text, b"STATES", counts.states)?;
    Ok(())
}
