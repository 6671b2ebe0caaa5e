//! The sections of a script, and whether their lines are in order.

ghost use Rattle.std.specs.Prelude.{◌≡◌, ◌⊎◌, ◌<◌, [], length, IfErr, IfOk, OnOk};
ghost use Rattle.occ_script_lines.specs.occ_lex.Symbols.{Extends};
ghost use Rattle.occ_script.specs.declared.fault.ScriptFault.TheVariants as fault;
ghost use Rattle.occ_script.specs.Lines.{named_in};
ghost use Rattle.occ_script.specs.Refusals.{IsBadEnd, IsBadHead, IsBadProgram, IsBadTarget, IsNoDerivation, IsUnformed};
ghost use Rattle.occ_script.specs.Refusals.{next_line as line_of_next};
ghost use Rattle.occ_script.specs.Scripts.{IsDerivation, IsEnd, IsFormed, IsHead, IsInOrder};
ghost use Rattle.occ_script.specs.Scripts.{first_line as first_line_of, old_line as old_line_of};
ghost use Rattle.occ_script.specs.declared.content.Content.TheVariants as content;
ghost use Rattle.occ_script_lines.specs.Left.{left};
ghost use Rattle.occ_script_lines.specs.Sections.{section as seen};

use crate::content::Content;
use crate::fault::text_fault;
use crate::judging::{judged_lines, section_fault};
use crate::part::step;
use crate::script::{Formed, Framed};
use crate::{ScriptFault, Steps};
use occ_script_lines::{Format, Section, Sections, framed, is_blank, is_line, last_line};
use occ_syntax::Names;
use std::alloc::Global;

/// The number of the next keyword line, or else of the text's last line.
fn next_line(sections: &Sections, last: u32) -> u32
    ensures { result ≡ line_of_next (left sections.now) last }
{
    let mut rest = *sections;
    match rest.next() {
        Some(next) => next.number,
        None => last,
    }
}

/// The first line of a format.
fn first_line(format: Format) -> &'static [u8]
    ensures { result.now ≡ first_line_of format }
{
    match format {
        Format::Script => b"occam-script 2",
        Format::Orders => b"occam-orders 2",
    }
}

/// The first line of the version before.
fn old_line(format: Format) -> &'static [u8]
    ensures { result.now ≡ old_line_of format }
{
    match format {
        Format::Script => b"occam-script 1",
        Format::Orders => b"occam-orders 1",
    }
}

/// Whether the first section of a text is in order: its line names the format and version 2, and no line stands behind it.
pub(crate) fn check_head(
    alloc: Global,
    names: &mut Names,
    format: Format,
    head: &Section,
) -> Result<(), ScriptFault>
    ensures found { OnOk result (IsHead format names.old (seen head.now)) }
    ensures table { OnOk result (names.new ≡ named_in (seen head.now) names.old) }
    ensures refused { IfErr result (λ e. IsBadHead format names.old (seen head.now) e ⊎ (e ≡ fault.Memory)) }
    ensures extends { Extends names.old names.new }
{
    if is_line(old_line(format), head.row()) {
        return Err(ScriptFault::Version { line: 1 });
    }
    if !is_line(first_line(format), head.row()) {
        return Err(ScriptFault::Form { line: 1 });
    }
    let found = judged_lines(alloc, names, Content::Part, head)?;
    if let [first, ..] = found.judged.lines.as_slice() {
        let line = first.number;
        return Err(ScriptFault::Form { line });
    }
    match found.judged.stop {
        Some(fault) => Err(text_fault(fault)),
        None => Ok(()),
    }
}

/// The lines of a program behind FROM or TO, where they are in order. A section without lines has its fault on the line given.
fn program_lines(
    alloc: Global,
    names: &mut Names,
    content: Content,
    section: &Section,
    next: u32,
) -> Result<Framed, ScriptFault>
    ensures found { IfOk result (λ lines. IsInOrder content names.old (seen section.now) lines.text.items) }
    ensures table { OnOk result (names.new ≡ named_in (seen section.now) names.old) }
    ensures refused { IfErr result (λ e. IsBadProgram content names.old (seen section.now) next e ⊎ (e ≡ fault.Memory)) }
    ensures extends { Extends names.old names.new }
{
    if is_blank(section) {
        return Err(ScriptFault::Form { line: next });
    }
    if let Some(fault) = section_fault(alloc, names, content, section)? {
        return Err(text_fault(fault));
    }
    let text = framed(alloc, section)?;
    Ok(Framed { text })
}

/// The lines of the program behind TO, where they are in order and no section stands behind them.
fn target(
    alloc: Global,
    names: &mut Names,
    to: &Section,
    behind: Sections,
    last: u32,
) -> Result<Framed, ScriptFault>
    ensures found { IfOk result (λ lines. IsInOrder content.Last names.old (seen to.now) lines.text.items) }
    ensures alone { OnOk result (left behind.entry ≡ []) }
    ensures table { OnOk result (names.new ≡ named_in (seen to.now) names.old) }
    ensures refused { IfErr result (λ e. IsBadTarget last names.old (seen to.now) (left behind.entry) e ⊎ (e ≡ fault.Memory)) }
    ensures extends { Extends names.old names.new }
{
    let next = next_line(&behind, last);
    let lines = program_lines(alloc, names, Content::Last, to, next)?;
    let mut behind = behind;
    match behind.next() {
        Some(more) => Err(ScriptFault::Form { line: more.number }),
        None => Ok(lines),
    }
}

/// The steps of sections, and the lines of the program behind TO.
fn end(
    alloc: Global,
    names: &mut Names,
    sections: Sections,
    last: u32,
) -> Result<(Steps, Framed), ScriptFault>
    ensures found { IfOk result (λ end. IsEnd names.old names.new (left sections.entry) end.0 end.1.text.items) }
    ensures refused { IfErr result (λ e. IsBadEnd last names.old (left sections.entry) e ⊎ (e ≡ fault.Memory)) }
    ensures extends { Extends names.old names.new }
{
    let mut sections = sections;
    let mut steps = Steps::new(alloc);
    while let Some(section) = sections.next() {
        if is_line(b"TO", section.row()) {
            let lines = target(alloc, names, &section, sections, last)?;
            return Ok((steps, lines));
        }
        steps.push(step(alloc, names, &section)?)?;
    }
    Err(ScriptFault::Form { line: last })
}

/// The lines of the program behind FROM, the steps, and the lines of the program behind TO.
fn derivation(
    alloc: Global,
    names: &mut Names,
    sections: Sections,
    last: u32,
) -> Result<Formed, ScriptFault>
    ensures found { IfOk result (λ f. IsDerivation names.old names.new (left sections.entry) f.from.text.items f.steps f.to.text.items) }
    ensures refused { IfErr result (λ e. IsNoDerivation last names.old (left sections.entry) e ⊎ (e ≡ fault.Memory)) }
    ensures extends { Extends names.old names.new }
{
    let mut sections = sections;
    let Some(source) = sections.next() else {
        return Err(ScriptFault::Form { line: last });
    };
    if !is_line(b"FROM", source.row()) {
        let line = source.number;
        return Err(ScriptFault::Form { line });
    }
    let next = next_line(&sections, last);
    let from = program_lines(alloc, names, Content::First, &source, next)?;
    let (steps, to) = end(alloc, names, sections, last)?;
    Ok(Formed { from, steps, to })
}

/// The lines of a script, where all are in order. Their names are in the table then.
pub(crate) fn formed(alloc: Global, names: &mut Names, text: &[u8]) -> Result<Formed, ScriptFault>
    requires { length text.now < 4294967295 }
    ensures found { IfOk result (λ f. IsFormed text.now names.old names.new f.from.text.items f.steps f.to.text.items) }
    ensures refused { IfErr result (λ e. IsUnformed text.now names.old e ⊎ (e ≡ fault.Memory)) }
    ensures extends { Extends names.old names.new }
{
    let mut sections = Sections::new(Format::Script, text);
    let Some(head) = sections.next() else {
        return Err(ScriptFault::Form { line: 1 });
    };
    check_head(alloc, names, Format::Script, &head)?;
    derivation(alloc, names, sections, last_line(text))
}
