//! The lines of sections, and how they are laid out.

ghost use Rattle.std.specs.Prelude.{◌≡◌, IfOk, MatchOption, OnOk};
ghost use Rattle.occ_script_lines.specs.occ_lex.Symbols.{Extends};
ghost use Rattle.occ_parse_part.specs.occ_parse_layout.Layout.{laid_rows};
ghost use Rattle.occ_script.specs.Contents.{frame_of};
ghost use Rattle.occ_script.specs.Lines.{AreLines, IsIll, IsIllLaid, IsWell, IsWellLaid, lacks_part as lacks, named_in};
ghost use Rattle.occ_script_lines.specs.Sections.{section as seen};

use crate::content::Content;
use occ_parse_part::{Judged, ParseFault, Placed, judge_rows, least_bad};
use occ_script_lines::{Line, Section, lex_rows as rows, lines};
use occ_syntax::{Memory, Names};
use std::alloc::Global;

/// The lines of a section, and what they say, up to the first that can't be read or is over a limit.
#[derive(Drop)]
pub(crate) struct JudgedLines {
    pub lines: Vec<Line>,
    pub judged: Judged,
}

/// Reads the lines of a section. Their names are in the table then.
pub(crate) fn judged_lines(
    alloc: Global,
    names: &mut Names,
    content: Content,
    section: &Section,
) -> Result<JudgedLines, Memory>
    ensures found { IfOk result (λ found. AreLines content names.old names.new (seen section.now) found) }
    ensures extends { Extends names.old names.new }
{
    let reading = lines(alloc, section)?;
    let rows = rows(alloc, names, section.upto, &reading.lines)?;
    let judged = judge_rows(alloc, content.bound(), &rows, reading.fault)?;
    Ok(JudgedLines {
        lines: reading.lines,
        judged,
    })
}

/// The first fault of lines, where they have one.
pub(crate) fn layout_fault(
    alloc: Global,
    content: Content,
    judged: &Judged,
) -> Result<Option<ParseFault>, Memory>
    ensures { IfOk result (λ fault. MatchOption fault
        (IsWellLaid (frame_of content) (laid_rows judged.now.lines.items) judged.now.stop)
        (IsIllLaid (frame_of content) (laid_rows judged.now.lines.items) judged.now.stop)) }
{
    let more = judged.stop.is_some();
    if let Some(line) = least_bad(alloc, &judged.lines, content.frame(), more)? {
        return Ok(Some(ParseFault::Form { line }));
    }
    Ok(judged.stop)
}

/// The first fault of the lines of a section, where they have one.
pub(crate) fn section_fault(
    alloc: Global,
    names: &mut Names,
    content: Content,
    section: &Section,
) -> Result<Option<ParseFault>, Memory>
    ensures found { IfOk result (λ fault. MatchOption fault
        (IsWell content names.old (seen section.now))
        (IsIll content names.old (seen section.now))) }
    ensures table { OnOk result (names.new ≡ named_in (seen section.now) names.old) }
    ensures extends { Extends names.old names.new }
{
    let found = judged_lines(alloc, names, content, section)?;
    layout_fault(alloc, content, &found.judged)
}

/// Whether no line stands at level 1 in front of the next one at level 0, and none can follow.
pub(crate) fn lacks_part(lines: &[Placed], stop: Option<ParseFault>) -> bool
    ensures { result ≡ lacks (laid_rows lines.now) stop }
{
    for line in lines {
        if line.level < 2 {
            return line.level == 0;
        }
    }
    stop.is_none()
}
