//! The parts of steps.

ghost use Rattle.std.specs.Prelude.{◌≡◌, ◌⊎◌, codes, IfErr, IfOk};
ghost use Rattle.std.specs.List.{AllByRecursion};
ghost use Rattle.occ_script_lines.specs.occ_lex.Placed.{IsLineOf};
ghost use Rattle.occ_script_lines.specs.occ_lex.Symbols.{Extends, with_names_of_all};
ghost use Rattle.occ_parse_part.specs.Arrays.{array_names};
ghost use Rattle.occ_parse_part.specs.Elements.{elements_in, with_arrays};
ghost use Rattle.occ_parse_part.specs.Parts.{IsNoPart, IsPart};
ghost use Rattle.occ_parse_part.specs.Shown.{elements_of, lines_of};
ghost use Rattle.occ_parse_part.specs.occ_parse.declared.fault.ParseFault.{ParseFault as AnyFault};
ghost use Rattle.occ_parse_part.specs.occ_parse_rules.Forest.{lines_at};
ghost use Rattle.occ_script.specs.declared.fault.ScriptFault.TheVariants as fault;
ghost use Rattle.occ_script.specs.Refusals.{IsBadPart, IsBadStep};
ghost use Rattle.occ_script.specs.Steps.{HasPart, IsLaw, IsPartIn, IsStep};
ghost use Rattle.occ_script_lines.specs.Sections.{section as seen};

use crate::content::Content;
use crate::fault::text_fault;
use crate::judging::{judged_lines, lacks_part, layout_fault};
use crate::{ScriptFault, Step};
use occ_law::{LawId, find};
use occ_parse_part::{ParseFault, Raw, form, one_form};
use occ_script_lines::{Line, Section, step_line};
use occ_syntax::{Memory, Names};
use std::alloc::Global;

/// The part that lines without a fault are.
pub(crate) fn raw(
    alloc: Global,
    names: &mut Names,
    text: &[u8],
    lines: &[Line],
) -> Result<Raw, Memory>
    requires placed { AllByRecursion (IsLineOf text.now) lines.now }
    requires well { (e : AnyFault) → IsNoPart text.now names.old lines.now e → ⊥ }
    ensures found { IfOk result (λ part. IsPart text.now names.old lines.now (lines_of part)) }
    ensures table { IfOk result (λ part. names.new ≡
        with_arrays (with_names_of_all text.now names.old lines.now) (array_names (lines_at 1 (lines_of part)))) }
    ensures elements { IfOk result (λ part. elements_of part ≡ elements_in names.new (array_names (lines_at 1 (lines_of part)))) }
    ensures extends { Extends names.old names.new }
{
    match form(alloc, names, text, lines) {
        Ok(part) => Ok(part),
        Err(ParseFault::Memory) => Err(Memory),
        Err(_) => unreachable!(),
    }
}

/// The part that the lines of a section are, of which one begins at level 1.
pub(crate) fn part(alloc: Global, names: &mut Names, section: &Section) -> Result<Raw, ScriptFault>
    ensures there { IfOk result (λ part. HasPart names.old (seen section.now)) }
    ensures found { IfOk result (λ part. IsPartIn names.old names.new (seen section.now) part) }
    ensures refused { IfErr result (λ e. IsBadPart names.old (seen section.now) e ⊎ (e ≡ fault.Memory)) }
    ensures extends { Extends names.old names.new }
{
    let found = judged_lines(alloc, names, Content::Part, section)?;
    if lacks_part(&found.judged.lines, found.judged.stop) {
        let line = section.number;
        return Err(ScriptFault::Form { line });
    }
    if let Some(fault) = layout_fault(alloc, Content::Part, &found.judged)? {
        return Err(text_fault(fault));
    }
    // What a line says is one form, so these lines are a part.
    one_form();
    Ok(raw(alloc, names, section.upto, &found.lines)?)
}

/// The law of a name, where the table has one.
pub(crate) fn law(name: &[u8]) -> Option<LawId>
    ensures { IsLaw name.now result }
{
    find(name)
}

/// The step that a section is.
pub(crate) fn step(alloc: Global, names: &mut Names, section: &Section) -> Result<Step, ScriptFault>
    ensures found { IfOk result (λ step. IsStep names.old names.new (seen section.now) step) }
    ensures refused { IfErr result (λ e. IsBadStep names.old (seen section.now) e ⊎ (e ≡ fault.Memory)) }
    ensures extends { Extends names.old names.new }
{
    let Some(head) = step_line(alloc, b"STEP", section.row())? else {
        let line = section.number;
        return Err(ScriptFault::Form { line });
    };
    let part = part(alloc, names, section)?;
    Ok(Step {
        law: law(head.law),
        dir: head.dir,
        path: head.path,
        part,
    })
}
