//! Scripts as they are written.

ghost use Rattle.std.specs.Prelude.{◌≡◌, ◌≤◌, ◌++◌, IfOk, OnOk};
ghost use Rattle.std.specs.List.{AllByRecursion};
ghost use Rattle.occ_print.specs.Known.{ProgramIsKnown};
ghost use Rattle.occ_syntax.specs.View.{tree};
ghost use Rattle.occ_script_write.specs.Text.{IsWritable, script_text, step_text, step_words, steps_text};

use crate::line::{direction_word, push_line, push_path};
use occ_law::{LawId, name};
use occ_print::{print, print_part};
use occ_script_lines::{Direction, Path};
use occ_syntax::{Memory, Names, Proc, Program};
use std::alloc::Global;

/// A step that was taken: the law, the way in which it was used, the path of a part, and the part that came into its place.
#[derive(Debug, Drop)]
pub struct Done {
    pub law: LawId,
    pub dir: Direction,
    pub path: Path,
    pub part: Proc,
}

/// Adds what a step says on its line: its law, its direction and its path.
fn push_words(text: &mut Vec<u8>, done: &Done) -> Result<(), Memory>
    requires low { 1 ≤ done.now.law.0 }
    requires high { done.now.law.0 ≤ 63 }
    ensures { OnOk result (text.new.items ≡ text.old.items ++ step_words done.now) }
{
    text.extend_from_slice(b"STEP ")?;
    text.extend_from_slice(name(done.law).as_bytes())?;
    text.extend_from_slice(b" ")?;
    text.extend_from_slice(direction_word(done.dir))?;
    text.extend_from_slice(b" ")?;
    push_path(text, &done.path)
}

/// Adds a step: its line, and its part at level 1.
fn push_step(alloc: Global, text: &mut Vec<u8>, names: &Names, done: &Done) -> Result<(), Memory>
    requires { IsWritable names.now done.now }
    ensures { OnOk result (text.new.items ≡ text.old.items ++ step_text names.now done.now) }
{
    push_words(text, done)?;
    push_line(text, b"")?;
    let part = print_part(alloc, names, &done.part, 1)?;
    text.extend_from_slice(part.as_slice())?;
    Ok(())
}

fn push_steps(
    alloc: Global,
    text: &mut Vec<u8>,
    names: &Names,
    steps: &[Done],
) -> Result<(), Memory>
    requires { AllByRecursion (IsWritable names.now) steps.now }
    ensures { OnOk result (text.new.items ≡ text.old.items ++ steps_text names.now steps.now) }
{
    for done in steps {
        push_step(alloc, text, names, done)?;
    }
    Ok(())
}

/// The text of a script: the first line of the format, the program that it begins with, its steps, each with its part, and the program
/// that it comes to. Names are those of the table, and laws have numbers from 1 to 63; it is refused only where memory
/// runs out.
pub fn write(
    alloc: Global,
    names: &Names,
    from: &Program,
    steps: &[Done],
    to: &Program,
) -> Result<Vec<u8>, Memory>
    requires from { ProgramIsKnown names.now from.now.name.0 from.now.params (tree from.now.body) }
    requires steps { AllByRecursion (IsWritable names.now) steps.now }
    requires to { ProgramIsKnown names.now to.now.name.0 to.now.params (tree to.now.body) }
    ensures { IfOk result (λ text. text.items ≡ script_text names.now from.now steps.now to.now) }
{
    let mut text = Vec::new(alloc);
    push_line(&mut text, b"occam-script 2")?;
    push_line(&mut text, b"FROM")?;
    text.extend_from_slice(print(alloc, names, from)?.as_slice())?;
    push_steps(alloc, &mut text, names, steps)?;
    push_line(&mut text, b"TO")?;
    text.extend_from_slice(print(alloc, names, to)?.as_slice())?;
    Ok(text)
}
