//! The steps of a script, one after the other.

ghost use Rattle.std.specs.List.{All};
ghost use Rattle.std.specs.Prelude.{◌≡◌, ◌<◌, None, Ok, length, IfErr, IfOk, OnOk};
ghost use Rattle.occ_draw.specs.Steps.{list_of, new_whole, told};
ghost use Rattle.occ_draw.specs.Stopping.{Adds, HasLaw, IsLacking, IsUnresolved, IsUntold};
ghost use Rattle.occ_tool_run.specs.occ_parse_part.Resolving.{part_fault, part_process};
ghost use Rattle.occ_tool_run.specs.occ_parse_part.Shown.{part_of};
ghost use Rattle.occ_tool_run.specs.occ_script.Shown.{shown, shown_step};
ghost use Rattle.occ_syntax.specs.View.{tree};

use crate::line::push_step;
use crate::{Lack, Untold};
use occ_syntax::{Proc, Program, Scope};
use occ_tool_run::{ParseFault, Raw, Script, Step, at, replace, resolve, scope_at};
use std::alloc::Global;

/// The steps of a script as a list, a line each, in their order: the number of the step, its law, the way in which the law is used, the
/// path, the part that stands there when the steps before are taken, and the part that comes into its place. Refused is the first step
/// that lacks something, with the first that it lacks: a law of its name, a part at its path, or a new part without a fault of names,
/// types or directions in the scope there. Whether a law joins the two parts isn't looked at, nor whether the program keeps the rule of
/// usage or becomes the last one. The laws of the steps are of the table, as those of each script that was read.
pub fn list(alloc: Global, script: &Script) -> Result<Vec<u8>, Untold>
    requires laws { All HasLaw script.now.steps }
    requires few { length script.now.steps < 4294967295 }
    ensures told { IfOk result (λ text. list_of (shown script.now) ≡ Ok text.items) }
    ensures refused { IfErr result (IsUntold (list_of (shown script.now))) }
{
    let mut text = Vec::new(alloc);
    let mut program = script.from.program.copy(alloc)?;
    let mut number: u32 = 0;
    for step in script.steps.items() {
        number += 1;
        match tell(alloc, &mut text, number, program, step) {
            Ok(next) => program = next,
            Err(untold) => return Err(untold),
        }
    }
    Ok(text)
}

/// Adds the line of a step, and gives the program with its part put in.
fn tell(
    alloc: Global,
    text: &mut Vec<u8>,
    number: u32,
    program: Program,
    step: &Step,
) -> Result<Program, Untold>
    requires { HasLaw step.now }
    ensures line { OnOk result (Adds text.old.items text.new.items (told program.params (tree program.body) number (shown_step step.now))) }
    ensures params { IfOk result (λ next. next.params ≡ program.params) }
    ensures body { IfOk result (λ next. tree next.body ≡ new_whole program.params (tree program.body) (shown_step step.now)) }
    ensures refused { IfErr result (IsLacking number (told program.params (tree program.body) number (shown_step step.now))) }
{
    let Some(law) = step.law else {
        let lack = Lack::NoLaw;
        return Err(Untold::Lacking { step: number, lack });
    };
    let Some(old) = at(&program, &step.path) else {
        let lack = Lack::NoPath;
        return Err(Untold::Lacking { step: number, lack });
    };
    let scope = scope_at(alloc, &program, &step.path)?;
    let part = match resolved(alloc, number, &scope, &step.part) {
        Ok(part) => part,
        Err(untold) => return Err(untold),
    };
    push_step(text, (number, law), step, old, &part)?;
    let (next, _) = replace(alloc, program, &step.path, part)?;
    Ok(next)
}

/// The part of a step as a process of the scope there.
fn resolved(alloc: Global, number: u32, scope: &Scope, part: &Raw) -> Result<Proc, Untold>
    ensures faultless { IfOk result (λ process. part_fault (part_of part.now) scope.now ≡ None) }
    ensures found { IfOk result (λ process. tree process ≡ part_process (part_of part.now) scope.now) }
    ensures refused { IfErr result (IsUnresolved number (part_fault (part_of part.now) scope.now)) }
{
    match resolve(alloc, scope, part) {
        Ok(process) => Ok(process),
        Err(ParseFault::Memory) => Err(Untold::Memory),
        Err(_) => Err(Untold::Lacking {
            step: number,
            lack: Lack::NotAccepted,
        }),
    }
}
