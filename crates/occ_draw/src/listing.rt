//! Scripts as lists of their steps.

ghost use Rattle.std.specs.List.{All};
ghost use Rattle.std.specs.Prelude.{◌≡◌, ◌<◌, length, IfOk};
ghost use Rattle.occ_draw.specs.Answers.{told_list, TellsScript};
ghost use Rattle.occ_draw.specs.Replies.{told_by};
ghost use Rattle.occ_draw.specs.Steps.{list_of};
ghost use Rattle.occ_draw.specs.Stopping.{HasLaw};
ghost use Rattle.occ_tool_run.specs.occ_script.Shown.{shown};

use crate::refusal::{refuse_script, refuse_step};
use crate::{Untold, list};
use occ_syntax::{Memory, Names};
use occ_tool_run::{Reply, Script, script_read as read};
use std::alloc::Global;

/// The list of a script's steps, or the line that refuses the text.
pub(crate) fn steps(alloc: Global, text: &[u8]) -> Result<Reply, Memory>
    ensures { IfOk result (λ reply. TellsScript text.now (told_by reply)) }
{
    let mut names = Names::new(alloc);
    match read(alloc, &mut names, text) {
        Ok(script) => list_steps(alloc, &script),
        Err(fault) => refuse_script(alloc, fault),
    }
}

/// The list of the steps, or the line that refuses the first that can't be told.
fn list_steps(alloc: Global, script: &Script) -> Result<Reply, Memory>
    requires laws { All HasLaw script.now.steps }
    requires few { length script.now.steps < 4294967295 }
    ensures { IfOk result (λ reply. told_by reply ≡ told_list (list_of (shown script.now))) }
{
    match list(alloc, script) {
        Ok(text) => Ok(Reply { status: 0, text }),
        Err(Untold::Lacking { step, lack }) => refuse_step(alloc, step, lack),
        Err(Untold::Memory) => Err(Memory),
    }
}
