//! What refuses a text, or a step of a script.

ghost use Rattle.std.specs.Prelude.{◌≡◌, ◌≢◌, codes, IfOk};
ghost use Rattle.occ_tool_run.specs.occ_behaviour.declared.behaviour.Side.TheVariants as side;
ghost use Rattle.occ_draw.specs.Answers.{refused};
ghost use Rattle.occ_draw.specs.Refusals.{lack_text, step_refusal_text};
ghost use Rattle.occ_draw.specs.Replies.{told_by};
ghost use Rattle.occ_tool_run.specs.occ_nform_table.declared.table.TableFault.TheVariants as table;
ghost use Rattle.occ_tool_run.specs.occ_script.declared.fault.ScriptFault.TheVariants as script;
ghost use Rattle.occ_tool_run.specs.Texts.{refusal_text, script_refusal_text, table_refusal_text, ScriptFaultIsTold};

use crate::Lack;
use itoa::Buffer;
use occ_syntax::Memory;
use occ_tool_run::refusal::{script_refusal, table_refusal, too_long};
use occ_tool_run::{Reply, ScriptFault, Side, TableFault};
use std::alloc::Global;

/// Refuses a text of too many bytes.
pub(crate) fn refuse_length(alloc: Global) -> Result<Reply, Memory>
    ensures { IfOk result (λ reply. told_by reply ≡ refused (refusal_text side.First 1 (codes "Limit Bytes"))) }
{
    Ok(Reply {
        status: 3,
        text: too_long(alloc, Side::First)?,
    })
}

/// Refuses a text that isn't normal, or is out of memory where that is the fault.
pub(crate) fn refuse_table(alloc: Global, fault: TableFault) -> Result<Reply, Memory>
    ensures text { IfOk result (λ reply. told_by reply ≡ refused (table_refusal_text fault)) }
    ensures told { IfOk result (λ reply. fault ≢ table.Memory) }
{
    if fault == TableFault::Memory {
        return Err(Memory);
    }
    Ok(Reply {
        status: 3,
        text: table_refusal(alloc, fault)?,
    })
}

/// Refuses a text that isn't a script, or is out of memory where that is the fault.
pub(crate) fn refuse_script(alloc: Global, fault: ScriptFault) -> Result<Reply, Memory>
    requires { fault ≢ script.Memory → ScriptFaultIsTold fault }
    ensures text { IfOk result (λ reply. told_by reply ≡ refused (script_refusal_text side.First fault)) }
    ensures told { IfOk result (λ reply. fault ≢ script.Memory) }
{
    if fault == ScriptFault::Memory {
        return Err(Memory);
    }
    Ok(Reply {
        status: 3,
        text: script_refusal(alloc, Side::First, fault)?,
    })
}

fn lack_words(lack: Lack) -> &'static [u8]
    ensures { result.now ≡ lack_text lack }
{
    match lack {
        Lack::NoLaw => b"NoLaw",
        Lack::NoPath => b"NoPath",
        Lack::NotAccepted => b"NotAccepted",
    }
}

/// Refuses a step of a script that can't be told.
pub(crate) fn refuse_step(alloc: Global, step: u32, lack: Lack) -> Result<Reply, Memory>
    ensures { IfOk result (λ reply. told_by reply ≡ refused (step_refusal_text step lack)) }
{
    let mut buffer = Buffer::new();
    let mut text = Vec::from_slice(alloc, b"REFUSED STEP ")?;
    text.extend_from_slice(buffer.format(step).as_bytes())?;
    text.extend_from_slice(b" ")?;
    text.extend_from_slice(lack_words(lack))?;
    text.extend_from_slice(b"\n")?;
    Ok(Reply { status: 3, text })
}
