//! Normal texts as pictures.

ghost use Rattle.std.specs.Prelude.{◌≡◌, ◌≤◌, [], length, IfOk};
ghost use Rattle.occ_tool_run.specs.occ_nform_table.Normal.{text_read};
ghost use Rattle.occ_draw.specs.Answers.{told};
ghost use Rattle.occ_draw.specs.Replies.{told_by};

use crate::dot_text;
use crate::refusal::refuse_table;
use occ_syntax::{Memory, Names};
use occ_tool_run::{Reply, a_normal_text_is_its_tables, read};
use std::alloc::Global;

/// The picture of a normal text, or the line that refuses it.
pub(crate) fn picture(alloc: Global, text: &[u8]) -> Result<Reply, Memory>
    requires { length text.now ≤ 67108864 }
    ensures { IfOk result (λ reply. told_by reply ≡ told (text_read [] text.now)) }
{
    a_normal_text_is_its_tables();
    let mut names = Names::new(alloc);
    match read(alloc, &mut names, text) {
        Ok(table) => Ok(Reply {
            status: 0,
            text: dot_text(alloc, &names, &table)?,
        }),
        Err(fault) => refuse_table(alloc, fault),
    }
}
