//! The answer to the command.

ghost use Rattle.std.specs.Prelude.{◌≡◌, ◌≤◌, ◌⊎◌, ℕ, List, Option, length, IfOk};
ghost use Rattle.occ_tool_run.specs.occ_call.Files.{IsLoaded, IsShort, most_table_bytes};
ghost use Rattle.occ_draw.specs.Answers.{is_script as is_script_text, Answers, Tells};
ghost use Rattle.occ_draw.specs.Replies.{told_by};

use crate::listing::steps;
use crate::normal::picture;
use crate::refusal::refuse_length;
use occ_syntax::Memory;
use occ_tool_run::{Loaded, Reply};
use std::alloc::Global;

/// The reply to a file: of a normal text the picture, as a text of the DOT language; of a text that begins with `occam-script` the steps
/// as a list. A list says what is changed where, and not that the laws hold: the command `replay` tells that.
///
/// | status | comes exactly where | text |
/// |---|---|---|
/// | 0 | the text is a normal one, or a script whose steps can be told | its picture, or its list |
/// | 3 | the text is none of these | the line that refuses it or a step of it |
pub fn draw(alloc: Global, text: &Loaded) -> Result<Reply, Memory>
    requires { IsShort most_table_bytes text.now }
    ensures answers { IfOk result (λ reply. (file : Option (List ℕ)) → IsLoaded most_table_bytes file text.now
        → Answers file reply.status reply.text.items) }
    ensures status { IfOk result (λ reply. (reply.status ≡ 0) ⊎ (reply.status ≡ 3)) }
{
    match text {
        Loaded::Bytes(bytes) => tell(alloc, bytes.as_slice()),
        Loaded::TooLong => refuse_length(alloc),
    }
}

/// Whether a text is taken for a script.
fn is_script(text: &[u8]) -> bool
    ensures { result ≡ is_script_text text.now }
{
    text.starts_with(b"occam-script")
}

/// The list of a script's steps, the picture of any other text, or the line that refuses it.
fn tell(alloc: Global, text: &[u8]) -> Result<Reply, Memory>
    requires { length text.now ≤ 67108864 }
    ensures { IfOk result (λ reply. Tells text.now (told_by reply)) }
{
    if is_script(text) {
        steps(alloc, text)
    } else {
        picture(alloc, text)
    }
}
