//! The answers to `why`: where a file is refused, what `check` says of it.

ghost use Rattle.std.specs.Prelude.{◌≡◌, ◌≢◌, ◌≤◌, ℕ, List, Option, IfOk};
ghost use Rattle.occ_witness.specs.occ_call.Files.{IsLoaded, IsShort, most_bytes};
ghost use Rattle.occ_witness.specs.occ_call.Ran.{IsOwnStatus};
ghost use Rattle.occ_why.specs.Answers.{Answers as AnswersWhy, AnswersApart, AreRefused, IsRefused};
ghost use Rattle.occ_workshop_run.specs.Explained.{IsChecked, OrChecked, OrOneChecked};

use occ_check::check;
use occ_draw::Memory;
use occ_why::{Given, why, why_apart};
use occ_witness::{Loaded, Reply};
use std::alloc::Global;

/// The reply to `why` and the file of a program.
pub(crate) fn explained(alloc: Global, name: &str, text: &Loaded) -> Result<Reply, Memory>
    requires { IsShort most_bytes text.now }
    ensures answers { IfOk result (λ reply. (file : Option (List ℕ)) → IsLoaded most_bytes file text.now
        → OrChecked (IsRefused file) (AnswersWhy file) name.now file reply.status reply.text.items) }
    ensures status { IfOk result (λ reply. reply.status ≤ 3) }
    ensures usage { IfOk result (λ reply. reply.status ≢ 2) }
{
    match why(alloc, Given { name, text })? {
        Some(reply) => Ok(reply),
        None => check(alloc, name, text),
    }
}

/// What `check` says of the first of two files where it refuses that, and else of the second.
fn one_checked(alloc: Global, first: Given, second: Given) -> Result<Reply, Memory>
    requires first { IsShort most_bytes first.text.now }
    requires second { IsShort most_bytes second.text.now }
    ensures answers { IfOk result (λ reply. (one two : Option (List ℕ)) → IsLoaded most_bytes one first.entry.text.now
        → IsLoaded most_bytes two second.entry.text.now
        → IsChecked (first.entry.name.now, one) (second.entry.name.now, two) reply.status reply.text.items) }
    ensures status { IfOk result (λ reply. reply.status ≤ 3) }
    ensures usage { IfOk result (λ reply. reply.status ≢ 2) }
{
    let reply = check(alloc, first.name, first.text)?;
    if reply.status == 3 {
        return Ok(reply);
    }
    check(alloc, second.name, second.text)
}

/// The reply to `why` and the files of two programs.
pub(crate) fn explained_apart(alloc: Global, first: Given, second: Given) -> Result<Reply, Memory>
    requires first { IsShort most_bytes first.text.now }
    requires second { IsShort most_bytes second.text.now }
    ensures answers { IfOk result (λ reply. (one two : Option (List ℕ)) → IsLoaded most_bytes one first.entry.text.now
        → IsLoaded most_bytes two second.entry.text.now
        → OrOneChecked (AreRefused one two) (AnswersApart one two) (first.entry.name.now, one) (second.entry.name.now, two) reply.status
        reply.text.items) }
    ensures status { IfOk result (λ reply. IsOwnStatus reply.status) }
    ensures usage { IfOk result (λ reply. reply.status ≢ 2) }
{
    match why_apart(alloc, first, second)? {
        Some(reply) => Ok(reply),
        None => one_checked(alloc, first, second),
    }
}
