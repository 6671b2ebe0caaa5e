//! The top call.

ghost use Rattle.std.specs.Prelude.{◌≡◌, ◌≢◌, ◌≤◌, ◌<◌, ◌↔◌, ◌⊎◌, map, string_bytes, IfOk, IfSome, None, Err};
ghost use Rattle.occ_witness.specs.occ_call.Files.{AsksFor, CountsStop};
ghost use Rattle.occ_witness.specs.occ_call.Ran.{Asked, IsOwnStatus};
ghost use Rattle.occ_workshop_run.specs.Answers.{Answers};
ghost use Rattle.occ_workshop_run.specs.Ran.{Ran};
ghost use Rattle.occ_workshop_run.specs.Words.{AskForTwoPrograms, file_words, job_of};

use crate::answering::{reply, wanted};
use crate::words::command_in;
use occ_witness::{Desk, Reply, Stop, load, send_reply};
use std::alloc::Global;

/// Runs a command: the words of a command line, the program's own name first, over a desk, to which the answer is written.
/// The result is the status of the process:
///
/// | status | comes exactly where | written |
/// |---|---|---|
/// | 0 | the command's answer has it: what was asked for, or that it is so | the answer |
/// | 1 | the command's answer has it: that it isn't so | the answer |
/// | 2 | the words don't fit | the line of usage |
/// | 3 | the command's answer has it: a text, a step or a path is refused, or what is asked for is too long | the answer |
/// | 4 | a read failed in this call | nothing |
/// | 5 | a write failed in this call | a front of the answer |
/// | 6 | out of memory, before the first write | nothing |
/// | 7 | the command's answer has it: two programs are compared, both are accepted, and their interfaces differ | the answer |
///
/// A failed read or write overrides every other status; out of memory overrides 0 to 3 and 7. Where the desk tells its files, `Ran` says
/// which answer the words and the files have, by the definitions of the command's own library (`AnswersJob`).
pub fn run<D: Desk>(alloc: Global, words: &[String], desk: &mut D) -> u8
    requires reads_countable { D.read_faults desk.old < u64.MAX }
    requires writes_countable { D.write_faults desk.old < u64.MAX }

    ensures answer { IfSome (D.files desk.old) (λ files.
        Ran files (map string_bytes words.now) result (D.written desk.old) (D.written desk.new)) }
    ensures asked { Asked (file_words (map string_bytes words.now)) result (D.asked desk.old) (D.asked desk.new) }
    ensures read_fault { (result ≡ 4) ↔ (D.read_faults desk.old < D.read_faults desk.new) }
    ensures write_fault { (result ≡ 5) ↔ (D.write_faults desk.old < D.write_faults desk.new) }

    ensures status { result ≤ 7 }
    ensures apart { result ≡ 7 → AskForTwoPrograms (job_of (map string_bytes words.now)) }
    ensures usage { result ≡ 2 → job_of (map string_bytes words.now) ≡ None }
    ensures unfit { job_of (map string_bytes words.now) ≡ None → (result ≡ 2) ⊎ ((result ≡ 5) ⊎ (result ≡ 6)) }
    ensures nothing { (result ≡ 4) ⊎ (result ≡ 6) → D.written desk.new ≡ D.written desk.old }
    ensures files { D.files desk.new ≡ D.files desk.old }
{
    let made = make_reply(alloc, words, desk);
    send_reply(desk, made)
}

/// The reply to a command line. It only reads.
fn make_reply<D: Desk>(alloc: Global, words: &[String], desk: &mut D) -> Result<Reply, Stop>
    requires reads_countable { D.read_faults desk.old < u64.MAX }
    requires writes_countable { D.write_faults desk.old < u64.MAX }
    ensures answers { IfOk result (λ reply. IfSome (D.files desk.old) (λ files.
        Answers files (map string_bytes words.now) reply.status reply.text.items)) }
    ensures status { IfOk result (λ reply. IsOwnStatus reply.status) }
    ensures apart { IfOk result (λ reply. reply.status ≡ 7 → AskForTwoPrograms (job_of (map string_bytes words.now))) }
    ensures usage { IfOk result (λ reply. reply.status ≡ 2 → job_of (map string_bytes words.now) ≡ None) }
    ensures unfit { job_of (map string_bytes words.now) ≡ None → IfOk result (λ reply. reply.status ≡ 2) }
    ensures readable { job_of (map string_bytes words.now) ≡ None → result ≢ Err Stop.Read }
    ensures asked { AsksFor (D.asked desk.old) (D.asked desk.new) (file_words (map string_bytes words.now)) result }
    ensures read_faults { CountsStop (D.read_faults desk.old) (D.read_faults desk.new) result }
    ensures files { D.files desk.new ≡ D.files desk.old }
    ensures written { D.written desk.new ≡ D.written desk.old }
    ensures write_faults { D.write_faults desk.new ≡ D.write_faults desk.old }
{
    let command = command_in(words);
    let contents = load(alloc, desk, &wanted(&command))?;
    Ok(reply(alloc, &command, &contents)?)
}
