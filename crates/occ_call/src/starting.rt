//! The words of the command line.

ghost use Rattle.std.specs.Prelude.{◌≡◌, IfErr};

use std::alloc::Global;
use std::env;
use std::rt::Env;

/// The status where the system answers an error in place of the words. No top call answers it.
const NO_WORDS: u8 = 8;

/// The words of the command line, the program's own name first; or the status of a process that gets none: where a word isn't UTF-8, and
/// where memory runs out for them.
pub fn command_words<R: Env>(runtime: &R, alloc: Global) -> Result<Vec<String>, u8>
    ensures { IfErr result (λ status. status ≡ 8) }
{
    match env::args(&(runtime, alloc)) {
        Ok(words) => match words.collect(alloc) {
            Ok(words) => Ok(words),
            Err(_) => Err(NO_WORDS),
        },
        Err(_) => Err(NO_WORDS),
    }
}
