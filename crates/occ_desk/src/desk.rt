ghost use Rattle.std.specs.Prelude.{◌≡◌, ℕ, ◌<◌, ◌≤◌, length, take, List, [], Option, OnOk, OnErr, IfOk, IfSome};
ghost use Rattle.occ_desk.specs.declared.desk.ReadError.TheVariants.{Memory};
ghost use Rattle.occ_desk.specs.Desk.{with_more, asked_after, IsFileAnswer, CountsFailure, IsCutShort};

use std::alloc::AllocError;
use thiserror::Error;

/// Why a desk gave no file.
#[derive(Clone, Copy, Debug, PartialEq, Eq, Error)]
pub enum ReadError {
    /// The file isn't there, or can't be read. It comes only with a rise of the desk's count of read faults.
    #[error("the file can't be read")]
    Failed,
    /// The file has more bytes than were asked for.
    #[error("the file is too long")]
    TooLong,
    /// Want of memory.
    #[error("out of memory")]
    Memory,
}

impl From<AllocError> for ReadError {
    ghost from_gives = { λ _ e. e ≡ Memory };

    fn from(_cause: AllocError) -> ReadError {
        ReadError::Memory
    }
}

/// A desk didn't take any byte of a write. It comes only with a rise of the desk's count of write faults.
#[derive(Clone, Copy, Debug, PartialEq, Eq, Error)]
#[error("the output can't be written")]
pub struct WriteFailed;

/// Files to read and one output to write.
///
/// A desk may tell what it holds: its files as a map from names to bytes, the bytes written so far, and the
/// names that were asked for, in order. It counts the reads and the writes that failed, and these counts
/// never fall.
pub trait Desk {
    /// The files by name, where the desk tells them.
    ghost files: { Self → Option (List ℕ → Option (List ℕ)) };

    /// The bytes taken so far, where the desk tells them.
    ghost written: { Self → Option (List ℕ) };

    /// The names given to `read` so far, where the desk tells them.
    ghost asked: { Self → Option (List (List ℕ)) };

    /// How many reads failed.
    ghost read_faults: { Self → ℕ };

    /// How many writes failed.
    ghost write_faults: { Self → ℕ };

    /// Puts the bytes of the file of that name into `into`, in the place of what was there, where the file has
    /// at most `most` bytes.
    ///
    /// `Failed` is a fault, and comes too where the file isn't there; `TooLong` comes where the file was read and
    /// has more than `most` bytes; `Memory` comes where memory runs out. After each of them `into` is empty. All but `Memory`
    /// count as having asked for the name.
    fn read(&mut self, name: &str, most: u64, into: &mut Vec<u8>) -> Result<(), ReadError>
        requires reads_countable { read_faults self.old < u64.MAX }
        requires writes_countable { write_faults self.old < u64.MAX }

        ensures content { IfSome (files self.old)
            (λ files. IsFileAnswer (files name.now) most into.new.items result) }
        ensures most { OnOk result (length into.new.items ≤ most) }
        ensures refused { OnErr result (into.new.items ≡ []) }

        ensures asked { asked self.new ≡ asked_after (asked self.old) name.now result }
        ensures read_faults { CountsFailure (read_faults self.old) (read_faults self.new) result }

        ensures files { files self.new ≡ files self.old }
        ensures written { written self.new ≡ written self.old }
        ensures write_faults { write_faults self.new ≡ write_faults self.old };

    /// Takes a front of the bytes, at least one of them, and says how many it took.
    ///
    /// `WriteFailed` is a fault: nothing was taken.
    fn write(&mut self, bytes: &[u8]) -> Result<usize, WriteFailed>
        requires reads_countable { read_faults self.old < u64.MAX }
        requires writes_countable { write_faults self.old < u64.MAX }
        requires some { 0 < length bytes.now }

        ensures some { IfOk result (λ taken. 0 < taken) }
        ensures most { IfOk result (λ taken. taken ≤ length bytes.now) }
        ensures taken { IfOk result (λ taken.
            written self.new ≡ with_more (written self.old) (take taken bytes.now)) }
        ensures no_fault { OnOk result (write_faults self.new ≡ write_faults self.old) }

        ensures nothing { OnErr result (written self.new ≡ written self.old) }
        ensures fault { OnErr result (write_faults self.old < write_faults self.new) }

        ensures files { files self.new ≡ files self.old }
        ensures asked { asked self.new ≡ asked self.old }
        ensures read_faults { read_faults self.new ≡ read_faults self.old };
}

/// Writes all the bytes, piece by piece, or a front of them until a write fails.
///
/// Each write is given all that is left, so there are at most as many writes as bytes.
pub fn send<D: Desk>(desk: &mut D, bytes: &[u8]) -> Result<(), WriteFailed>
    requires reads_countable { D.read_faults desk.old < u64.MAX }
    requires writes_countable { D.write_faults desk.old < u64.MAX }

    ensures sent { OnOk result (D.written desk.new ≡ with_more (D.written desk.old) bytes.now) }
    ensures no_fault { OnOk result (D.write_faults desk.new ≡ D.write_faults desk.old) }

    ensures front { OnErr result (IsCutShort (D.written desk.old) (D.written desk.new) bytes.now) }
    ensures fault { OnErr result (D.write_faults desk.old < D.write_faults desk.new) }

    ensures files { D.files desk.new ≡ D.files desk.old }
    ensures asked { D.asked desk.new ≡ D.asked desk.old }
    ensures read_faults { D.read_faults desk.new ≡ D.read_faults desk.old }
{
    let mut sent = 0;
    while sent < bytes.len() {
        sent += desk.write(&bytes[sent..])?;
    }
    Ok(())
}
