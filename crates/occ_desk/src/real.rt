ghost use Rattle.std.specs.Prelude.{◌≡◌, ℕ, ◌+◌, ◌<◌, ◌≤◌, None, Err, IfOk, OnOk, vec_len};
ghost use Rattle.occ_desk.specs.Desk.{CountsFailure};

use crate::{Desk, ReadError, WriteFailed};
use std::fs::File;
use std::io::Read;
use std::marker::Model;
use std::rt::Files;

/// How many bytes one read asks for at most.
const PIECE: u64 = 65_536;

/// The desk of a running program: the files of the system, and its standard output.
///
/// It tells neither the files nor what was written, and counts the calls that failed. Each error of the system
/// is a fault, and is answered at once.
#[derive(Drop)]
pub struct RealDesk<R> {
    runtime: R,
    read_faults: u64,
    write_faults: u64,
}

impl<R> Model for RealDesk<R> {
    ghost use Rattle.occ_desk.specs.RealDesk.{Faults};

    ghost Value = { Faults };

    ghost view = { λ desk. record { reads = desk.read_faults; writes = desk.write_faults } };
}

impl<R> RealDesk<R> {
    /// A desk over this runtime, without a fault. It takes no memory.
    pub fn new(runtime: R) -> RealDesk<R>
        ensures { result ≡ record { reads = 0; writes = 0 } }
    {
        RealDesk {
            runtime,
            read_faults: 0,
            write_faults: 0,
        }
    }

    /// Counts a read that failed.
    fn count(&mut self, cause: ReadError)
        requires { self.old.reads < u64.MAX }
        ensures reads { CountsFailure {T = ℕ} self.old.reads self.new.reads (Err cause) }
        ensures writes { self.new.writes ≡ self.old.writes }
    {
        if let ReadError::Failed = cause {
            self.read_faults += 1;
        }
    }
}

/// Reads the file of that name to its end, but at most one byte more than `most`.
fn read_file<R: Files>(
    runtime: &R,
    name: &str,
    most: u64,
    into: &mut Vec<u8>,
) -> Result<(), ReadError>
    requires { vec_len into.old ≡ 0 }
    ensures { OnOk result (vec_len into.new ≤ most) }
{
    let Ok(mut file) = File::open(runtime, name) else {
        return Err(ReadError::Failed);
    };
    while into.len() as u64 <= most {
        if read_piece(&mut file, most - into.len() as u64, into)? == 0 {
            return Ok(());
        }
    }
    Err(ReadError::TooLong)
}

/// Reads a piece of the file to the end of `into`, at most one byte more than `left`. It answers how many
/// bytes came, 0 at the end of the file.
fn read_piece<F: Read>(file: &mut F, left: u64, into: &mut Vec<u8>) -> Result<usize, ReadError>
    ensures len { IfOk result (λ came. vec_len into.new ≡ vec_len into.old + came) }
    ensures most { IfOk result (λ came. came ≤ left + 1) }
{
    let start = into.len();
    let room = left.min(PIECE - 1) as usize + 1;
    into.resize(start + room, 0)?;
    let Ok(came) = file.read(&mut into[start..]) else {
        return Err(ReadError::Failed);
    };
    into.truncate(start + came);
    Ok(came)
}

impl<R: Files + Print> Desk for RealDesk<R> {
    ghost files = { λ _. None };

    ghost written = { λ _. None };

    ghost asked = { λ _. None };

    ghost read_faults = { λ desk. desk.reads };

    ghost write_faults = { λ desk. desk.writes };

    fn read(&mut self, name: &str, most: u64, into: &mut Vec<u8>) -> Result<(), ReadError> {
        into.clear();
        match read_file(&self.runtime, name, most, into) {
            Ok(()) => Ok(()),
            Err(cause) => {
                into.clear();
                self.count(cause);
                Err(cause)
            }
        }
    }

    fn write(&mut self, bytes: &[u8]) -> Result<usize, WriteFailed> {
        match self.runtime.write_some(bytes) {
            Ok(taken) if taken > 0 => Ok(taken),
            _ => {
                self.write_faults += 1;
                Err(WriteFailed)
            }
        }
    }
}
