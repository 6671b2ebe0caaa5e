ghost use Rattle.std.specs.Prelude.{◌≡◌, ℕ, ◌+◌, ◌-◌, ◌<◌, ◌≤◌, ◌++◌, ◌∷◌, ◌↔◌, ◌≢◌, [], length, take, min, List, Some, None, Err, OnOk, OnErr, IfOk, IsTrue, IsErr, IfSome, Contains, map, string_bytes};
ghost use Rattle.std.specs.Option.{option_copied};
ghost use Rattle.occ_desk.specs.Desk.{IsFileAnswer};
ghost use Rattle.occ_desk.specs.MemoryDesk.{file_of, next_call, new_desk, ReadFails, WriteFails, CallFails, taken_of, after_read, after_write};

use crate::{Desk, ReadError, WriteFailed};
use occ_base::Memory;
use std::alloc::{AllocError, Global};
use std::marker::Model;

/// A file of a desk in memory.
#[derive(Drop)]
struct StoredFile {
    name: String,
    bytes: Vec<u8>,
}

/// A desk whose files and output are in memory, and of which chosen calls fail.
///
/// Calls are numbered from 0 over reads and writes together. It tells its files, what was written and the names
/// that were asked for.
#[derive(Drop)]
pub struct MemoryDesk {
    files: Vec<StoredFile>,
    written: Vec<u8>,
    // They are told to proofs alone: no method gives them.
    asked: Vec<Vec<u8>>,
    calls: u64,
    failing: Vec<u64>,
    piece: usize,
    room: usize,
    read_faults: u64,
    write_faults: u64,
    alloc: Global,
}

impl Model for MemoryDesk {
    ghost use Rattle.occ_desk.specs.MemoryDesk.{DeskState};

    ghost Value = { DeskState };

    ghost use Rattle.std.specs.Prelude.{◌≤◌, map, string_bytes, vec_len, vec_capacity};

    ghost view = { λ desk. record {
      files = map (λ file. (string_bytes file.name, file.bytes.items)) desk.files.items;
      written = desk.written.items;
      asked = map (λ name. name.items) desk.asked.items;
      calls = desk.calls;
      failing = desk.failing.items;
      piece = desk.piece;
      room = desk.room;
      read_faults = desk.read_faults;
      write_faults = desk.write_faults;
    } };

    ghost invariant = { λ desk. (1 ≤ desk.piece) × (vec_len desk.written ≤ desk.room) × (desk.room ≤ vec_capacity desk.written) };
}

impl MemoryDesk {
    /// A desk without files whose calls with the numbers in `failing` fail. One write takes at most `piece` bytes,
    /// and all writes together at most `room` bytes, for which it takes the memory.
    pub fn new(
        alloc: Global,
        failing: &[u64],
        piece: usize,
        room: usize,
    ) -> Result<MemoryDesk, Memory>
        requires { 1 ≤ piece }
        ensures { IfOk result (λ desk. desk ≡ new_desk failing.now piece room) }
    {
        Ok(MemoryDesk {
            files: Vec::new(alloc),
            written: Vec::with_capacity(alloc, room)?,
            asked: Vec::new(alloc),
            calls: 0,
            failing: Vec::from_slice(alloc, failing)?,
            piece,
            room,
            read_faults: 0,
            write_faults: 0,
            alloc,
        })
    }

    /// Adds a file. Where memory runs out, the desk is as before.
    pub fn add(&mut self, name: &str, bytes: &[u8]) -> Result<(), Memory>
        requires { file_of self.old.files name.now ≡ None }
        ensures ok { OnOk result (self.new ≡ record self.old { files = self.old.files ++ (name.now, bytes.now) ∷ [] }) }
        ensures err { OnErr result (self.new ≡ self.old) }
    {
        let file = StoredFile {
            name: String::from_str(self.alloc, name)?,
            bytes: Vec::from_slice(self.alloc, bytes)?,
        };
        self.files.push(file)?;
        Ok(())
    }

    /// The bytes written so far. It takes no memory.
    pub fn written(&self) -> &[u8]
        ensures { result.now ≡ self.now.written }
    {
        self.written.as_slice()
    }

    /// Counts a call, and says whether its number is one of those that fail.
    fn count_call(&mut self) -> bool
        ensures fails { IsTrue result ↔ CallFails self.old }
        ensures after { self.new ≡ record self.old { calls = next_call self.old.calls } }
    {
        let call = self.calls;
        self.calls = call.saturating_add(1);
        self.failing.contains(&call)
    }

    /// Notes that a name was asked for. Where memory runs out, the desk is as before.
    fn note(&mut self, name: &str) -> Result<(), AllocError>
        ensures ok { OnOk result (self.new ≡ record self.old { asked = self.old.asked ++ name.now ∷ [] }) }
        ensures err { OnErr result (self.new ≡ self.old) }
    {
        self.asked
            .push(Vec::from_slice(self.alloc, name.as_bytes())?)?;
        Ok(())
    }

    /// Counts a write that fails.
    fn refuse(&mut self) -> Result<usize, WriteFailed>
        requires { self.old.write_faults < u64.MAX }
        ensures fault { IsErr result }
        ensures after { self.new ≡ record self.old { write_faults = self.old.write_faults + 1 } }
    {
        self.write_faults += 1;
        Err(WriteFailed)
    }

    /// The bytes of the file of that name.
    fn file(&self, name: &str) -> Option<&[u8]>
        ensures { option_copied result ≡ file_of self.now.files name.now }
    {
        find(self.files.as_slice(), name)
    }
}

/// The bytes of the first file of that name.
fn find<'a>(files: &'a [StoredFile], name: &str) -> Option<&'a [u8]>
    ensures { option_copied result ≡ file_of (map (λ file. (string_bytes file.name, file.bytes.items)) files.now) name.now }
{
    for file in files {
        if file.name.as_str() == name {
            return Some(file.bytes.as_slice());
        }
    }
    None
}

/// Copies a file that may be missing, and that may be too long.
fn copy_file(file: Option<&[u8]>, most: u64, into: &mut Vec<u8>) -> Result<(), ReadError>
    requires { into.old.items ≡ [] }
    ensures content { IsFileAnswer (option_copied file.entry) most into.new.items result }
    ensures most { OnOk result (length into.new.items ≤ most) }
    ensures refused { OnErr result (into.new.items ≡ []) }
    ensures failed { result ≢ Err ReadError.Memory → (result ≡ Err ReadError.Failed ↔ (option_copied file.entry ≡ None)) }
{
    let Some(bytes) = file else {
        return Err(ReadError::Failed);
    };
    if bytes.len() as u64 > most {
        return Err(ReadError::TooLong);
    }
    into.extend_from_slice(bytes)?;
    Ok(())
}

impl Desk for MemoryDesk {
    ghost files = { λ desk. Some (file_of desk.files) };

    ghost written = { λ desk. Some desk.written };

    ghost asked = { λ desk. Some desk.asked };

    ghost read_faults = { λ desk. desk.read_faults };

    ghost write_faults = { λ desk. desk.write_faults };

    /// It fails exactly where the number of the call is in `failing` or no file has the name; besides, memory may run out.
    fn read(&mut self, name: &str, most: u64, into: &mut Vec<u8>) -> Result<(), ReadError>
        requires reads_countable { self.old.read_faults < u64.MAX }
        requires writes_countable { self.old.write_faults < u64.MAX }

        ensures content { IsFileAnswer (file_of self.old.files name.now) most into.new.items result }
        ensures most { OnOk result (length into.new.items ≤ most) }
        ensures refused { OnErr result (into.new.items ≡ []) }

        ensures failed { result ≢ Err ReadError.Memory → (result ≡ Err ReadError.Failed ↔ ReadFails self.old name.now) }
        ensures after { self.new ≡ after_read self.old name.now result }
    {
        into.clear();
        let fails = self.count_call();
        let file = if fails { None } else { self.file(name) };
        match copy_file(file, most, into) {
            Ok(()) => {
                if self.note(name).is_err() {
                    into.clear();
                    return Err(ReadError::Memory);
                }
                Ok(())
            }
            Err(ReadError::TooLong) => {
                self.note(name)?;
                Err(ReadError::TooLong)
            }
            Err(ReadError::Failed) => {
                self.note(name)?;
                self.read_faults += 1;
                Err(ReadError::Failed)
            }
            Err(ReadError::Memory) => Err(ReadError::Memory),
        }
    }

    /// It fails exactly where the number of the call is in `failing` or all the room is written, and takes no memory.
    fn write(&mut self, bytes: &[u8]) -> Result<usize, WriteFailed>
        requires reads_countable { self.old.read_faults < u64.MAX }
        requires writes_countable { self.old.write_faults < u64.MAX }
        requires some { 0 < length bytes.now }

        ensures some { IfOk result (λ taken. 0 < taken) }
        ensures failed { IsErr result ↔ WriteFails self.old }
        ensures taken { IfOk result (λ taken. taken ≡ taken_of self.old (length bytes.now)) }
        ensures after { self.new ≡ after_write self.old bytes.now result }
    {
        if self.count_call() {
            return self.refuse();
        }
        let left = self.room - self.written.len();
        if left == 0 {
            return self.refuse();
        }
        let taken = bytes.len().min(self.piece).min(left);
        self.written.extend_from_slice(&bytes[..taken]).unwrap();
        Ok(taken)
    }
}
