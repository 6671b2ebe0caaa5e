//! Files as they are read.

ghost use Rattle.std.specs.Prelude.{◌≡◌, ◌≤◌, ◌<◌, ◌∷◌, [], length, IfOk, IfSome};
ghost use Rattle.occ_call.specs.Files.{AreLoaded, AreShort, AsksFor, CountsStop, IsLoaded, IsShort, loaded_bytes, names_of, text_order};
ghost use Rattle.occ_call.specs.declared.loading.Stop.TheVariants.{Memory as NoMemory};

use occ_desk::{Desk, Memory, ReadError};
use std::alloc::Global;
use std::cmp::Ordering;
use thiserror::Error;

/// How many bytes the text of a program or of a behaviour has at most.
pub const MOST_BYTES: u64 = 65_536;

/// How many bytes a script or an orders text has at most.
pub const MOST_SCRIPT_BYTES: u64 = 4_194_304;

/// How many bytes a normal text has at most.
pub const MOST_TABLE_BYTES: u64 = 67_108_864;

/// A file as it was read.
#[derive(Debug, Drop)]
pub enum Loaded {
    /// All its bytes, as many as a text of its kind has at most.
    Bytes(Vec<u8>),
    /// It has more.
    TooLong,
}

impl Loaded {
    /// The order of two texts by their bytes, one that is too long in front of all others.
    pub fn order(&self, other: &Loaded) -> Ordering
        ensures { result ≡ text_order (loaded_bytes self.now) (loaded_bytes other.now) }
    {
        match (self, other) {
            (Loaded::Bytes(one), Loaded::Bytes(two)) => one.as_slice().cmp(&two.as_slice()),
            (Loaded::Bytes(_), Loaded::TooLong) => Ordering::Greater,
            (Loaded::TooLong, Loaded::Bytes(_)) => Ordering::Less,
            (Loaded::TooLong, Loaded::TooLong) => Ordering::Equal,
        }
    }
}

/// A file that a command names, and how many bytes it may have.
#[derive(Clone, Copy, Debug)]
pub struct Named<'a> {
    pub name: &'a str,
    pub most: u64,
}

impl<'a> Named<'a> {
    /// A file that may have so many bytes.
    pub fn new(name: &'a str, most: u64) -> Named<'a>
        ensures { result ≡ record { name = name.entry; most = most } }
    {
        Named { name, most }
    }
}

/// The files that a command reads, in order.
#[derive(Clone, Copy, Debug)]
pub enum Wanted<'a> {
    Nothing,
    One(Named<'a>),
    Two(Named<'a>, Named<'a>),
}

/// What was read of the files that were wanted. A file that wasn't wanted is as an empty one.
#[derive(Debug, Drop)]
pub struct Contents {
    pub first: Loaded,
    pub second: Loaded,
}

/// Why there is no answer.
#[derive(Clone, Copy, Debug, PartialEq, Eq, Error)]
pub enum Stop {
    /// A read failed.
    #[error("a file can't be read")]
    Read,
    /// Out of memory.
    #[error("out of memory")]
    Memory,
}

impl From<Memory> for Stop {
    ghost from_gives = { λ _ e. e ≡ NoMemory };

    fn from(_cause: Memory) -> Stop {
        Stop::Memory
    }
}

/// Reads the files that are wanted, in order. The first that can't be read ends it.
pub fn load<D: Desk>(alloc: Global, desk: &mut D, wanted: &Wanted) -> Result<Contents, Stop>
    requires reads_countable { D.read_faults desk.old < u64.MAX }
    requires writes_countable { D.write_faults desk.old < u64.MAX }
    ensures loaded { IfOk result (λ contents. IfSome (D.files desk.old) (λ files. AreLoaded files wanted.now contents)) }
    ensures short { IfOk result (AreShort wanted.now) }
    ensures asked { AsksFor (D.asked desk.old) (D.asked desk.new) (names_of wanted.now) result }
    ensures read_faults { CountsStop (D.read_faults desk.old) (D.read_faults desk.new) result }
    ensures files { D.files desk.new ≡ D.files desk.old }
    ensures written { D.written desk.new ≡ D.written desk.old }
    ensures write_faults { D.write_faults desk.new ≡ D.write_faults desk.old }
{
    match wanted {
        Wanted::Nothing => Ok(Contents {
            first: empty(alloc),
            second: empty(alloc),
        }),
        Wanted::One(file) => {
            let first = load_file(alloc, desk, file)?;
            let second = empty(alloc);
            Ok(Contents { first, second })
        }
        Wanted::Two(file, other) => {
            let first = load_file(alloc, desk, file)?;
            let second = load_file(alloc, desk, other)?;
            Ok(Contents { first, second })
        }
    }
}

/// A file of no bytes.
fn empty(alloc: Global) -> Loaded {
    Loaded::Bytes(Vec::new(alloc))
}

/// Reads one file.
fn load_file<D: Desk>(alloc: Global, desk: &mut D, file: &Named) -> Result<Loaded, Stop>
    requires reads_countable { D.read_faults desk.old < u64.MAX }
    requires writes_countable { D.write_faults desk.old < u64.MAX }
    ensures loaded { IfOk result (λ loaded. IfSome (D.files desk.old) (λ files. IsLoaded file.now.most (files file.now.name.now) loaded)) }
    ensures short { IfOk result (IsShort file.now.most) }
    ensures asked { AsksFor (D.asked desk.old) (D.asked desk.new) (file.now.name.now ∷ []) result }
    ensures read_faults { CountsStop (D.read_faults desk.old) (D.read_faults desk.new) result }
    ensures files { D.files desk.new ≡ D.files desk.old }
    ensures written { D.written desk.new ≡ D.written desk.old }
    ensures write_faults { D.write_faults desk.new ≡ D.write_faults desk.old }
{
    let mut bytes = Vec::new(alloc);
    match desk.read(file.name, file.most, &mut bytes) {
        Ok(()) => Ok(Loaded::Bytes(bytes)),
        Err(ReadError::TooLong) => Ok(Loaded::TooLong),
        Err(ReadError::Failed) => Err(Stop::Read),
        Err(ReadError::Memory) => Err(Stop::Memory),
    }
}
