ghost use Rattle.std.specs.Prelude.{◌≡◌, ℕ, ◌+◌, ◌^◌, ◌≤◌, ◌<◌, get_or, length, bit_or, if◌then◌else◌, IfOk};
ghost use Rattle.std.specs.Int.{bit_at};
ghost use Rattle.occ_norm_frame.specs.occ_bits.Layout.{IsLayout};
ghost use Rattle.occ_norm_frame.specs.occ_follow.Sequence.{HasNodes};
ghost use Rattle.occ_norm_frame.specs.Maps.{Extends};
ghost use Rattle.occ_syntax.specs.View.{numbers, tree, trees};
ghost use Rattle.occ_norm_frame.specs.After.{IsOver};
ghost use Rattle.occ_norm_frame.specs.Alone.{except};
ghost use Rattle.occ_norm_frame.specs.Changes.{IsSupport};
ghost use Rattle.occ_norm_par.specs.Sides.{AllWritten, AreUsers, AreWritten, bits_in, closed_in};
ghost use Rattle.occ_norm_par.specs.Joined.{AreBoth, HaveNodes, IsJoined};
ghost use Rattle.occ_norm_par.specs.Spans.{covers, is_of};
ghost use Rattle.occ_syntax.specs.occ_base.Width.{bits_of};

use crate::users::{Users, crossing, row_start, users_of, within};
use occ_norm_frame::{Frame, MapId, Normaliser, bits_from, except, support, written};
use occ_syntax::{Memory, Name, Proc, Width};
use std::alloc::Global;

// Places of parts in a row: so many from `low` on, and those behind them in front of `high`.
#[derive(Clone, Copy)]
struct Split {
    low: usize,
    count: usize,
    high: usize,
}

/// What the parts of a PAR have in common: the bits that matter to what follows, the bits that matter to that or outside, the
/// bits that each part writes, those that some part writes, and who uses the closed channels.
#[derive(Drop)]
pub struct Sides {
    pub needed: u64,
    pub all: u64,
    pub writes: Vec<u64>,
    pub written: u64,
    pub users: Vec<Users>,
}

impl Sides {
    /// The parts of a PAR before what another map has.
    pub fn of(
        world: &mut Normaliser,
        frame: &Frame,
        parts: &[Proc],
        rest: MapId,
    ) -> Result<Sides, Memory>
        requires rest { IsOver world.old frame.now.bits rest }
        ensures extends { Extends world.old world.new }
        ensures needed { IfOk result (λ r. IsSupport world.new frame.now.bits rest r.needed) }
        ensures all { IfOk result (λ r. r.all ≡ bit_or frame.now.keep r.needed) }
        ensures writes { IfOk result (λ r. AllWritten frame.now.layout parts.now r.writes.items) }
        ensures written { IfOk result (λ r. r.written ≡ bits_in r.writes.items 0 (length parts.now)) }
        ensures users { IfOk result (λ r. AreUsers (trees parts.now) frame.now.closed.items r.users.items) }
    {
        let alloc = world.alloc();
        let needed = support(world, frame.bits, rest)?;
        let all = frame.keep | needed;
        let writes = writes_of(alloc, frame, parts)?;
        let written = bits_in(writes.as_slice(), 0, parts.len());
        let users = users_of(alloc, parts, frame.closed.as_slice())?;
        Ok(Sides {
            needed,
            all,
            writes,
            written,
            users,
        })
    }

    // Two neighbours side by side: the map of the parts of the first places, and that of the others.
    fn both(
        &self,
        world: &mut Normaliser,
        split: Split,
        first: MapId,
        others: MapId,
    ) -> Result<MapId, Memory>
        requires first { HasNodes world.old first }
        requires others { HasNodes world.old others }
        requires places { split.low + split.count ≤ length self.now.writes.items }
        ensures extends { Extends world.old world.new }
        ensures nodes { IfOk result (HasNodes world.new) }
        ensures both { IfOk result (AreBoth self.now split first others world.new) }
    {
        let Split { low, count, high } = split;
        let bits = bits_in(self.writes.as_slice(), low, count);
        let users = self.users.as_slice();
        let closed = crossing(world.alloc(), users, low, low + count, high)?;
        world.woven(bits, closed.as_slice(), first, others)
    }

    // Parts side by side, by the map of each, where the first of them stands in that place. The two halves are put side by side,
    // and so are theirs.
    fn halves(&self, world: &mut Normaliser, place: usize, maps: &[MapId]) -> Result<MapId, Memory>
        requires some { 1 ≤ length maps.now }
        requires places { place + length maps.now ≤ length self.now.writes.items }
        requires nodes { HaveNodes world.old maps.now }
        ensures extends { Extends world.old world.new }
        ensures nodes { IfOk result (HasNodes world.new) }
        ensures joined { IfOk result (IsJoined self.now place maps.now world.old world.new) }
    {
        if maps.len() == 1 {
            return Ok(maps[0]);
        }
        let half = maps.len() / 2;
        let first = self.halves(world, place, &maps[..half])?;
        let others = self.halves(world, place + half, &maps[half..])?;
        let split = Split {
            low: place,
            count: half,
            high: place + maps.len(),
        };
        self.both(world, split, first, others)
    }

    /// The parts of a PAR side by side, by the map of each. Parts that stand in a row and share a channel each with the next are
    /// put side by side half by half, and what comes of that is put beside what stands behind it: so that channels are closed
    /// soon, and the parts of a chain meet each other while they are small.
    pub fn joined(&self, world: &mut Normaliser, maps: &[MapId]) -> Result<MapId, Memory>
        requires some { 1 ≤ length maps.now }
        requires writes { length self.now.writes.items ≡ length maps.now }
        requires nodes { HaveNodes world.old maps.now }
        ensures extends { Extends world.old world.new }
        ensures nodes { IfOk result (HasNodes world.new) }
        ensures joined { IfOk result (IsJoined self.now 0 maps.now world.old world.new) }
    {
        let count = maps.len();
        let mut start = row_start(self.users.as_slice(), count);
        let mut map = self.halves(world, start, &maps[start..])?;
        while start > 0 {
            let end = start;
            start = row_start(self.users.as_slice(), end);
            let first = self.halves(world, start, &maps[start..end])?;
            let split = Split {
                low: start,
                count: end - start,
                high: count,
            };
            map = self.both(world, split, first, map)?;
        }
        Ok(map)
    }
}

/// The frame of one of the parts of a PAR: the bits that it doesn't write are kept as changes in it, and channels that it alone
/// uses are closed.
pub fn side_frame(
    alloc: Global,
    frame: &Frame,
    sides: &Sides,
    place: usize,
) -> Result<Frame, Memory>
    requires all { sides.now.all < 2 ^ frame.now.bits }
    requires place { place < length sides.now.writes.items }
    ensures vars { IfOk result (λ r. r.vars ≡ frame.now.vars) }
    ensures keep { IfOk result (λ r. r.keep ≡ except sides.now.all (get_or sides.now.writes.items place 0)) }
    ensures closed { IfOk result (λ r. r.closed.items ≡ closed_in place (place + 1) sides.now.users.items) }
{
    let closed = within(alloc, sides.users.as_slice(), place, place + 1)?;
    let keep = except(sides.all, sides.writes[place]);
    frame.with(alloc, keep, closed)
}

// The bits of a variable, if its name is among some.
fn entry_bits(entry: &(Name, Width, u32), names: &[Name]) -> u64
    requires { entry.now.2 + bits_of entry.now.1 ≤ 64 }
    ensures { (k : ℕ) → k < 64 → bit_at result k ≡ (if is_of (numbers names.now) k entry.now then 1 else 0) }
{
    let named = names.contains(&entry.0);
    if !named {
        return 0;
    }
    bits_from(entry.2, entry.1.bits())
}

// The bits of the variables of some names.
fn bits_of_names(entries: &[(Name, Width, u32)], names: &[Name]) -> u64
    requires { IsLayout entries.now }
    ensures { (k : ℕ) → k < 64 → bit_at result k ≡ (if covers entries.now (numbers names.now) k then 1 else 0) }
{
    let mut bits: u64 = 0;
    for entry in entries {
        let more = entry_bits(entry, names);
        bits |= more;
    }
    bits
}

/// The bits of the variables that a part writes.
pub fn written_bits(alloc: Global, frame: &Frame, part: &Proc) -> Result<u64, Memory>
    ensures small { IfOk result (λ r. r < 2 ^ 64) }
    ensures written { IfOk result (AreWritten frame.now.layout (tree part.now)) }
{
    let names = written(alloc, part)?;
    Ok(bits_of_names(frame.layout.items(), names.as_slice()))
}

// The bits of the variables that each of some parts writes.
fn writes_of(alloc: Global, frame: &Frame, parts: &[Proc]) -> Result<Vec<u64>, Memory>
    ensures { IfOk result (λ r. AllWritten frame.now.layout parts.now r.items) }
{
    let mut writes = Vec::new(alloc);
    for part in parts {
        let bits = written_bits(alloc, frame, part)?;
        writes.push(bits)?;
    }
    Ok(writes)
}

// The bits that so many parts write, from a place on.
fn bits_in(writes: &[u64], place: usize, count: usize) -> u64
    requires { place + count ≤ length writes.now }
    ensures { result ≡ bits_in writes.now place count }
{
    let mut bits: u64 = 0;
    for next in 0..count {
        bits |= writes[place + next];
    }
    bits
}
