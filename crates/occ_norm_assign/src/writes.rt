ghost use Rattle.std.specs.Prelude.{◌≡◌, ℕ, ◌+◌, ◌++◌, ◌≤◌, ◌<◌, true, length, IfOk, OnOk};
ghost use Rattle.std.specs.List.{All};
ghost use Rattle.occ_norm_frame.specs.occ_bits.Layout.{environment_in};
ghost use Rattle.occ_norm_frame.specs.occ_dd.Store.{IsKnown as IsSetKnown};
ghost use Rattle.occ_norm_frame.specs.occ_dd.declared.store.Store.{Store};
ghost use Rattle.occ_norm_frame.specs.occ_follow.Sequence.{HasNodes};
ghost use Rattle.occ_norm_frame.specs.Maps.{Extends};
ghost use Rattle.occ_syntax.specs.Types.{pairs_kept};
ghost use Rattle.occ_syntax.specs.View.{exp, exps, numbers};
ghost use Rattle.occ_syntax.specs.Scopes.{Environment};
ghost use Rattle.occ_syntax.specs.Tree.{assign};
ghost use Rattle.occ_norm_frame.specs.After.{IsAfter, IsOver};
ghost use Rattle.occ_norm_frame.specs.Changes.{IsChanged};
ghost use Rattle.occ_norm_frame.specs.Placed.{IsAround};
ghost use Rattle.occ_norm_assign.specs.Writes.{AreWrites, IsWrite};
ghost use Rattle.occ_norm_assign.specs.Written.{AreAssigned, AreDistinct, AreFree, AreParts, CanExchange, IsApplied, IsExchanged, IsFree, IsSubstituted, KeepSubstituted, digit_writes, step};

use occ_norm_frame::{
    Call, Frame, MapId, Memo, Normaliser, SetId, digits, has_bit, is_full, turned_on,
};
use occ_syntax::{Expr, Memory, Name};

/// A bit that is assigned, with the set of the states in which it becomes 1.
#[derive(Clone, Copy)]
pub struct Write {
    pub bit: u32,
    pub set: SetId,
}

/// An assignment of values to variables.
#[derive(Clone, Copy)]
pub struct Assignment<'a> {
    pub vars: &'a [Name],
    pub values: &'a [Expr],
}

// A map in two parts: where a write changes its bit, `on` is the map at the state that is made, and elsewhere `off` is the map.
#[derive(Clone, Copy)]
struct Parts {
    turns: SetId,
    on: MapId,
    off: MapId,
}

// Writes that are made all at once, and the map that stands outside each part.
#[derive(Drop)]
struct Exchange<'a> {
    keep: u64,
    writes: &'a [Write],
    other: MapId,
}

// Adds the writes of some digits, in a row from a bit on.
fn add_digits(sets: &[SetId], first: u32, writes: &mut Vec<Write>) -> Result<(), Memory>
    requires { first + length sets.now ≤ 64 }
    ensures writes { OnOk result ((s : Store) → AreWrites s writes.old.items → All (IsSetKnown s) sets.now
        → AreWrites s writes.new.items) }
    ensures each { OnOk result (writes.new.items ≡ writes.old.items ++ digit_writes first sets.now) }
{
    for place in 0..sets.len() {
        let bit = first + place as u32;
        writes.push(Write {
            bit,
            set: sets[place],
        })?;
    }
    Ok(())
}

/// The bits that an assignment writes.
pub fn writes_of(
    world: &mut Normaliser,
    frame: &Frame,
    vars: &[Name],
    values: &[Expr],
) -> Result<Vec<Write>, Memory>
    requires pairs { pairs_kept (environment_in frame.now.layout) (numbers vars.now) (exps values.now) ≡ true }
    requires same { length vars.now ≡ length values.now }
    ensures extends { Extends world.old world.new }
    ensures writes { IfOk result (λ r. AreWrites world.new.store r.items) }
    ensures assigned { IfOk result (λ r. AreAssigned world.new.store frame.now.layout
        (numbers vars.now) (exps values.now) r.items) }
{
    let mut writes = Vec::new(world.alloc());
    for place in 0..vars.len() {
        let word = digits(world.alloc(), world, frame, &values[place])?;
        let (_, first) = frame.slot(vars[place]);
        add_digits(word.bits(), first, &mut writes)?;
    }
    Ok(writes)
}

// The map whose value at a state is this one's at the state that the first writes, so many, make of it.
fn substituted(
    world: &mut Normaliser,
    writes: &[Write],
    left: usize,
    map: MapId,
    memo: &mut Memo,
) -> Result<MapId, Memory>
    requires left { left ≤ length writes.now }
    requires map { HasNodes world.old map }
    requires memo { KeepSubstituted world.old writes.now memo.old }
    ensures extends { Extends world.old world.new }
    ensures memo { KeepSubstituted world.new writes.now memo.new }
    ensures substituted { IfOk result (IsSubstituted world.new writes.now left map) }
{
    if left == 0 {
        return Ok(map);
    }
    let call = Call {
        first: left,
        second: map.0,
        third: 0,
    };
    if let Some(known) = memo.get(call) {
        return Ok(MapId(known));
    }
    let place = left - 1;
    let write = writes[place];
    let zero = world.cofactor(map, write.bit, false)?;
    let one = world.cofactor(map, write.bit, true)?;
    let low = substituted(world, writes, place, zero, memo)?;
    let high = substituted(world, writes, place, one, memo)?;
    let made = world.choose(write.set, high, low)?;
    memo.insert(call, made.0)?;
    Ok(made)
}

// The map of a write and then what another map has, as to final states.
fn written(world: &mut Normaliser, keep: u64, write: Write, map: MapId) -> Result<MapId, Memory>
    requires write { IsWrite world.old.store write }
    requires map { HasNodes world.old map }
    ensures extends { Extends world.old world.new }
    ensures nodes { IfOk result (HasNodes world.new) }
    ensures changed { IfOk result (IsChanged world.new (step world.old.store keep write) map) }
{
    if !has_bit(keep, write.bit) {
        return Ok(map);
    }
    let changed = world.changed(write.set, write.bit)?;
    turned_on(world, changed, write.bit, map)
}

// Whether a set has the same states whatever the bits below a bit are.
fn is_above(world: &mut Normaliser, set: SetId, bit: u32) -> Result<bool, Memory>
    requires set { IsSetKnown world.old.store set }
    requires bit { bit ≤ 64 }
    ensures { Extends world.old world.new }
{
    for below in 0..bit {
        let free = world.is_free(set, below)?;
        if !free {
            return Ok(false);
        }
    }
    Ok(true)
}

// Whether what a write changes doesn't depend on the bits of some writes, nor on any bit below its own: parting a map by it
// is quick then.
fn is_apart(world: &mut Normaliser, write: Write, others: &[Write]) -> Result<bool, Memory>
    requires write { IsWrite world.old.store write }
    requires others { AreWrites world.old.store others.now }
    ensures extends { Extends world.old world.new }
    ensures free { IfOk result (λ answer. answer ≡ true → IsFree world.old.store write others.now) }
{
    let set = world.changed(write.set, write.bit)?;
    let above = is_above(world, set, write.bit)?;
    if !above {
        return Ok(false);
    }
    for place in 0..others.len() {
        let free = world.is_free(set, others[place].bit)?;
        if !free {
            return Ok(false);
        }
    }
    Ok(true)
}

// Whether what each write changes doesn't depend on the bits of those before it.
fn are_apart(world: &mut Normaliser, writes: &[Write]) -> Result<bool, Memory>
    requires writes { AreWrites world.old.store writes.now }
    ensures extends { Extends world.old world.new }
    ensures free { IfOk result (λ answer. answer ≡ true → AreFree world.old.store writes.now (length writes.now)) }
{
    for place in 0..writes.len() {
        let free = is_apart(world, writes[place], &writes[..place])?;
        if !free {
            return Ok(false);
        }
    }
    Ok(true)
}

// Whether writes can be made all at once, and the map has so many nodes that this takes less time.
fn are_joint(world: &mut Normaliser, writes: &[Write], map: MapId) -> Result<bool, Memory>
    requires writes { AreWrites world.old.store writes.now }
    requires map { HasNodes world.old map }
    ensures extends { Extends world.old world.new }
    ensures free { IfOk result (λ answer. answer ≡ true → AreFree world.new.store writes.now (length writes.now)) }
{
    if 16 < writes.len() {
        return Ok(false);
    }
    let full = is_full(world, writes.len() as u32 + 6, map)?;
    if !full {
        return Ok(false);
    }
    are_apart(world, writes)
}

// The parts of a map by what a write changes, each with the other map elsewhere.
fn parted(world: &mut Normaliser, write: Write, map: MapId, other: MapId) -> Result<Parts, Memory>
    requires write { IsWrite world.old.store write }
    requires map { HasNodes world.old map }
    requires other { HasNodes world.old other }
    ensures extends { Extends world.old world.new }
    ensures parts { IfOk result (AreParts world.new write map other) }
{
    let turns = world.changed(write.set, write.bit)?;
    let there = world.flip(map, write.bit)?;
    let on = world.choose(turns, there, other)?;
    let off = world.choose(turns, other, map)?;
    Ok(Parts { turns, on, off })
}

impl Exchange<'_> {
    // The map of the first writes, so many, and then what a map has, where some more bits of final states are turned. What each
    // write changes doesn't depend on the bits of those before it. So the states are parted by what is changed, and in each part
    // those bits of the states are exchanged and all nodes turned once.
    fn map(
        &self,
        world: &mut Normaliser,
        left: usize,
        change: u64,
        map: MapId,
    ) -> Result<MapId, Memory>
        requires left { left ≤ length self.now.writes.now }
        requires exchange { CanExchange world.old self.now.writes.now self.now.other }
        requires map { HasNodes world.old map }
        ensures extends { Extends world.old world.new }
        ensures nodes { IfOk result (HasNodes world.new) }
        ensures exchanged { IfOk result (IsExchanged world.new self.now.writes.now self.now.keep left change map) }
    {
        if left == 0 {
            return world.shifted(map, change);
        }
        let place = left - 1;
        let write = self.writes[place];
        let parts = parted(world, write, map, self.other)?;
        let more = change ^ (self.keep & (1 << write.bit));
        let high = self.map(world, place, more, parts.on)?;
        let low = self.map(world, place, change, parts.off)?;
        world.choose(parts.turns, high, low)
    }
}

/// The map where some writes are made, and then what another map has.
pub fn applied(
    world: &mut Normaliser,
    keep: u64,
    writes: &[Write],
    rest: MapId,
) -> Result<MapId, Memory>
    requires writes { AreWrites world.old.store writes.now }
    requires distinct { AreDistinct writes.now }
    requires rest { HasNodes world.old rest }
    ensures extends { Extends world.old world.new }
    ensures nodes { IfOk result (HasNodes world.new) }
    ensures applied { IfOk result (IsApplied world.new writes.now keep rest) }
{
    let joint = are_joint(world, writes, rest)?;
    if joint {
        let other = world.stop()?;
        let exchange = Exchange {
            keep,
            writes,
            other,
        };
        return exchange.map(world, writes.len(), 0, rest);
    }
    let mut memo = Memo::new(world.alloc());
    let mut map = substituted(world, writes, writes.len(), rest, &mut memo)?;
    for write in writes {
        let next = written(world, keep, *write, map)?;
        map = next;
    }
    Ok(map)
}

/// The map of an assignment and then what another map has.
pub fn assigned(
    world: &mut Normaliser,
    frame: &Frame,
    assignment: &Assignment<'_>,
    rest: MapId,
) -> Result<MapId, Memory>
    requires pairs { pairs_kept (environment_in frame.now.layout)
        (numbers assignment.now.vars.now) (exps assignment.now.values.now) ≡ true }
    requires rest { IsOver world.old frame.now.bits rest }
    ensures extends { Extends world.old world.new }
    ensures nodes { IfOk result (HasNodes world.new) }
    ensures after { IfOk result (λ r. (Γ : Environment) → IsAround Γ frame.now.vars
        → IsAfter world.new frame.now.layout frame.now.keep frame.now.closed.items Γ
        (assign (numbers assignment.now.vars.now) (exps assignment.now.values.now)) rest r) }
{
    let writes = writes_of(world, frame, assignment.vars, assignment.values)?;
    applied(world, frame.keep, &writes, rest)
}
