ghost use Rattle.std.specs.Prelude.{◌≤◌, length, IfOk, IfSome};
ghost use Rattle.occ_syntax.specs.Tree.{seq};
ghost use Rattle.occ_syntax.specs.View.{trees};
ghost use Rattle.occ_norm_assign.specs.Writes.{AreWrites};
ghost use Rattle.occ_norm_assign.specs.Written.{AreDistinct};
ghost use Rattle.occ_norm_frame.specs.Maps.{Extends};
ghost use Rattle.occ_norm_frame.specs.After.{IsOver};
ghost use Rattle.occ_norm_frame.specs.Placed.{FitAll};
ghost use Rattle.occ_norm_frame.specs.occ_bits.Digits.{AreDigits};
ghost use Rattle.occ_norm_assign.specs.Transfer.{IsBehind, IsFunction, IsMapOf, SameWrites};

use crate::digits::identity;
use crate::laid::laid;
use crate::lists::{listed_all, states};
use crate::moves::moved;
use crate::{Write, applied};
use occ_norm_arrange::is_straight;
use occ_norm_frame::{Frame, MapId, Normaliser, SetId, is_full};
use occ_syntax::{Memory, Proc};

// How many sets a function may take.
const MOST_SETS: usize = 5000;

// As many nodes as a fourth of the states of so many bits are many: a map of fewer is gone through by sets quickly.
const LEAST_BITS: u32 = 14;

// The first of the straight parts at the end of some.
fn run_start(parts: &[Proc]) -> usize
    ensures { result ≤ length parts.now }
{
    let mut start = parts.len();
    while start > 0 && is_straight(&parts[start - 1]) {
        start -= 1;
    }
    start
}

// The bits that digits change, as writes.
fn writes_made(world: &mut Normaliser, digits: &[SetId]) -> Result<Vec<Write>, Memory>
    requires digits { AreDigits world.old.store digits.now }
    ensures extends { Extends world.old world.new }
    ensures writes { IfOk result (λ r. AreWrites world.new.store r.items) }
    ensures distinct { IfOk result (λ r. AreDistinct r.items) }
    ensures same { IfOk result (λ r. SameWrites world.new.store digits.now r.items) }
{
    let mut writes = Vec::new(world.alloc());
    for place in 0..digits.len() {
        let bit = place as u32;
        let stays = world.bit(bit)?;
        let set = digits[place];
        if set.0 == stays.0 {
            continue;
        }
        writes.push(Write { bit, set })?;
    }
    Ok(writes)
}

// The digits behind the parts of a list, by those of each state as it is; None where a part isn't straight, or where the digits
// take more sets than some.
fn composed(
    world: &mut Normaliser,
    frame: &Frame,
    parts: &[Proc],
) -> Result<Option<Vec<SetId>>, Memory>
    requires parts { FitAll frame.now.vars (trees parts.now) }
    ensures extends { Extends world.old world.new }
    ensures function { IfOk result (λ found. IfSome found
        (λ r. IsFunction world.new frame.now.vars frame.now.layout (seq (trees parts.now)) r.items)) }
{
    let limit = world.sets().saturating_add(MOST_SETS);
    let before = identity(world)?;
    let mut now = Vec::from_slice(world.alloc(), &before)?;
    for place in 0..parts.len() {
        let Some(next) = moved(world, frame, &now, &parts[place])? else {
            return Ok(None);
        };
        now = next;
        if world.sets() > limit {
            return Ok(None);
        }
    }
    Ok(Some(now))
}

// The map of some parts and then what another map has, by their digits; None where these take many sets, or where the map has many
// nodes, about as many as there are states that it tells apart.
fn by_digits(
    world: &mut Normaliser,
    frame: &Frame,
    parts: &[Proc],
    rest: MapId,
) -> Result<Option<MapId>, Memory>
    requires parts { FitAll frame.now.vars (trees parts.now) }
    requires rest { IsOver world.old frame.now.bits rest }
    ensures extends { Extends world.old world.new }
    ensures after { IfOk result (λ found. IfSome found (IsMapOf world.new frame.now (seq (trees parts.now)) rest)) }
{
    let full = is_full(world, LEAST_BITS, rest)?;
    if full {
        return Ok(None);
    }
    let Some(digits) = composed(world, frame, parts)? else {
        return Ok(None);
    };
    let writes = writes_made(world, &digits)?;
    let map = applied(world, frame.keep, &writes, rest)?;
    Ok(Some(map))
}

// The same by a list of where each state leads; None where there are too many states, or where a part isn't straight.
fn by_states(
    world: &mut Normaliser,
    frame: &Frame,
    parts: &[Proc],
    rest: MapId,
) -> Result<Option<MapId>, Memory>
    requires parts { FitAll frame.now.vars (trees parts.now) }
    requires rest { IsOver world.old frame.now.bits rest }
    ensures extends { Extends world.old world.new }
    ensures after { IfOk result (λ found. IfSome found (IsMapOf world.new frame.now (seq (trees parts.now)) rest)) }
{
    if frame.bits > 16 {
        return Ok(None);
    }
    let before = states(world.alloc(), frame.bits)?;
    let Some(to) = listed_all(world, frame, &before, parts)? else {
        return Ok(None);
    };
    let map = laid(world, frame, &to, rest)?;
    Ok(Some(map))
}

// The same by digits or by a list, as it comes; None where neither will do.
fn behind(
    world: &mut Normaliser,
    frame: &Frame,
    parts: &[Proc],
    rest: MapId,
) -> Result<Option<MapId>, Memory>
    requires parts { FitAll frame.now.vars (trees parts.now) }
    requires rest { IsOver world.old frame.now.bits rest }
    ensures extends { Extends world.old world.new }
    ensures after { IfOk result (λ found. IfSome found (IsMapOf world.new frame.now (seq (trees parts.now)) rest)) }
{
    let found = by_digits(world, frame, parts, rest)?;
    if found.is_some() {
        return Ok(found);
    }
    by_states(world, frame, parts, rest)
}

/// Where two or more parts at the end of some don't communicate and always end in one state, and their function takes few sets or
/// there are few states: the place of the first of them, and the map of them and then what another map has.
pub fn straight(
    world: &mut Normaliser,
    frame: &Frame,
    parts: &[Proc],
    rest: MapId,
) -> Result<Option<(usize, MapId)>, Memory>
    requires parts { FitAll frame.now.vars (trees parts.now) }
    requires rest { IsOver world.old frame.now.bits rest }
    ensures extends { Extends world.old world.new }
    ensures behind { IfOk result (λ found. IfSome found (λ run. IsBehind world.new frame.now parts.now rest run.0 run.1)) }
{
    let start = run_start(parts);
    if parts.len() - start < 2 {
        return Ok(None);
    }
    let Some(map) = behind(world, frame, &parts[start..], rest)? else {
        return Ok(None);
    };
    Ok(Some((start, map)))
}
