ghost use Rattle.std.specs.Prelude.{◌≡◌, ◌≤◌, IfOk, IfSome, length};
ghost use Rattle.occ_norm_frame.specs.occ_dd.Store.{IsKnown};
ghost use Rattle.occ_norm_assign.specs.Writes.{AreWrites};
ghost use Rattle.occ_norm_assign.specs.Written.{onto};
ghost use Rattle.occ_norm_frame.specs.Placed.{Fits, FitAll, FitCases};
ghost use Rattle.occ_norm_frame.specs.Maps.{Extends};
ghost use Rattle.occ_syntax.specs.Tree.{select, seq};
ghost use Rattle.occ_syntax.specs.View.{cases, tree, trees};
ghost use Rattle.occ_norm_assign.specs.Lists.{ArePicked, ArePutOn, AreStates, IsListed, StaySame};

use crate::{Write, writes_of};
use occ_norm_frame::{Frame, Normaliser, SetId, holds, with_bit};
use occ_syntax::{Expr, Memory, Proc};
use std::alloc::Global;

/// The states of a few bits, each of which stays as it is.
pub(crate) fn states(alloc: Global, bits: u32) -> Result<Vec<u64>, Memory>
    requires { bits ≤ 16 }
    ensures are { IfOk result (λ r. AreStates bits r.items) }
    ensures same { IfOk result (λ r. StaySame bits r.items) }
{
    let size: u64 = 1 << bits;
    let mut list = Vec::new(alloc);
    for state in 0..size {
        list.push(state)?;
    }
    Ok(list)
}

// The state that writes make of a state.
fn written(world: &Normaliser, writes: &[Write], state: u64) -> u64
    requires { AreWrites world.now.store writes.now }
    ensures { result ≡ onto world.now.store writes.now state state }
{
    let mut made = state;
    for write in writes {
        let one = world.has(write.set, state);
        made = with_bit(made, write.bit, one);
    }
    made
}

// The states where some states lead and then some writes.
fn put_on(
    world: &Normaliser,
    bits: u32,
    before: &[u64],
    writes: &[Write],
) -> Result<Vec<u64>, Memory>
    requires bits { bits ≤ 16 }
    requires before { AreStates bits before.now }
    requires writes { AreWrites world.now.store writes.now }
    ensures are { IfOk result (λ r. AreStates bits r.items) }
    ensures put { IfOk result (λ r. ArePutOn world.now.store bits writes.now before.now r.items) }
{
    let size: u64 = 1 << bits;
    let mut after = Vec::with_capacity(world.alloc(), before.len())?;
    for place in 0..before.len() {
        let made = written(world, writes, before[place]);
        after.push(made % size)?;
    }
    Ok(after)
}

// Puts the states of a list into another one where some states are in a set.
fn pick(world: &Normaliser, set: SetId, before: &[u64], there: &[u64], after: &mut Vec<u64>)
    requires set { IsKnown world.now.store set }
    requires there { length there.now ≡ length before.now }
    requires after { length after.old.items ≡ length before.now }
    ensures all { length after.new.items ≡ length before.now }
    ensures picked { ArePicked world.now.store set before.now there.now after.old.items after.new.items }
{
    for place in 0..before.len() {
        let leads = world.has(set, before[place]);
        if !leads {
            continue;
        }
        after[place] = there[place];
    }
}

// The states after the choices of an IF, by those before it, if all choices are straight and one of them is always taken.
#[cycle(listed)]
fn listed_choices(
    world: &mut Normaliser,
    frame: &Frame,
    before: &[u64],
    choices: &[(Expr, Proc)],
) -> Result<Option<Vec<u64>>, Memory>
    requires bits { frame.now.bits ≤ 16 }
    requires before { AreStates frame.now.bits before.now }
    requires choices { FitCases frame.now.vars (cases choices.now) }
    ensures extends { Extends world.old world.new }
    ensures made { IfOk result (λ found. IfSome found
        (λ r. IsListed frame.now.vars frame.now.layout frame.now.bits (select (cases choices.now)) before.now r.items)) }
{
    let alloc = world.alloc();
    let mut after = Vec::from_slice(alloc, before)?;
    let mut beyond = world.full();
    let mut left = choices.len();
    while left > 0 {
        left -= 1;
        let choice = &choices[left];
        let Some(there) = listed(world, frame, before, &choice.1)? else {
            return Ok(None);
        };
        let set = holds(alloc, world, frame, &choice.0)?;
        let fewer = world.without(beyond, set)?;
        beyond = fewer;
        pick(world, set, before, &there, &mut after);
    }
    if beyond.0 != world.empty().0 {
        return Ok(None);
    }
    Ok(Some(after))
}

// The states after the parts of a SEQ, by those before it, if all parts are straight.
#[cycle(listed)]
pub(crate) fn listed_all(
    world: &mut Normaliser,
    frame: &Frame,
    before: &[u64],
    parts: &[Proc],
) -> Result<Option<Vec<u64>>, Memory>
    requires bits { frame.now.bits ≤ 16 }
    requires before { AreStates frame.now.bits before.now }
    requires parts { FitAll frame.now.vars (trees parts.now) }
    ensures extends { Extends world.old world.new }
    ensures made { IfOk result (λ found. IfSome found
        (λ r. IsListed frame.now.vars frame.now.layout frame.now.bits (seq (trees parts.now)) before.now r.items)) }
{
    let mut now = Vec::from_slice(world.alloc(), before)?;
    for place in 0..parts.len() {
        let Some(next) = listed(world, frame, &now, &parts[place])? else {
            return Ok(None);
        };
        now = next;
    }
    Ok(Some(now))
}

// The states after a part, by those before it, if it is straight.
#[tactic(auto, unfolding(crate::specs::tree))]
#[cycle(listed)]
fn listed(
    world: &mut Normaliser,
    frame: &Frame,
    before: &[u64],
    part: &Proc,
) -> Result<Option<Vec<u64>>, Memory>
    requires bits { frame.now.bits ≤ 16 }
    requires before { AreStates frame.now.bits before.now }
    requires part { Fits frame.now.vars (tree part.now) }
    ensures extends { Extends world.old world.new }
    ensures made { IfOk result (λ found. IfSome found
        (λ r. IsListed frame.now.vars frame.now.layout frame.now.bits (tree part.now) before.now r.items)) }
{
    match part {
        Proc::Skip => Ok(Some(Vec::from_slice(world.alloc(), before)?)),
        Proc::Assign { vars, values } => {
            let writes = writes_of(world, frame, vars.items(), values.items())?;
            let after = put_on(world, frame.bits, before, &writes)?;
            Ok(Some(after))
        }
        Proc::Seq(parts) => listed_all(world, frame, before, parts.items()),
        Proc::If(choices) => listed_choices(world, frame, before, choices.items()),
        _ => Ok(None),
    }
}
