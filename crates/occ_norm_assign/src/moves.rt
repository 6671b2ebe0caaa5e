ghost use Rattle.std.specs.Prelude.{◌≡◌, true, IfOk, IfSome};
ghost use Rattle.occ_norm_frame.specs.occ_bits.Layout.{environment_in};
ghost use Rattle.occ_syntax.specs.Tree.{select, seq};
ghost use Rattle.occ_syntax.specs.Types.{is_condition};
ghost use Rattle.occ_syntax.specs.View.{cases, exp, tree, trees};
ghost use Rattle.occ_norm_assign.specs.Writes.{AreWrites};
ghost use Rattle.occ_norm_frame.specs.Maps.{Extends};
ghost use Rattle.occ_norm_frame.specs.Placed.{Fits, FitAll, FitCases};
ghost use Rattle.occ_norm_frame.specs.occ_bits.Digits.{AreDigits};
ghost use Rattle.occ_norm_assign.specs.Transfer.{ArePut, IsCondition, IsMade};

use crate::digits::{either, leading};
use crate::{Write, writes_of};
use occ_norm_frame::{Frame, Memo, Normaliser, SetId, holds};
use occ_syntax::{Expr, Memory, Proc};

// The digits that lead where some digits lead and then some writes.
fn put(world: &mut Normaliser, before: &[SetId], writes: &[Write]) -> Result<Vec<SetId>, Memory>
    requires before { AreDigits world.old.store before.now }
    requires writes { AreWrites world.old.store writes.now }
    ensures extends { Extends world.old world.new }
    ensures are { IfOk result (λ r. AreDigits world.new.store r.items) }
    ensures put { IfOk result (λ r. ArePut world.new.store before.now writes.now r.items) }
{
    let alloc = world.alloc();
    let mut after = Vec::from_slice(alloc, before)?;
    let mut memo = Memo::new(alloc);
    for write in writes {
        let digit = leading(world, before, write.set, &mut memo)?;
        after[write.bit as usize] = digit;
    }
    Ok(after)
}

// The assignments from which some digits lead to states in which a condition is TRUE.
fn held(
    world: &mut Normaliser,
    frame: &Frame,
    before: &[SetId],
    expr: &Expr,
) -> Result<SetId, Memory>
    requires before { AreDigits world.old.store before.now }
    requires condition { is_condition (environment_in frame.now.layout) (exp expr.now) ≡ true }
    ensures extends { Extends world.old world.new }
    ensures held { IfOk result (IsCondition world.new frame.now.layout (exp expr.now) before.now) }
{
    let alloc = world.alloc();
    let set = holds(alloc, world, frame, expr)?;
    let mut memo = Memo::new(alloc);
    leading(world, before, set, &mut memo)
}

// The digits after the choices of an IF, by those before it, if all choices are straight and one of them is always taken.
#[cycle(moved)]
fn chosen(
    world: &mut Normaliser,
    frame: &Frame,
    before: &[SetId],
    choices: &[(Expr, Proc)],
) -> Result<Option<Vec<SetId>>, Memory>
    requires before { AreDigits world.old.store before.now }
    requires choices { FitCases frame.now.vars (cases choices.now) }
    ensures extends { Extends world.old world.new }
    ensures made { IfOk result (λ found. IfSome found
        (λ r. IsMade world.new frame.now.vars frame.now.layout (select (cases choices.now)) before.now r.items)) }
{
    let mut after = Vec::from_slice(world.alloc(), before)?;
    let mut beyond = world.full();
    let mut left = choices.len();
    while left > 0 {
        left -= 1;
        let choice = &choices[left];
        let Some(there) = moved(world, frame, before, &choice.1)? else {
            return Ok(None);
        };
        let set = held(world, frame, before, &choice.0)?;
        let fewer = world.without(beyond, set)?;
        beyond = fewer;
        let next = either(world, set, &there, &after)?;
        after = next;
    }
    if beyond.0 != world.empty().0 {
        return Ok(None);
    }
    Ok(Some(after))
}

// The digits after the parts of a SEQ, by those before it, if all parts are straight.
#[cycle(moved)]
fn in_turn(
    world: &mut Normaliser,
    frame: &Frame,
    before: &[SetId],
    parts: &[Proc],
) -> Result<Option<Vec<SetId>>, Memory>
    requires before { AreDigits world.old.store before.now }
    requires parts { FitAll frame.now.vars (trees parts.now) }
    ensures extends { Extends world.old world.new }
    ensures made { IfOk result (λ found. IfSome found
        (λ r. IsMade world.new frame.now.vars frame.now.layout (seq (trees parts.now)) before.now r.items)) }
{
    let mut now = Vec::from_slice(world.alloc(), before)?;
    for place in 0..parts.len() {
        let Some(next) = moved(world, frame, &now, &parts[place])? else {
            return Ok(None);
        };
        now = next;
    }
    Ok(Some(now))
}

// The digits after a part, by those before it, if it is straight.
#[tactic(auto, unfolding(crate::specs::tree))]
#[cycle(moved)]
pub(crate) fn moved(
    world: &mut Normaliser,
    frame: &Frame,
    before: &[SetId],
    part: &Proc,
) -> Result<Option<Vec<SetId>>, Memory>
    requires before { AreDigits world.old.store before.now }
    requires part { Fits frame.now.vars (tree part.now) }
    ensures extends { Extends world.old world.new }
    ensures made { IfOk result (λ found. IfSome found
        (λ r. IsMade world.new frame.now.vars frame.now.layout (tree part.now) before.now r.items)) }
{
    match part {
        Proc::Skip => Ok(Some(Vec::from_slice(world.alloc(), before)?)),
        Proc::Assign { vars, values } => {
            let writes = writes_of(world, frame, vars.items(), values.items())?;
            let after = put(world, before, &writes)?;
            Ok(Some(after))
        }
        Proc::Seq(parts) => in_turn(world, frame, before, parts.items()),
        Proc::If(choices) => chosen(world, frame, before, choices.items()),
        _ => Ok(None),
    }
}
