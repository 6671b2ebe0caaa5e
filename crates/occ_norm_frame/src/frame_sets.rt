ghost use Rattle.std.specs.Prelude.{◌≡◌, true, IfOk, IsSome};
ghost use Rattle.occ_bits.specs.Layout.{environment_in, state_of};
ghost use Rattle.occ_bits.specs.Words.{IsValue};
ghost use Rattle.occ_bits.specs.occ_dd.Store.{IsSet};
ghost use Rattle.occ_syntax.specs.Eval.{is_true};
ghost use Rattle.occ_syntax.specs.Types.{is_condition, type_of};
ghost use Rattle.occ_syntax.specs.View.{exp};
ghost use Rattle.occ_norm_frame.specs.Maps.{Extends};

use crate::Normaliser;
use crate::frame::Frame;
use occ_bits::{SetId, WordBits, condition, word};
use occ_syntax::{Expr, Memory};
use std::alloc::Global;

/// The states in which a condition is TRUE.
pub fn holds(
    alloc: Global,
    world: &mut Normaliser,
    frame: &Frame,
    expr: &Expr,
) -> Result<SetId, Memory>
    requires { is_condition (environment_in frame.now.layout) (exp expr.now) ≡ true }
    ensures extends { Extends world.old world.new }
    ensures set { IfOk result (λ r. IsSet world.new.store r
        (λ x. is_true (environment_in frame.now.layout) (exp expr.now) (state_of frame.now.layout x))) }
{
    condition(
        alloc,
        &mut world.lifting.weaver.world.store,
        &frame.layout,
        expr,
    )
}

/// The digits of a value.
pub fn digits(
    alloc: Global,
    world: &mut Normaliser,
    frame: &Frame,
    expr: &Expr,
) -> Result<WordBits, Memory>
    requires { IsSome (type_of (environment_in frame.now.layout) (exp expr.now)) }
    ensures extends { Extends world.old world.new }
    ensures value { IfOk result (λ r. IsValue world.new.store frame.now.layout (exp expr.now) r) }
{
    word(
        alloc,
        &mut world.lifting.weaver.world.store,
        &frame.layout,
        expr,
    )
}
