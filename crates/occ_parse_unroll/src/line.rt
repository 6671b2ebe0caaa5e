ghost use Rattle.std.specs.Prelude.{◌≡◌, ◌<◌, ◌++◌, ℕ, List, true, false, length, map, OnOk, IfOk};
ghost use Rattle.std.specs.List.{AllByRecursion};
ghost use Rattle.occ_syntax.specs.Tree.{assign as assignment};
ghost use Rattle.occ_syntax.specs.View.{exp, tree, waiting};
ghost use Rattle.occ_parse_forms.specs.Shape.{all_said, shape};
ghost use Rattle.occ_parse_forms.specs.occ_lex.Symbols.{Extends};
ghost use Rattle.occ_parse_rules.specs.Unrolled.{Lines, item_number, process, values as all_values};
ghost use Rattle.occ_parse_unroll.specs.Elements.{Elements, guard_places, items_places, process_places, values_places, brought};
ghost use Rattle.occ_parse_unroll.specs.Guards.{guard_condition, guard_wait};
ghost use Rattle.occ_parse_unroll.specs.Known.{IsKnownItem, IsKnownLine, IsKnownSaid};
ghost use Rattle.occ_parse_unroll.specs.Numbers.{numbering};
ghost use Rattle.occ_parse_unroll.specs.Present.{values_of};
ghost use Rattle.occ_parse_unroll.specs.Reading.{is_group, is_guard};

use crate::context::Context;
use crate::expression::{expression, input, left_names, output, values, wait};
use crate::numbering::Numbering;
use occ_parse_forms::{Form, Item, Phrase};
use occ_syntax::{Expr, Guard, Memory, Names, Proc, Wait, Width};
use std::alloc::Global;

#[tactic(auto, unfolding(crate::specs::tree))]
fn assign<S: Numbering>(
    source: &S,
    names: &mut Names,
    context: &Context,
    left: &[Item],
    right: &[Phrase],
) -> Result<Proc, Memory>
    requires left { S.asks source.now → AllByRecursion (IsKnownItem (length names.old)) left.now }
    requires right { S.asks source.now → AllByRecursion (IsKnownSaid (length names.old)) (all_said right.now) }
    ensures tree { IfOk result (λ p. (t : List (List ℕ)) → Extends names.new t
        → let ρ = values_of context.now.values in
        tree p ≡ assignment (map (item_number (numbering (S.number source.now t)) ρ) left.now)
        (all_values (numbering (S.number source.now t)) context.now.scopes ρ left.now (all_said right.now))) }
    ensures table { OnOk result (let ρ = values_of context.now.values in
        names.new ≡ brought (S.brings source.now) names.old (items_places ρ left.now ++ values_places context.now.scopes ρ left.now (all_said right.now))) }
    ensures extends { Extends names.old names.new }
{
    let vars = left_names(source, names, context, left)?;
    let values = values(source, names, context, left, right)?;
    Ok(Proc::Assign { vars, values })
}

/// The process of a line that begins no construct. A line that begins no process counts as SKIP.
#[tactic(auto, unfolding(crate::specs::tree))]
pub fn simple<S: Numbering>(
    source: &S,
    names: &mut Names,
    context: &Context,
    form: &Form,
) -> Result<Proc, Memory>
    requires known { S.asks source.now → IsKnownLine (length names.old) (shape form.now) }
    requires simple { is_group (shape form.now) ≡ false }
    ensures tree { IfOk result (λ p. (below : Lines) (t : List (List ℕ)) → Extends names.new t
        → tree p ≡ process (numbering (S.number source.now t)) (shape form.now) below context.now.scopes (values_of context.now.values)) }
    ensures table { OnOk result ((below : Elements)
        → names.new ≡ brought (S.brings source.now) names.old (process_places (shape form.now) below context.now.scopes (values_of context.now.values))) }
    ensures extends { Extends names.old names.new }
{
    match form {
        Form::Stop => Ok(Proc::Stop),
        Form::Assign { left, right } => {
            assign(source, names, context, left.items(), right.items())
        }
        Form::Input { chan, var } => {
            let (chan, var) = input(source, names, context, *chan, *var)?;
            Ok(Proc::Input { chan, var })
        }
        Form::Output { chan, value } => {
            let (chan, value) = output(source, names, context, *chan, value)?;
            Ok(Proc::Output { chan, value })
        }
        Form::Group { .. } => unreachable!(),
        _ => Ok(Proc::Skip),
    }
}

/// The guard that a line is.
pub fn guard<S: Numbering>(
    source: &S,
    names: &mut Names,
    context: &Context,
    form: &Form,
) -> Result<Guard, Memory>
    requires known { S.asks source.now → IsKnownLine (length names.old) (shape form.now) }
    requires guard { is_guard (shape form.now) ≡ true }
    ensures condition { IfOk result (λ g. (t : List (List ℕ)) → Extends names.new t
        → exp g.condition ≡ guard_condition (numbering (S.number source.now t)) context.now.scopes (values_of context.now.values) (shape form.now)) }
    ensures wait { IfOk result (λ g. (t : List (List ℕ)) → Extends names.new t
        → waiting g.wait ≡ guard_wait (numbering (S.number source.now t)) context.now.scopes (values_of context.now.values) (shape form.now)) }
    ensures table { OnOk result (names.new ≡ brought (S.brings source.now) names.old (guard_places context.now.scopes (values_of context.now.values) (shape form.now))) }
    ensures extends { Extends names.old names.new }
{
    match form {
        Form::Input { chan, var } => {
            let (chan, var) = input(source, names, context, *chan, *var)?;
            Ok(Guard {
                condition: Expr::Bool(true),
                wait: Wait::Get { chan, var },
            })
        }
        Form::Output { chan, value } => {
            let (chan, value) = output(source, names, context, *chan, value)?;
            Ok(Guard {
                condition: Expr::Bool(true),
                wait: Wait::Put { chan, value },
            })
        }
        Form::Guard { condition, wants } => {
            let condition = expression(source, names, context, condition, Width::Bool)?;
            let wait = wait(source, names, context, wants)?;
            Ok(Guard { condition, wait })
        }
        _ => unreachable!(),
    }
}
