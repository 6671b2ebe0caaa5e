ghost use Rattle.std.specs.Prelude.{◌≡◌, ℕ, List, [], length, OnOk, IfOk};
ghost use Rattle.occ_syntax.specs.Tree.{no_branch, no_case, no_tree};
ghost use Rattle.occ_syntax.specs.View.{branches, cases, in_alternatives, in_choices, in_procs, tree, trees};
ghost use Rattle.occ_parse_forms.specs.Shape.{shape};
ghost use Rattle.occ_parse_forms.specs.occ_lex.Symbols.{Extends};
ghost use Rattle.occ_parse_rules.specs.Forest.{forest};
ghost use Rattle.occ_parse_rules.specs.Unrolled.{as_parts, branch_line, branches_then, case_line, cases_then, construct as construct_of, copied, no_lines, process as process_of, slot as slot_of, trees_then, unrolled};
ghost use Rattle.occ_parse_unroll.specs.Elements.{as_slots, branch_places, case_places, construct_places, copied_places, elements, process_places, brought};
ghost use Rattle.occ_parse_unroll.specs.Known.{AreKnownLines, IsKnownLine};
ghost use Rattle.occ_parse_unroll.specs.Numbers.{numbering};
ghost use Rattle.occ_parse_unroll.specs.Present.{values_of};

use crate::context::Context;
use crate::counting::{alternatives, choices};
use crate::expression::expression;
use crate::line::{guard, simple};
use crate::naming::declare;
use crate::numbering::Numbering;
use crate::reading::{condition, declaration, group, is_guard, nested};
use occ_parse_forms::{Form, Group, Times};
use occ_parse_rules::Node;
use occ_syntax::{Alternatives, Choices, Memory, Names, Proc, Procs, Scope, Width};
use std::alloc::Global;

/// The process that the lines of a slot stand for: that of the first line that is no declaration, within the
/// declarations before it.
#[cycle(unroll)]
pub fn slot<S: Numbering>(
    source: &S,
    names: &mut Names,
    context: &mut Context,
    nodes: &[Node],
) -> Result<Proc, Memory>
    requires { S.asks source.now → AreKnownLines (length names.old) (forest nodes.now) }
    ensures tree { IfOk result (λ p. (t : List (List ℕ)) → Extends names.new t
        → tree p ≡ slot_of (unrolled (numbering (S.number source.now t)) (forest nodes.now)) context.old.scopes (values_of context.old.values)) }
    ensures scopes { OnOk result (context.new.scopes ≡ context.old.scopes) }
    ensures values { OnOk result (context.new.values ≡ context.old.values) }
    ensures table { OnOk result (names.new ≡ brought (S.brings source.now) names.old
        ((elements (forest nodes.now)).first context.old.scopes (values_of context.old.values))) }
    ensures extends { Extends names.old names.new }
{
    let alloc = source.alloc();
    let depth = context.scopes.depth();
    let mut waiting = Scope::new(alloc);
    for node in nodes {
        let (_, form, below) = node.seen();
        match declaration(form) {
            Some(d) => {
                declare(
                    source,
                    names,
                    context,
                    d.kind,
                    d.declared.items(),
                    &mut waiting,
                )?;
            }
            None => {
                let part = process(source, names, context, form, below)?;
                context.scopes.close(depth);
                return part.within(alloc, waiting.items());
            }
        }
    }
    context.scopes.close(depth);
    Ok(Proc::Skip)
}

/// Adds the processes that the lines of slots stand for.
#[cycle(unroll)]
fn add_slots<S: Numbering>(
    source: &S,
    names: &mut Names,
    context: &mut Context,
    nodes: &[Node],
    parts: &mut Procs,
) -> Result<(), Memory>
    requires { S.asks source.now → AreKnownLines (length names.old) (forest nodes.now) }
    ensures parts { OnOk result ((t : List (List ℕ)) → Extends names.new t
        → trees (in_procs parts.new) ≡ trees_then (trees (in_procs parts.old))
        (as_parts (unrolled (numbering (S.number source.now t)) (forest nodes.now)) context.old.scopes (values_of context.old.values))) }
    ensures scopes { OnOk result (context.new.scopes ≡ context.old.scopes) }
    ensures values { OnOk result (context.new.values ≡ context.old.values) }
    ensures table { OnOk result (names.new ≡ brought (S.brings source.now) names.old
        (as_slots (elements (forest nodes.now)) context.old.scopes (values_of context.old.values))) }
    ensures extends { Extends names.old names.new }
{
    let alloc = source.alloc();
    let depth = context.scopes.depth();
    let mut waiting = Scope::new(alloc);
    for node in nodes {
        let (_, form, below) = node.seen();
        match declaration(form) {
            Some(d) => {
                declare(
                    source,
                    names,
                    context,
                    d.kind,
                    d.declared.items(),
                    &mut waiting,
                )?;
            }
            None => {
                let part = process(source, names, context, form, below)?;
                parts.push(part.within(alloc, waiting.items())?)?;
                context.scopes.close(depth);
                waiting = Scope::new(alloc);
            }
        }
    }
    context.scopes.close(depth);
    Ok(())
}

/// The process that a line begins.
#[cycle(unroll)]
fn process<S: Numbering>(
    source: &S,
    names: &mut Names,
    context: &mut Context,
    form: &Form,
    below: &[Node],
) -> Result<Proc, Memory>
    requires line { S.asks source.now → IsKnownLine (length names.old) (shape form.now) }
    requires below { S.asks source.now → AreKnownLines (length names.old) (forest below.now) }
    ensures tree { IfOk result (λ p. (t : List (List ℕ)) → Extends names.new t
        → tree p ≡ process_of (numbering (S.number source.now t)) (shape form.now) (unrolled (numbering (S.number source.now t)) (forest below.now)) context.old.scopes (values_of context.old.values)) }
    ensures scopes { OnOk result (context.new.scopes ≡ context.old.scopes) }
    ensures values { OnOk result (context.new.values ≡ context.old.values) }
    ensures table { OnOk result (names.new ≡ brought (S.brings source.now) names.old
        (process_places (shape form.now) (elements (forest below.now)) context.old.scopes (values_of context.old.values))) }
    ensures extends { Extends names.old names.new }
{
    match group(form) {
        Some((group, times)) => construct(source, names, context, group, times, below),
        None => simple(source, names, context, form),
    }
}

#[cycle(unroll)]
fn construct<S: Numbering>(
    source: &S,
    names: &mut Names,
    context: &mut Context,
    group: Group,
    times: Option<Times>,
    below: &[Node],
) -> Result<Proc, Memory>
    requires { S.asks source.now → AreKnownLines (length names.old) (forest below.now) }
    ensures tree { IfOk result (λ p. (t : List (List ℕ)) → Extends names.new t
        → tree p ≡ construct_of group times (unrolled (numbering (S.number source.now t)) (forest below.now)) context.old.scopes (values_of context.old.values)) }
    ensures scopes { OnOk result (context.new.scopes ≡ context.old.scopes) }
    ensures values { OnOk result (context.new.values ≡ context.old.values) }
    ensures table { OnOk result (names.new ≡ brought (S.brings source.now) names.old
        (construct_places group times (elements (forest below.now)) context.old.scopes (values_of context.old.values))) }
    ensures extends { Extends names.old names.new }
{
    let alloc = source.alloc();
    match group {
        Group::Seq => {
            let mut parts = Procs::new(alloc);
            add_slot_copies(source, names, context, times, below, &mut parts)?;
            Ok(Proc::Seq(parts))
        }
        Group::Par => {
            let mut parts = Procs::new(alloc);
            add_slot_copies(source, names, context, times, below, &mut parts)?;
            Ok(Proc::Par(parts))
        }
        Group::If => {
            let mut list = Choices::new(alloc);
            add_choice_copies(source, names, context, times, below, &mut list)?;
            Ok(Proc::If(list))
        }
        Group::Alt => {
            let mut list = Alternatives::new(alloc);
            add_alternative_copies(source, names, context, times, below, &mut list)?;
            Ok(Proc::Alt(list))
        }
    }
}

#[cycle(unroll)]
fn add_slot_copies<S: Numbering>(
    source: &S,
    names: &mut Names,
    context: &mut Context,
    times: Option<Times>,
    below: &[Node],
    parts: &mut Procs,
) -> Result<(), Memory>
    requires { S.asks source.now → AreKnownLines (length names.old) (forest below.now) }
    ensures parts { OnOk result ((t : List (List ℕ)) → Extends names.new t
        → trees (in_procs parts.new) ≡ trees_then (trees (in_procs parts.old))
        (copied trees_then no_tree times context.old.scopes (values_of context.old.values) (as_parts (unrolled (numbering (S.number source.now t)) (forest below.now))))) }
    ensures scopes { OnOk result (context.new.scopes ≡ context.old.scopes) }
    ensures values { OnOk result (context.new.values ≡ context.old.values) }
    ensures table { OnOk result (names.new ≡ brought (S.brings source.now) names.old
        (copied_places times context.old.scopes (values_of context.old.values) (as_slots (elements (forest below.now))))) }
    ensures extends { Extends names.old names.new }
{
    let Some(times) = times else {
        return add_slots(source, names, context, below, parts);
    };
    for copy in 0..times.count {
        context.enter(times, copy)?;
        add_slots(source, names, context, below, parts)?;
        context.leave();
    }
    Ok(())
}

/// Adds the choices that lines stand for.
#[cycle(unroll)]
fn add_choices<S: Numbering>(
    source: &S,
    names: &mut Names,
    context: &mut Context,
    nodes: &[Node],
    list: &mut Choices,
) -> Result<(), Memory>
    requires { S.asks source.now → AreKnownLines (length names.old) (forest nodes.now) }
    ensures list { OnOk result ((t : List (List ℕ)) → Extends names.new t
        → cases (in_choices list.new) ≡ cases_then (cases (in_choices list.old))
        ((unrolled (numbering (S.number source.now t)) (forest nodes.now)).cases context.old.scopes (values_of context.old.values))) }
    ensures scopes { OnOk result (context.new.scopes ≡ context.old.scopes) }
    ensures values { OnOk result (context.new.values ≡ context.old.values) }
    ensures table { OnOk result (names.new ≡ brought (S.brings source.now) names.old
        ((elements (forest nodes.now)).cases context.old.scopes (values_of context.old.values))) }
    ensures extends { Extends names.old names.new }
{
    for node in nodes {
        let (_, form, below) = node.seen();
        add_choice(source, names, context, form, below, list)?;
    }
    Ok(())
}

#[cycle(unroll)]
fn add_choice<S: Numbering>(
    source: &S,
    names: &mut Names,
    context: &mut Context,
    form: &Form,
    below: &[Node],
    list: &mut Choices,
) -> Result<(), Memory>
    requires line { S.asks source.now → IsKnownLine (length names.old) (shape form.now) }
    requires below { S.asks source.now → AreKnownLines (length names.old) (forest below.now) }
    ensures list { OnOk result ((t : List (List ℕ)) → Extends names.new t
        → cases (in_choices list.new) ≡ cases_then (cases (in_choices list.old))
        (case_line (numbering (S.number source.now t)) (shape form.now) (unrolled (numbering (S.number source.now t)) (forest below.now)) no_lines context.old.scopes (values_of context.old.values))) }
    ensures scopes { OnOk result (context.new.scopes ≡ context.old.scopes) }
    ensures values { OnOk result (context.new.values ≡ context.old.values) }
    ensures table { OnOk result (names.new ≡ brought (S.brings source.now) names.old
        (case_places (shape form.now) (elements (forest below.now)) context.old.scopes (values_of context.old.values))) }
    ensures extends { Extends names.old names.new }
{
    if let Some(phrase) = condition(form) {
        let condition = expression(source, names, context, phrase, Width::Bool)?;
        let part = slot(source, names, context, below)?;
        list.push((condition, part))?;
        return Ok(());
    }
    match nested(form, Group::If) {
        Some(times) => add_choice_copies(source, names, context, times, below, list),
        None => Ok(()),
    }
}

// Copies of lines that stand for no choice are passed over, so that no time goes into them.
#[cycle(unroll)]
fn add_choice_copies<S: Numbering>(
    source: &S,
    names: &mut Names,
    context: &mut Context,
    times: Option<Times>,
    below: &[Node],
    list: &mut Choices,
) -> Result<(), Memory>
    requires { S.asks source.now → AreKnownLines (length names.old) (forest below.now) }
    ensures list { OnOk result ((t : List (List ℕ)) → Extends names.new t
        → cases (in_choices list.new) ≡ cases_then (cases (in_choices list.old))
        (copied cases_then no_case times context.old.scopes (values_of context.old.values) (unrolled (numbering (S.number source.now t)) (forest below.now)).cases)) }
    ensures scopes { OnOk result (context.new.scopes ≡ context.old.scopes) }
    ensures values { OnOk result (context.new.values ≡ context.old.values) }
    ensures table { OnOk result (names.new ≡ brought (S.brings source.now) names.old
        (copied_places times context.old.scopes (values_of context.old.values) (elements (forest below.now)).cases)) }
    ensures extends { Extends names.old names.new }
{
    let Some(times) = times else {
        return add_choices(source, names, context, below, list);
    };
    if choices(below) == 0 {
        return Ok(());
    }
    for copy in 0..times.count {
        context.enter(times, copy)?;
        add_choices(source, names, context, below, list)?;
        context.leave();
    }
    Ok(())
}

/// Adds the alternatives that lines stand for.
#[cycle(unroll)]
fn add_alternatives<S: Numbering>(
    source: &S,
    names: &mut Names,
    context: &mut Context,
    nodes: &[Node],
    list: &mut Alternatives,
) -> Result<(), Memory>
    requires { S.asks source.now → AreKnownLines (length names.old) (forest nodes.now) }
    ensures list { OnOk result ((t : List (List ℕ)) → Extends names.new t
        → branches (in_alternatives list.new) ≡ branches_then (branches (in_alternatives list.old))
        ((unrolled (numbering (S.number source.now t)) (forest nodes.now)).branches context.old.scopes (values_of context.old.values))) }
    ensures scopes { OnOk result (context.new.scopes ≡ context.old.scopes) }
    ensures values { OnOk result (context.new.values ≡ context.old.values) }
    ensures table { OnOk result (names.new ≡ brought (S.brings source.now) names.old
        ((elements (forest nodes.now)).branches context.old.scopes (values_of context.old.values))) }
    ensures extends { Extends names.old names.new }
{
    for node in nodes {
        let (_, form, below) = node.seen();
        add_alternative(source, names, context, form, below, list)?;
    }
    Ok(())
}

#[cycle(unroll)]
fn add_alternative<S: Numbering>(
    source: &S,
    names: &mut Names,
    context: &mut Context,
    form: &Form,
    below: &[Node],
    list: &mut Alternatives,
) -> Result<(), Memory>
    requires line { S.asks source.now → IsKnownLine (length names.old) (shape form.now) }
    requires below { S.asks source.now → AreKnownLines (length names.old) (forest below.now) }
    ensures list { OnOk result ((t : List (List ℕ)) → Extends names.new t
        → branches (in_alternatives list.new) ≡ branches_then (branches (in_alternatives list.old))
        (branch_line (numbering (S.number source.now t)) (shape form.now) (unrolled (numbering (S.number source.now t)) (forest below.now)) no_lines context.old.scopes (values_of context.old.values))) }
    ensures scopes { OnOk result (context.new.scopes ≡ context.old.scopes) }
    ensures values { OnOk result (context.new.values ≡ context.old.values) }
    ensures table { OnOk result (names.new ≡ brought (S.brings source.now) names.old
        (branch_places (shape form.now) (elements (forest below.now)) context.old.scopes (values_of context.old.values))) }
    ensures extends { Extends names.old names.new }
{
    if is_guard(form) {
        let guard = guard(source, names, context, form)?;
        let part = slot(source, names, context, below)?;
        list.push((guard, part))?;
        return Ok(());
    }
    match nested(form, Group::Alt) {
        Some(times) => add_alternative_copies(source, names, context, times, below, list),
        None => Ok(()),
    }
}

// Copies of lines that stand for no alternative are passed over, so that no time goes into them.
#[cycle(unroll)]
fn add_alternative_copies<S: Numbering>(
    source: &S,
    names: &mut Names,
    context: &mut Context,
    times: Option<Times>,
    below: &[Node],
    list: &mut Alternatives,
) -> Result<(), Memory>
    requires { S.asks source.now → AreKnownLines (length names.old) (forest below.now) }
    ensures list { OnOk result ((t : List (List ℕ)) → Extends names.new t
        → branches (in_alternatives list.new) ≡ branches_then (branches (in_alternatives list.old))
        (copied branches_then no_branch times context.old.scopes (values_of context.old.values) (unrolled (numbering (S.number source.now t)) (forest below.now)).branches)) }
    ensures scopes { OnOk result (context.new.scopes ≡ context.old.scopes) }
    ensures values { OnOk result (context.new.values ≡ context.old.values) }
    ensures table { OnOk result (names.new ≡ brought (S.brings source.now) names.old
        (copied_places times context.old.scopes (values_of context.old.values) (elements (forest below.now)).branches)) }
    ensures extends { Extends names.old names.new }
{
    let Some(times) = times else {
        return add_alternatives(source, names, context, below, list);
    };
    if alternatives(below) == 0 {
        return Ok(());
    }
    for copy in 0..times.count {
        context.enter(times, copy)?;
        add_alternatives(source, names, context, below, list)?;
        context.leave();
    }
    Ok(())
}
