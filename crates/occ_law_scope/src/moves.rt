ghost use Rattle.std.specs.Prelude.{◌≡◌, ◌↔◌, IfOk, IsTrue, false};
ghost use Rattle.occ_law_shape.specs.occ_law.Scope.{ChanPar, ChanSeq, ChanSwap, ChanUnused, VarFirst, VarLast, VarPar, VarSwap, VarUnused};
ghost use Rattle.occ_law_scope.specs.Moves.{InFirst};
ghost use Rattle.occ_law_scope.specs.Under.{name_of, under};
ghost use Rattle.occ_law_shape.specs.Answer.{IsAnswer};
ghost use Rattle.occ_names.specs.occ_meaning.Parallel.{two};
ghost use Rattle.occ_syntax.specs.Names.{free as is_free};
ghost use Rattle.occ_syntax.specs.Tree.{seq};
ghost use Rattle.occ_syntax.specs.View.{tree, trees};

use crate::declaration::{Declaration, taken_off};
use crate::mentions::{is_unused, is_unused_in_all};
use crate::turns::turns;
use occ_law_shape::shape;
use occ_syntax::{Memory, Name, Proc, same_proc, same_procs};
use std::alloc::Global;

/// VAR x: P = P, where x isn't free in P
pub(crate) fn var_unused(alloc: Global, left: &Proc, right: &Proc) -> Result<bool, Memory>
    ensures { IfOk result (IsAnswer VarUnused (tree left.now) (tree right.now)) }
{
    shape!(left, Var(name, _width, body) => goes(alloc, name, body, right))
}

/// CHAN c: P = P, where c isn't free in P
pub(crate) fn chan_unused(alloc: Global, left: &Proc, right: &Proc) -> Result<bool, Memory>
    ensures { IfOk result (IsAnswer ChanUnused (tree left.now) (tree right.now)) }
{
    shape!(left, Chan(name, _width, body) => goes(alloc, name, body, right))
}

/// Whether the right side is a process in which a name isn't free.
fn goes(alloc: Global, name: Name, body: &Proc, right: &Proc) -> Result<bool, Memory>
    ensures { IfOk result (λ answer. IsTrue answer
        ↔ ((tree right.now ≡ tree body.now) × (is_free (tree body.now) name.0 ≡ false))) }
{
    if !same_proc(right, body) {
        return Ok(false);
    }
    is_unused(alloc, name, body)
}

/// VAR x: D: P = D: VAR x: P, where D declares a variable or a channel
pub(crate) fn var_swap(left: &Proc, right: &Proc) -> Result<bool, Memory>
    ensures { IfOk result (IsAnswer VarSwap (tree left.now) (tree right.now)) }
{
    shape!(left, Var(name, width, body) => match taken_off(body) {
        Some((second, inner)) => Ok(are_swapped(Declaration::Var(name, width), second, inner, right)),
        None => Ok(false),
    })
}

/// CHAN c: CHAN d: P = CHAN d: CHAN c: P
pub(crate) fn chan_swap(left: &Proc, right: &Proc) -> Result<bool, Memory>
    ensures { IfOk result (IsAnswer ChanSwap (tree left.now) (tree right.now)) }
{
    shape!(left, Chan(name, width, body) => shape!(body, Chan(second, second_width, inner) => {
        Ok(are_swapped(Declaration::Chan(name, width), Declaration::Chan(second, second_width), inner, right))
    }))
}

/// Whether the right side is the second declaration of the first one of the process.
fn are_swapped(first: Declaration, second: Declaration, body: &Proc, right: &Proc) -> bool
    ensures { IsTrue result ↔ (tree right.now ≡ under second (under first (tree body.now))) }
{
    match second.body_of(right) {
        Some(inner) => first.governs(inner, body),
        None => false,
    }
}

/// VAR x: SEQ(P, Q) = SEQ(P, VAR x: Q), where x isn't free in P
pub(crate) fn var_first(alloc: Global, left: &Proc, right: &Proc) -> Result<bool, Memory>
    ensures { IfOk result (IsAnswer VarFirst (tree left.now) (tree right.now)) }
{
    shape!(left, Var(name, width, body) => match turns(body) {
        Some((first, second)) => {
            if !governs_second(Declaration::Var(name, width), first, second, right) {
                return Ok(false);
            }
            is_unused(alloc, name, first)
        }
        None => Ok(false),
    })
}

/// VAR x: SEQ(P, Q) = SEQ(VAR x: P, Q), where x isn't free in Q
pub(crate) fn var_last(alloc: Global, left: &Proc, right: &Proc) -> Result<bool, Memory>
    ensures { IfOk result (IsAnswer VarLast (tree left.now) (tree right.now)) }
{
    shape!(left, Var(name, width, body) => match turns(body) {
        Some((first, second)) => {
            if !governs_first(Declaration::Var(name, width), first, second, right) {
                return Ok(false);
            }
            is_unused(alloc, name, second)
        }
        None => Ok(false),
    })
}

/// CHAN c: SEQ(P, Q) = SEQ(CHAN c: P, CHAN c: Q)
pub(crate) fn chan_seq(left: &Proc, right: &Proc) -> Result<bool, Memory>
    ensures { IfOk result (IsAnswer ChanSeq (tree left.now) (tree right.now)) }
{
    shape!(left, Chan(name, width, body) => match turns(body) {
        Some((first, second)) => Ok(governs_each(Declaration::Chan(name, width), first, second, right)),
        None => Ok(false),
    })
}

/// Whether a whole process is the SEQ of a process and the declaration of another one.
fn governs_second(declaration: Declaration, first: &Proc, second: &Proc, whole: &Proc) -> bool
    ensures { IsTrue result ↔ (tree whole.now ≡ seq (two (tree first.now) (under declaration (tree second.now)))) }
{
    match turns(whole) {
        Some((one, other)) => same_proc(one, first) && declaration.governs(other, second),
        None => false,
    }
}

/// Whether a whole process is the SEQ of the declaration of a process and another one.
fn governs_first(declaration: Declaration, first: &Proc, second: &Proc, whole: &Proc) -> bool
    ensures { IsTrue result ↔ (tree whole.now ≡ seq (two (under declaration (tree first.now)) (tree second.now))) }
{
    match turns(whole) {
        Some((one, other)) => declaration.governs(one, first) && same_proc(other, second),
        None => false,
    }
}

/// Whether a whole process is the SEQ of the declarations of two processes.
fn governs_each(declaration: Declaration, first: &Proc, second: &Proc, whole: &Proc) -> bool
    ensures { IsTrue result
        ↔ (tree whole.now ≡ seq (two (under declaration (tree first.now)) (under declaration (tree second.now)))) }
{
    match turns(whole) {
        Some((one, other)) => declaration.governs(one, first) && declaration.governs(other, second),
        None => false,
    }
}

/// VAR x: PAR(P, Qs) = PAR(VAR x: P, Qs), where x isn't free in Qs
pub(crate) fn var_par(alloc: Global, left: &Proc, right: &Proc) -> Result<bool, Memory>
    ensures { IfOk result (IsAnswer VarPar (tree left.now) (tree right.now)) }
{
    shape!(left, Var(name, width, body) => shape!(body, Par(parts) => shape!(right, Par(others) => {
        is_in_first(alloc, Declaration::Var(name, width), parts, others)
    })))
}

/// CHAN c: PAR(P, Qs) = PAR(CHAN c: P, Qs), where c isn't free in Qs
pub(crate) fn chan_par(alloc: Global, left: &Proc, right: &Proc) -> Result<bool, Memory>
    ensures { IfOk result (IsAnswer ChanPar (tree left.now) (tree right.now)) }
{
    shape!(left, Chan(name, width, body) => shape!(body, Par(parts) => shape!(right, Par(others) => {
        is_in_first(alloc, Declaration::Chan(name, width), parts, others)
    })))
}

/// Whether a list of processes is another one with its first process under the declaration, and the rest doesn't use
/// the name.
fn is_in_first(
    alloc: Global,
    declaration: Declaration,
    parts: &[Proc],
    others: &[Proc],
) -> Result<bool, Memory>
    ensures { IfOk result (λ answer. IsTrue answer ↔ InFirst declaration (trees parts.now) (trees others.now)) }
{
    let [first, rest @ ..] = parts else {
        return Ok(false);
    };
    let [other, other_rest @ ..] = others else {
        return Ok(false);
    };
    if !declaration.governs(other, first) {
        return Ok(false);
    }
    if !same_procs(other_rest, rest) {
        return Ok(false);
    }
    is_unused_in_all(alloc, declaration.name(), rest)
}
