ghost use Rattle.std.specs.Prelude.{◌≡◌, IfOk, [], false};
ghost use Rattle.occ_law_seq.specs.occ_law.Instances.{IsOnly};
ghost use Rattle.occ_law_right.specs.Where.{InFirst, IsWhere};
ghost use Rattle.occ_law_seq.specs.occ_law.Scope.{ChanPar, ChanSeq, ChanSwap, ChanUnused, VarFirst, VarLast, VarPar, VarSwap, VarUnused};
ghost use Rattle.occ_law_scope.specs.occ_meaning.Parallel.{two};
ghost use Rattle.occ_syntax.specs.Declarations.{declaring};
ghost use Rattle.occ_syntax.specs.Names.{free as is_free};
ghost use Rattle.occ_syntax.specs.Tree.{and_tree, par, seq};
ghost use Rattle.occ_syntax.specs.View.{tree, trees};

use crate::declaration::Declaration;
use occ_law_scope::{is_unused, is_unused_in_all};
use occ_law_seq::{in_turn, pair};
use occ_syntax::{Kind, Memory, Name, Proc, Procs};
use std::alloc::Global;

/// VAR x: P = P, where x isn't free in P
pub(crate) fn var_unused(alloc: Global, left: &Proc) -> Result<Option<Proc>, Memory>
    ensures { IfOk result (IsOnly (VarUnused []) (tree left.now)) }
{
    form!(left, Var(name, _width, body) => bare(alloc, name, body))
}

/// CHAN c: P = P, where c isn't free in P
pub(crate) fn chan_unused(alloc: Global, left: &Proc) -> Result<Option<Proc>, Memory>
    ensures { IfOk result (IsOnly (ChanUnused []) (tree left.now)) }
{
    form!(left, Chan(name, _width, body) => bare(alloc, name, body))
}

/// A process in which a name isn't free; None exactly where it is free.
fn bare(alloc: Global, name: Name, body: &Proc) -> Result<Option<Proc>, Memory>
    ensures { IfOk result (IsWhere (is_free (tree body.now) name.0 ≡ false) (tree body.now)) }
{
    let is_spared = is_unused(alloc, name, body)?;
    if !is_spared {
        return Ok(None);
    }
    Ok(Some(body.copy(alloc)?))
}

/// VAR x: D: P = D: VAR x: P, where D declares a variable or a channel
pub(crate) fn var_swap(alloc: Global, left: &Proc) -> Result<Option<Proc>, Memory>
    ensures { IfOk result (IsOnly (VarSwap []) (tree left.now)) }
{
    form!(left, Var(name, width, body) => match body.declared() {
        Some((second, kind, inner)) => {
            let first = Declaration { name, kind: Kind::Var(width) };
            Ok(Some(swapped(alloc, first, Declaration { name: second, kind }, inner)?))
        }
        None => Ok(None),
    })
}

/// CHAN c: CHAN d: P = CHAN d: CHAN c: P
pub(crate) fn chan_swap(alloc: Global, left: &Proc) -> Result<Option<Proc>, Memory>
    ensures { IfOk result (IsOnly (ChanSwap []) (tree left.now)) }
{
    form!(left, Chan(name, width, body) => form!(body, Chan(second, second_width, inner) => {
        let first = Declaration { name, kind: Kind::Chan(width, None) };
        let other = Declaration { name: second, kind: Kind::Chan(second_width, None) };
        Ok(Some(swapped(alloc, first, other, inner)?))
    }))
}

/// The second declaration of the first one of a process.
fn swapped(
    alloc: Global,
    first: Declaration,
    second: Declaration,
    body: &Proc,
) -> Result<Proc, Memory>
    ensures { IfOk result (λ made. tree made ≡ declaring second.name.0 second.kind (declaring first.name.0 first.kind (tree body.now))) }
{
    first
        .over(alloc, body)?
        .declare(alloc, second.name, second.kind)
}

/// VAR x: SEQ(P, Q) = SEQ(P, VAR x: Q), where x isn't free in P
pub(crate) fn var_first(alloc: Global, left: &Proc) -> Result<Option<Proc>, Memory>
    ensures { IfOk result (IsOnly (VarFirst []) (tree left.now)) }
{
    form!(left, Var(name, width, body) => form!(body, Seq(parts) => match pair(parts) {
        Some((first, second)) => {
            into_second(alloc, Declaration { name, kind: Kind::Var(width) }, first, second)
        }
        None => Ok(None),
    }))
}

/// VAR x: SEQ(P, Q) = SEQ(VAR x: P, Q), where x isn't free in Q
pub(crate) fn var_last(alloc: Global, left: &Proc) -> Result<Option<Proc>, Memory>
    ensures { IfOk result (IsOnly (VarLast []) (tree left.now)) }
{
    form!(left, Var(name, width, body) => form!(body, Seq(parts) => match pair(parts) {
        Some((first, second)) => {
            before_second(alloc, Declaration { name, kind: Kind::Var(width) }, first, second)
        }
        None => Ok(None),
    }))
}

/// CHAN c: SEQ(P, Q) = SEQ(CHAN c: P, CHAN c: Q)
pub(crate) fn chan_seq(alloc: Global, left: &Proc) -> Result<Option<Proc>, Memory>
    ensures { IfOk result (IsOnly (ChanSeq []) (tree left.now)) }
{
    form!(left, Chan(name, width, body) => form!(body, Seq(parts) => match pair(parts) {
        Some((first, second)) => {
            let declaration = Declaration { name, kind: Kind::Chan(width, None) };
            let one = declaration.over(alloc, first)?;
            Ok(Some(in_turn(alloc, one, declaration.over(alloc, second)?)?))
        }
        None => Ok(None),
    }))
}

/// The SEQ of a process and the declaration of another one, where the name isn't free in the first one; None exactly
/// where it is.
fn into_second(
    alloc: Global,
    declaration: Declaration,
    first: &Proc,
    second: &Proc,
) -> Result<Option<Proc>, Memory>
    ensures { IfOk result (IsWhere (is_free (tree first.now) declaration.name.0 ≡ false)
        (seq (two (tree first.now) (declaring declaration.name.0 declaration.kind (tree second.now))))) }
{
    let is_spared = is_unused(alloc, declaration.name, first)?;
    if !is_spared {
        return Ok(None);
    }
    let one = first.copy(alloc)?;
    Ok(Some(in_turn(alloc, one, declaration.over(alloc, second)?)?))
}

/// The SEQ of the declaration of a process and another one, where the name isn't free in the other one; None exactly
/// where it is.
fn before_second(
    alloc: Global,
    declaration: Declaration,
    first: &Proc,
    second: &Proc,
) -> Result<Option<Proc>, Memory>
    ensures { IfOk result (IsWhere (is_free (tree second.now) declaration.name.0 ≡ false)
        (seq (two (declaring declaration.name.0 declaration.kind (tree first.now)) (tree second.now)))) }
{
    let is_spared = is_unused(alloc, declaration.name, second)?;
    if !is_spared {
        return Ok(None);
    }
    let one = declaration.over(alloc, first)?;
    Ok(Some(in_turn(alloc, one, second.copy(alloc)?)?))
}

/// VAR x: PAR(P, Qs) = PAR(VAR x: P, Qs), where x isn't free in Qs
pub(crate) fn var_par(alloc: Global, left: &Proc) -> Result<Option<Proc>, Memory>
    ensures { IfOk result (IsOnly (VarPar []) (tree left.now)) }
{
    form!(left, Var(name, width, body) => into_first(alloc, Declaration { name, kind: Kind::Var(width) }, body))
}

/// CHAN c: PAR(P, Qs) = PAR(CHAN c: P, Qs), where c isn't free in Qs
pub(crate) fn chan_par(alloc: Global, left: &Proc) -> Result<Option<Proc>, Memory>
    ensures { IfOk result (IsOnly (ChanPar []) (tree left.now)) }
{
    form!(left, Chan(name, width, body) => into_first(alloc, Declaration { name, kind: Kind::Chan(width, None) }, body))
}

/// A PAR with its first process under the declaration, where the name isn't free in the rest.
fn into_first(alloc: Global, declaration: Declaration, whole: &Proc) -> Result<Option<Proc>, Memory>
    ensures { IfOk result (IsOnly (InFirst declaration.name.0 declaration.kind) (tree whole.now)) }
{
    form!(whole, Par(parts) => {
        let [first, rest @ ..] = parts else {
            return Ok(None);
        };
        let is_spared = is_unused_in_all(alloc, declaration.name, rest)?;
        if !is_spared {
            return Ok(None);
        }
        Ok(Some(beside(alloc, declaration.over(alloc, first)?, rest)?))
    })
}

/// The PAR of a process and copies of others.
fn beside(alloc: Global, first: Proc, rest: &[Proc]) -> Result<Proc, Memory>
    ensures { IfOk result (λ made. tree made ≡ par (and_tree (tree first) (trees rest.now))) }
{
    let mut made = Procs::new(alloc);
    made.push(first)?;
    for part in rest {
        made.push(part.copy(alloc)?)?;
    }
    Ok(Proc::Par(made))
}
