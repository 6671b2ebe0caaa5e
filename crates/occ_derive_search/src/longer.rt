//! Lists that begin, and with one item more at their end.

ghost use Rattle.std.specs.Prelude.{◌≡◌, IfOk, Some};
ghost use Rattle.occ_derive_search.specs.Items.{IsOpened};
ghost use Rattle.occ_derive_search.specs.Longer.{longer_alt, longer_assignment, longer_if, longer_row};
ghost use Rattle.occ_syntax.specs.Tree.{Tree, alt, no_branch, no_case, no_tree, par, select, seq};
ghost use Rattle.occ_syntax.specs.View.{exp, tree, waiting};

use occ_syntax::{Alternatives, Choices, Expr, Exprs, Guard, Memory, Name, NameList, Proc, Procs};
use std::alloc::Global;
use std::mem::replace;

/// SEQ without a part.
pub(crate) fn seq_none(alloc: Global) -> Proc
    ensures { tree result ≡ seq no_tree }
{
    Proc::Seq(Procs::new(alloc))
}

/// PAR without a part.
pub(crate) fn par_none(alloc: Global) -> Proc
    ensures { tree result ≡ par no_tree }
{
    Proc::Par(Procs::new(alloc))
}

/// IF without a choice.
pub(crate) fn if_none(alloc: Global) -> Proc
    ensures { tree result ≡ select no_case }
{
    Proc::If(Choices::new(alloc))
}

/// ALT without an alternative.
pub(crate) fn alt_none(alloc: Global) -> Proc
    ensures { tree result ≡ alt no_branch }
{
    Proc::Alt(Alternatives::new(alloc))
}

/// A process with items, taken apart.
#[derive(Drop)]
pub(crate) enum Items {
    Assign(NameList, Exprs),
    Seq(Procs),
    Par(Procs),
    If(Choices),
    Alt(Alternatives),
    Other,
}

/// Takes a process with items apart.
#[tactic(auto, unfolding(crate::specs::tree))]
fn opened(alloc: Global, mut whole: Proc) -> Items
    ensures { IsOpened result (tree whole) }
{
    match &mut whole {
        Proc::Skip => Items::Other,
        Proc::Stop => Items::Other,
        Proc::Assign { vars, values } => Items::Assign(
            replace(vars, NameList::new(alloc)),
            replace(values, Exprs::new(alloc)),
        ),
        Proc::Input { chan: _, var: _ } => Items::Other,
        Proc::Output { chan: _, value: _ } => Items::Other,
        Proc::Seq(parts) => Items::Seq(replace(parts, Procs::new(alloc))),
        Proc::Par(parts) => Items::Par(replace(parts, Procs::new(alloc))),
        Proc::If(choices) => Items::If(replace(choices, Choices::new(alloc))),
        Proc::Alt(alternatives) => Items::Alt(replace(alternatives, Alternatives::new(alloc))),
        Proc::Var {
            name: _,
            width: _,
            body: _,
        } => Items::Other,
        Proc::Chan {
            name: _,
            width: _,
            body: _,
        } => Items::Other,
    }
}

/// A SEQ or a PAR with one part more; of another process some process.
pub(crate) fn with_part(alloc: Global, whole: Proc, part: Proc) -> Result<Proc, Memory>
    ensures { (next : Tree) → longer_row (tree whole) (tree part) ≡ Some next → IfOk result (λ longer. tree longer ≡ next) }
{
    match opened(alloc, whole) {
        Items::Seq(mut parts) => {
            parts.push(part)?;
            Ok(Proc::Seq(parts))
        }
        Items::Par(mut parts) => {
            parts.push(part)?;
            Ok(Proc::Par(parts))
        }
        _ => Ok(Proc::Stop),
    }
}

/// An assignment with one pair more; of another process some process.
pub(crate) fn with_pair(alloc: Global, whole: Proc, var: Name, value: Expr) -> Result<Proc, Memory>
    ensures { (next : Tree) → longer_assignment (tree whole) var.0 (exp value) ≡ Some next → IfOk result (λ longer. tree longer ≡ next) }
{
    match opened(alloc, whole) {
        Items::Assign(mut vars, mut values) => {
            vars.push(var)?;
            values.push(value)?;
            Ok(Proc::Assign { vars, values })
        }
        _ => Ok(Proc::Stop),
    }
}

/// An IF with one choice more; of another process some process.
pub(crate) fn with_choice(
    alloc: Global,
    whole: Proc,
    condition: Expr,
    part: Proc,
) -> Result<Proc, Memory>
    ensures { (next : Tree) → longer_if (tree whole) (exp condition) (tree part) ≡ Some next → IfOk result (λ longer. tree longer ≡ next) }
{
    match opened(alloc, whole) {
        Items::If(mut choices) => {
            choices.push((condition, part))?;
            Ok(Proc::If(choices))
        }
        _ => Ok(Proc::Stop),
    }
}

/// An ALT with one alternative more; of another process some process.
pub(crate) fn with_alternative(
    alloc: Global,
    whole: Proc,
    guard: Guard,
    part: Proc,
) -> Result<Proc, Memory>
    ensures { (next : Tree) → longer_alt (tree whole) (exp guard.condition) (waiting guard.wait) (tree part) ≡ Some next
        → IfOk result (λ longer. tree longer ≡ next) }
{
    match opened(alloc, whole) {
        Items::Alt(mut alternatives) => {
            alternatives.push((guard, part))?;
            Ok(Proc::Alt(alternatives))
        }
        _ => Ok(Proc::Stop),
    }
}
