ghost use Rattle.std.specs.Prelude.{◌≡◌, IfOk, OnOk};
ghost use Rattle.occ_syntax.specs.Tree.{alt, operation, par, select, seq};
ghost use Rattle.occ_syntax.specs.View.{branches, cases, exp, in_alternatives, in_choices, in_procs, tree, trees};
ghost use Rattle.occ_law.specs.occ_meaning.Parallel.{all_of, two};

use occ_syntax::{Alternatives, Choices, Expr, Memory, Op, Proc, Procs};
use std::alloc::Global;

/// The SEQ of parts.
pub fn seq_of(parts: Procs) -> Proc
    ensures { tree result ≡ seq (trees (in_procs parts)) }
{
    Proc::Seq(parts)
}

/// The PAR of parts.
pub fn par_of(parts: Procs) -> Proc
    ensures { tree result ≡ par (trees (in_procs parts)) }
{
    Proc::Par(parts)
}

/// The IF of choices.
pub fn if_of(choices: Choices) -> Proc
    ensures { tree result ≡ select (cases (in_choices choices)) }
{
    Proc::If(choices)
}

/// The ALT of branches.
pub fn alt_of(alternatives: Alternatives) -> Proc
    ensures { tree result ≡ alt (branches (in_alternatives alternatives)) }
{
    Proc::Alt(alternatives)
}

/// Adds copies of parts. The error is out of memory.
pub fn add_copies(alloc: Global, made: &mut Procs, parts: &[Proc]) -> Result<(), Memory>
    ensures { OnOk result (trees (in_procs made.new) ≡ all_of (trees (in_procs made.old)) (trees parts.now)) }
{
    let mut rest = parts;
    while let [part, more @ ..] = rest {
        made.push(part.copy(alloc)?)?;
        rest = more;
    }
    Ok(())
}

/// The list of two processes. The error is out of memory.
pub fn list_of_two(alloc: Global, first: Proc, second: Proc) -> Result<Procs, Memory>
    ensures { IfOk result (λ parts. trees (in_procs parts) ≡ two (tree first) (tree second)) }
{
    let mut parts = Procs::new(alloc);
    parts.push(first)?;
    parts.push(second)?;
    Ok(parts)
}

/// The SEQ of two processes. The error is out of memory.
pub fn in_turn(alloc: Global, first: Proc, second: Proc) -> Result<Proc, Memory>
    ensures { IfOk result (λ whole. tree whole ≡ seq (two (tree first) (tree second))) }
{
    let parts = list_of_two(alloc, first, second)?;
    Ok(seq_of(parts))
}

/// The expression of an operator between copies of two operands. The error is out of memory.
pub fn operated(alloc: Global, op: Op, left: &Expr, right: &Expr) -> Result<Expr, Memory>
    ensures { IfOk result (λ whole. exp whole ≡ operation op (exp left.now) (exp right.now)) }
{
    let first = Box::new(alloc, left.copy(alloc)?)?;
    let second = Box::new(alloc, right.copy(alloc)?)?;
    Ok(Expr::Two(op, first, second))
}
