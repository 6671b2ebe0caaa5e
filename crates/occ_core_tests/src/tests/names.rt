ghost use Rattle.std.specs.Prelude.{◌≡◌, IfOk};
ghost use Rattle.occ_syntax.specs.Tree.{operation};
ghost use Rattle.occ_syntax.specs.View.{exp};

use occ_behaviour_read::{Store, equal_under, named_bits};
use occ_desk::{Memory, Name, Width};
use occ_norm_arrange::{RenameFault, rename, substitute};
use occ_syntax::{Expr, Exprs, Kind, NameList, Op, Proc, Procs, Scope, same_expr};
use std::alloc::Global;

const X: Name = Name(0);

const Y: Name = Name(1);

fn two(alloc: Global, op: Op, left: Expr, right: Expr) -> Result<Expr, Memory>
    ensures { IfOk result (λ made. exp made ≡ operation op (exp left) (exp right)) }
{
    Ok(Expr::Two(op, Box::new(alloc, left)?, Box::new(alloc, right)?))
}

#[test]
fn variables_are_replaced_all_at_once(rt: HostRuntime) -> Result<(), Memory> {
    let alloc = rt.alloc();
    let sum = two(alloc, Op::Plus, Expr::Var(X), Expr::Var(Y))?;
    let wanted = two(alloc, Op::Plus, Expr::Var(Y), Expr::Var(X))?;
    let exchanged = substitute(alloc, &sum, &[X, Y], &[Expr::Var(Y), Expr::Var(X)])?;
    assert!(rt; same_expr(&exchanged, &wanted));
    Ok(())
}

#[test]
fn a_name_that_stands_there_is_not_taken(rt: HostRuntime) -> Result<(), Memory> {
    let alloc = rt.alloc();
    let mut vars = NameList::new(alloc);
    vars.push(X)?;
    let mut values = Exprs::new(alloc);
    values.push(Expr::Var(Y))?;
    let mut parts = Procs::new(alloc);
    parts.push(Proc::Assign { vars, values })?;
    let renamed = rename(alloc, &Proc::Seq(parts), X, Y);
    assert!(rt; matches!(renamed, Err(RenameFault::Capture)));
    Ok(())
}

fn word(value: u8) -> Expr {
    Expr::Word { bits: 2, value }
}

// The scope of one variable.
fn one_variable(alloc: Global) -> Result<Scope, Memory> {
    let mut scope = Scope::new(alloc);
    scope.push((X, Kind::Var(Width::Word(2))))?;
    Ok(scope)
}

#[test]
fn a_variable_has_its_bits(rt: HostRuntime) -> Result<(), Memory> {
    let sum = two(rt.alloc(), Op::Plus, Expr::Var(X), word(1))?;
    assert_eq!(rt; named_bits(&one_variable(rt.alloc())?, &[sum]), 2);
    Ok(())
}

#[test]
fn a_constant_is_itself(rt: HostRuntime) -> Result<(), Memory> {
    let alloc = rt.alloc();
    let mut store = Store::new(alloc)?;
    let scope = Scope::new(alloc);
    let one = Expr::Word { bits: 2, value: 1 };
    assert!(rt; equal_under(alloc, &mut store, &scope, &[], &one, &one)?);
    Ok(())
}
