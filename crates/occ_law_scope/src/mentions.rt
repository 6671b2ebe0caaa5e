ghost use Rattle.std.specs.Prelude.{◌≡◌, ◌↔◌, IfOk, IsTrue, false};
ghost use Rattle.occ_law_shape.specs.occ_law.Lists.{conditions};
ghost use Rattle.occ_law_shape.specs.occ_law.Scope.{is_on as waits_on, some_guard_names as is_some_guard_named};
ghost use Rattle.occ_syntax.specs.Names.{free as is_free, free_in_some, free_in_waiting, is_in};
ghost use Rattle.occ_syntax.specs.Names.{names as is_named, some_names as is_some_named};
ghost use Rattle.occ_syntax.specs.View.{branches, cases, exp, numbers, tree, trees, waiting};

use occ_names::free;
use occ_syntax::{Expr, Guard, Memory, Name, Proc, Wait};
use std::alloc::Global;

/// Whether a name doesn't stand free in a process.
pub fn is_unused(alloc: Global, name: Name, part: &Proc) -> Result<bool, Memory>
    ensures { IfOk result (λ answer. IsTrue answer ↔ (is_free (tree part.now) name.0 ≡ false)) }
{
    let names = free(alloc, part)?;
    Ok(!has_name(names.as_slice(), name))
}

/// Whether a name stands free in none of the processes.
pub fn is_unused_in_all(alloc: Global, name: Name, parts: &[Proc]) -> Result<bool, Memory>
    ensures { IfOk result (λ answer. IsTrue answer ↔ (free_in_some (trees parts.now) name.0 ≡ false)) }
{
    for part in parts {
        let is_spared = is_unused(alloc, name, part)?;
        if !is_spared {
            return Ok(false);
        }
    }
    Ok(true)
}

fn has_name(names: &[Name], name: Name) -> bool
    ensures { result ≡ is_in (numbers names.now) name.0 }
{
    names.contains(&name)
}

/// Whether one of the conditions names a variable.
pub fn some_condition_names(choices: &[(Expr, Proc)], name: Name) -> bool
    ensures { result ≡ is_some_named (conditions (cases choices.now)) name.0 }
{
    for (condition, _) in choices {
        if names(condition, name) {
            return true;
        }
    }
    false
}

/// Whether one of the guards names a variable, in its condition or in what it waits for.
pub fn some_guard_names(alternatives: &[(Guard, Proc)], name: Name) -> bool
    ensures { result ≡ is_some_guard_named (branches alternatives.now) name.0 }
{
    for (guard, _) in alternatives {
        if names(&guard.condition, name) || wait_names(&guard.wait, name) {
            return true;
        }
    }
    false
}

/// Whether a guard waits for a communication on a channel.
pub fn is_on(wait: &Wait, channel: Name) -> bool
    ensures { result ≡ waits_on (waiting wait.now) channel.0 }
{
    match wait {
        Wait::Skip => false,
        Wait::Get { chan, .. } | Wait::Put { chan, .. } => channel == *chan,
    }
}

fn wait_names(wait: &Wait, name: Name) -> bool
    ensures { result ≡ free_in_waiting (waiting wait.now) name.0 }
{
    match wait {
        Wait::Skip => false,
        Wait::Get { chan, var } => name == *chan || name == *var,
        Wait::Put { chan, value } => name == *chan || names(value, name),
    }
}

pub(crate) fn names(expr: &Expr, name: Name) -> bool
    ensures { result ≡ is_named (exp expr.now) name.0 }
{
    match expr {
        Expr::Var(variable) => name == *variable,
        Expr::Word { .. } | Expr::Bool(_) => false,
        Expr::Not(operand) | Expr::Flip(operand) => names(operand, name),
        Expr::Two(_, left, right) => names(left, name) || names(right, name),
    }
}
