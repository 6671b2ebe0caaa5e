//! Whether names are below a number: what printing asks, tested at run time.

ghost use Rattle.std.specs.Prelude.{◌≡◌, ◌<◌, IsTrue};
ghost use Rattle.std.specs.List.{AllByRecursion};
ghost use Rattle.occ_desk.specs.occ_base.declared.names.Name.{Name};
ghost use Rattle.occ_syntax.specs.declared.scope.Kind.{Kind};
ghost use Rattle.occ_syntax.specs.View.{exp, exps, numbers, tree, trees, cases, branches, waiting};
ghost use Rattle.occ_gen.specs.occ_print.Known.{ExpIsKnown, WaitingIsKnown, PartIsKnown, PartsAreKnown, CasesAreKnown, BranchesAreKnown};

use occ_desk::Name;
use occ_syntax::{Expr, Guard, Kind, Proc, Wait};

#[tactic(auto, unfolding(crate::specs::tree))]
#[cycle(known)]
pub fn part_below(part: &Proc, count: usize) -> bool
    ensures { IsTrue result → PartIsKnown count (tree part.now) }
{
    match part {
        Proc::Skip | Proc::Stop => true,
        Proc::Assign { vars, values } => {
            names_below(vars.items(), count) && exprs_below(values.items(), count)
        }
        Proc::Input { chan, var } => chan.0 < count && var.0 < count,
        Proc::Output { chan, value } => chan.0 < count && expr_below(value, count),
        Proc::Seq(parts) => parts_below(parts.items(), count),
        Proc::Par(parts) => parts_below(parts.items(), count),
        Proc::If(choices) => choices_below(choices.items(), count),
        Proc::Alt(alternatives) => alternatives_below(alternatives.items(), count),
        Proc::Var { name, body, .. } => name.0 < count && part_below(body, count),
        Proc::Chan { name, body, .. } => name.0 < count && part_below(body, count),
    }
}

#[cycle(known)]
fn parts_below(parts: &[Proc], count: usize) -> bool
    ensures { IsTrue result → PartsAreKnown count (trees parts.now) }
{
    for part in parts {
        if !part_below(part, count) {
            return false;
        }
    }
    true
}

#[cycle(known)]
fn choices_below(choices: &[(Expr, Proc)], count: usize) -> bool
    ensures { IsTrue result → CasesAreKnown count (cases choices.now) }
{
    for (condition, part) in choices {
        if !expr_below(condition, count) || !part_below(part, count) {
            return false;
        }
    }
    true
}

#[cycle(known)]
fn alternatives_below(alternatives: &[(Guard, Proc)], count: usize) -> bool
    ensures { IsTrue result → BranchesAreKnown count (branches alternatives.now) }
{
    for (guard, part) in alternatives {
        if !guard_below(guard, count) || !part_below(part, count) {
            return false;
        }
    }
    true
}

fn guard_below(guard: &Guard, count: usize) -> bool
    ensures { IsTrue result → (ExpIsKnown count (exp guard.now.condition) × WaitingIsKnown count (waiting guard.now.wait)) }
{
    expr_below(&guard.condition, count) && wait_below(&guard.wait, count)
}

fn wait_below(wait: &Wait, count: usize) -> bool
    ensures { IsTrue result → WaitingIsKnown count (waiting wait.now) }
{
    match wait {
        Wait::Skip => true,
        Wait::Get { chan, var } => chan.0 < count && var.0 < count,
        Wait::Put { chan, value } => chan.0 < count && expr_below(value, count),
    }
}

fn expr_below(expr: &Expr, count: usize) -> bool
    ensures { IsTrue result → ExpIsKnown count (exp expr.now) }
{
    match expr {
        Expr::Var(name) => name.0 < count,
        Expr::Word { .. } | Expr::Bool(_) => true,
        Expr::Not(operand) => expr_below(operand, count),
        Expr::Flip(operand) => expr_below(operand, count),
        Expr::Two(_, left, right) => expr_below(left, count) && expr_below(right, count),
    }
}

fn exprs_below(exprs: &[Expr], count: usize) -> bool
    ensures { IsTrue result → AllByRecursion (ExpIsKnown count) (exps exprs.now) }
{
    for expr in exprs {
        if !expr_below(expr, count) {
            return false;
        }
    }
    true
}

fn names_below(names: &[Name], count: usize) -> bool
    ensures { IsTrue result → AllByRecursion (λ x. x < count) (numbers names.now) }
{
    for name in names {
        if name.0 >= count {
            return false;
        }
    }
    true
}

pub fn params_below(params: &[(Name, Kind)], count: usize) -> bool
    ensures { IsTrue result → AllByRecursion (λ (p : Name × Kind). p.0.0 < count) params.now }
{
    for (name, _) in params {
        if name.0 >= count {
            return false;
        }
    }
    true
}
