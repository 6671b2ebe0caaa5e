ghost use Rattle.std.specs.Prelude.{◌≡◌, max, false};
ghost use Rattle.occ_print.specs.Greatest.{greatest, greatest_in, greatest_of_all, greatest_of_branches, greatest_of_cases, greatest_of_names, greatest_of_exps, greatest_waiting};
ghost use Rattle.occ_syntax.specs.Declarations.{is_declaration};
ghost use Rattle.occ_syntax.specs.View.{branches, cases, exp, exps, numbers, tree, trees, waiting};

use occ_syntax::{Expr, Guard, Name, Proc, Wait};

/// The greatest number of a name in a part, be it declared, read, written or a channel; 0 where there is no name. It takes no memory.
pub fn greatest_name(part: &Proc) -> usize
    ensures { result ≡ greatest (tree part.now) 0 }
{
    of_part(part, 0)
}

/// The greater of two numbers.
fn greater(first: usize, second: usize) -> usize
    ensures { result ≡ max first second }
{
    first.max(second)
}

fn of_expr(expr: &Expr, most: usize) -> usize
    ensures { result ≡ greatest_in (exp expr.now) most }
{
    match expr {
        Expr::Var(name) => greater(most, name.0),
        Expr::Word { .. } => most,
        Expr::Bool(_) => most,
        Expr::Not(operand) => of_expr(operand, most),
        Expr::Flip(operand) => of_expr(operand, most),
        Expr::Two(_, left, right) => of_expr(right, of_expr(left, most)),
    }
}

fn of_exprs(list: &[Expr], most: usize) -> usize
    ensures { result ≡ greatest_of_exps (exps list.now) most }
{
    let mut found = most;
    for expr in list {
        found = of_expr(expr, found);
    }
    found
}

fn of_names(list: &[Name], most: usize) -> usize
    ensures { result ≡ greatest_of_names (numbers list.now) most }
{
    let mut found = most;
    for name in list {
        found = greater(found, name.0);
    }
    found
}

fn of_wait(wait: &Wait, most: usize) -> usize
    ensures { result ≡ greatest_waiting (waiting wait.now) most }
{
    match wait {
        Wait::Skip => most,
        Wait::Get { chan, var } => greater(greater(most, chan.0), var.0),
        Wait::Put { chan, value } => of_expr(value, greater(most, chan.0)),
    }
}

#[cycle(part)]
fn of_part(part: &Proc, most: usize) -> usize
    ensures { result ≡ greatest (tree part.now) most }
{
    let mut found = most;
    let mut rest = part;
    while let Some((name, _, body)) = rest.declared() {
        found = greater(found, name.0);
        rest = body;
    }
    of_construct(rest, found)
}

#[tactic(auto, unfolding(crate::specs::tree))]
#[cycle(part)]
fn of_construct(part: &Proc, most: usize) -> usize
    requires { is_declaration (tree part.now) ≡ false }
    ensures { result ≡ greatest (tree part.now) most }
{
    match part {
        Proc::Skip | Proc::Stop => most,
        Proc::Assign { vars, values } => of_exprs(values.items(), of_names(vars.items(), most)),
        Proc::Input { chan, var } => greater(greater(most, chan.0), var.0),
        Proc::Output { chan, value } => of_expr(value, greater(most, chan.0)),
        Proc::Seq(parts) => of_parts(parts.items(), most),
        Proc::Par(parts) => of_parts(parts.items(), most),
        Proc::If(choices) => of_choices(choices.items(), most),
        Proc::Alt(alternatives) => of_alternatives(alternatives.items(), most),
        Proc::Var { .. } | Proc::Chan { .. } => unreachable!(),
    }
}

#[cycle(part)]
fn of_parts(parts: &[Proc], most: usize) -> usize
    ensures { result ≡ greatest_of_all (trees parts.now) most }
{
    let mut found = most;
    for part in parts {
        found = of_part(part, found);
    }
    found
}

#[cycle(part)]
fn of_choices(choices: &[(Expr, Proc)], most: usize) -> usize
    ensures { result ≡ greatest_of_cases (cases choices.now) most }
{
    let mut found = most;
    for (condition, part) in choices {
        found = of_part(part, of_expr(condition, found));
    }
    found
}

#[cycle(part)]
fn of_alternatives(alternatives: &[(Guard, Proc)], most: usize) -> usize
    ensures { result ≡ greatest_of_branches (branches alternatives.now) most }
{
    let mut found = most;
    for (guard, part) in alternatives {
        found = of_part(part, of_wait(&guard.wait, of_expr(&guard.condition, found)));
    }
    found
}
