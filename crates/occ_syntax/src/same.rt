ghost use Rattle.std.specs.Prelude.{◌≡◌, ◌↔◌, IsTrue, false, true};
ghost use Rattle.occ_syntax.specs.Tree.{skip};
ghost use Rattle.occ_syntax.specs.View.{numbers, exp, exps, waiting, tree, trees, cases, branches};
ghost use Rattle.occ_syntax.specs.Declarations.{declaring, is_declaration, is_simple};
ghost use Rattle.occ_syntax.specs.Types.{same_width};

use crate::{Expr, Guard, Kind, Op, Proc, Wait};
use occ_base::{Name, Width};

/// Whether two widths are the same.
pub fn same_width(left: Width, right: Width) -> bool
    ensures { result ≡ same_width left right }
{
    match left {
        Width::Bool => matches!(right, Width::Bool),
        Width::Word(bits) => match right {
            Width::Bool => false,
            Width::Word(others) => bits == others,
        },
    }
}

/// Whether two lists of parameters are the same. It takes no memory.
pub fn same_parameters(left: &[(Name, Kind)], right: &[(Name, Kind)]) -> bool
    ensures { IsTrue result ↔ (left.now ≡ right.now) }
{
    left == right
}

/// Whether two expressions are the same: the same operators, names and numerals in the same places. It takes no memory.
pub fn same_expr(left: &Expr, right: &Expr) -> bool
    ensures { IsTrue result ↔ (exp left.now ≡ exp right.now) }
{
    match left {
        Expr::Var(name) => match right {
            Expr::Var(other) => name == other,
            _ => false,
        },
        Expr::Word { bits, value } => match right {
            Expr::Word { bits: b, value: v } => bits == b && value == v,
            _ => false,
        },
        Expr::Bool(truth) => match right {
            Expr::Bool(other) => truth == other,
            _ => false,
        },
        Expr::Not(operand) => match right {
            Expr::Not(other) => same_expr(operand, other),
            _ => false,
        },
        Expr::Flip(operand) => match right {
            Expr::Flip(other) => same_expr(operand, other),
            _ => false,
        },
        Expr::Two(op, first, second) => match right {
            Expr::Two(other, third, fourth) => {
                same_op(*op, *other) && same_expr(first, third) && same_expr(second, fourth)
            }
            _ => false,
        },
    }
}

fn same_op(left: Op, right: Op) -> bool
    ensures { IsTrue result ↔ (left ≡ right) }
{
    left == right
}

/// Whether two lists of names are the same. It takes no memory.
pub fn same_names(left: &[Name], right: &[Name]) -> bool
    ensures { IsTrue result ↔ (numbers left.now ≡ numbers right.now) }
{
    left == right
}

/// Whether two lists of expressions are the same. It takes no memory.
pub fn same_exprs(left: &[Expr], right: &[Expr]) -> bool
    ensures { IsTrue result ↔ (exps left.now ≡ exps right.now) }
{
    if left.len() != right.len() {
        return false;
    }
    for (expr, other) in left.iter().zip(right) {
        if !same_expr(expr, other) {
            return false;
        }
    }
    true
}

/// Whether two guards wait for the same. It takes no memory.
pub fn same_wait(left: &Wait, right: &Wait) -> bool
    ensures { IsTrue result ↔ (waiting left.now ≡ waiting right.now) }
{
    match left {
        Wait::Skip => matches!(right, Wait::Skip),
        Wait::Get { chan, var } => match right {
            Wait::Get { chan: c, var: v } => chan == c && var == v,
            _ => false,
        },
        Wait::Put { chan, value } => match right {
            Wait::Put { chan: c, value: v } => chan == c && same_expr(value, v),
            _ => false,
        },
    }
}

// Whether two declarations give one name to one kind of thing of one width.
fn same_declaration(left: (Name, Kind), right: (Name, Kind)) -> bool
    ensures { IsTrue result ↔ (declaring left.0.0 left.1 skip ≡ declaring right.0.0 right.1 skip) }
{
    match left.1 {
        Kind::Var(width) => match right.1 {
            Kind::Var(other) => left.0 == right.0 && width == other,
            Kind::Chan(_, _) => false,
        },
        Kind::Chan(width, _) => match right.1 {
            Kind::Chan(other, _) => left.0 == right.0 && width == other,
            Kind::Var(_) => false,
        },
    }
}

/// Whether two processes are the same tree: the same constructs, names, widths and expressions in the same places.
/// It takes no memory.
#[cycle(same_proc)]
pub fn same_proc(left: &Proc, right: &Proc) -> bool
    ensures { IsTrue result ↔ (tree left.now ≡ tree right.now) }
{
    let mut rest = left;
    let mut other = right;
    while let Some((name, kind, body)) = rest.declared() {
        let Some((other_name, other_kind, other_body)) = other.declared() else {
            return false;
        };
        if !same_declaration((name, kind), (other_name, other_kind)) {
            return false;
        }
        rest = body;
        other = other_body;
    }
    same_undeclared(rest, other)
}

#[tactic(auto, unfolding(crate::specs::View::tree))]
#[cycle(same_proc)]
fn same_undeclared(left: &Proc, right: &Proc) -> bool
    requires { is_declaration (tree left.now) ≡ false }
    ensures { IsTrue result ↔ (tree left.now ≡ tree right.now) }
{
    match left {
        Proc::Seq(parts) => match right {
            Proc::Seq(others) => same_procs(parts.items(), others.items()),
            _ => false,
        },
        Proc::Par(parts) => match right {
            Proc::Par(others) => same_procs(parts.items(), others.items()),
            _ => false,
        },
        Proc::If(choices) => match right {
            Proc::If(others) => same_choices(choices.items(), others.items()),
            _ => false,
        },
        Proc::Alt(alternatives) => match right {
            Proc::Alt(others) => same_branches(alternatives.items(), others.items()),
            _ => false,
        },
        _ => same_simple(left, right),
    }
}

/// Whether two lists of processes are the same. It takes no memory.
#[cycle(same_proc)]
pub fn same_procs(left: &[Proc], right: &[Proc]) -> bool
    ensures { IsTrue result ↔ (trees left.now ≡ trees right.now) }
{
    if left.len() != right.len() {
        return false;
    }
    for (part, other) in left.iter().zip(right) {
        if !same_proc(part, other) {
            return false;
        }
    }
    true
}

/// Whether two lists of choices are the same. It takes no memory.
#[cycle(same_proc)]
pub fn same_choices(left: &[(Expr, Proc)], right: &[(Expr, Proc)]) -> bool
    ensures { IsTrue result ↔ (cases left.now ≡ cases right.now) }
{
    if left.len() != right.len() {
        return false;
    }
    for (choice, other) in left.iter().zip(right) {
        if !same_expr(&choice.0, &other.0) {
            return false;
        }
        if !same_proc(&choice.1, &other.1) {
            return false;
        }
    }
    true
}

/// Whether two lists of branches are the same. It takes no memory.
#[cycle(same_proc)]
pub fn same_branches(left: &[(Guard, Proc)], right: &[(Guard, Proc)]) -> bool
    ensures { IsTrue result ↔ (branches left.now ≡ branches right.now) }
{
    if left.len() != right.len() {
        return false;
    }
    for (alternative, other) in left.iter().zip(right) {
        if !same_guard(&alternative.0, &other.0) {
            return false;
        }
        if !same_proc(&alternative.1, &other.1) {
            return false;
        }
    }
    true
}

/// Whether two guards are the same. It takes no memory.
pub fn same_guard(left: &Guard, right: &Guard) -> bool
    ensures { IsTrue result
        ↔ ((exp left.now.condition ≡ exp right.now.condition) × (waiting left.now.wait ≡ waiting right.now.wait)) }
{
    same_expr(&left.condition, &right.condition) && same_wait(&left.wait, &right.wait)
}

/// Whether two branches are the same. It takes no memory.
pub fn same_branch(left: &(Guard, Proc), right: &(Guard, Proc)) -> bool
    ensures { IsTrue result
        ↔ ((exp left.now.0.condition ≡ exp right.now.0.condition) × (waiting left.now.0.wait ≡ waiting right.now.0.wait)
        × (tree left.now.1 ≡ tree right.now.1)) }
{
    same_guard(&left.0, &right.0) && same_proc(&left.1, &right.1)
}

// Whether two processes are the same, where the first has no process in it.
#[tactic(auto, unfolding(crate::specs::View::tree))]
fn same_simple(left: &Proc, right: &Proc) -> bool
    requires { is_simple (tree left.now) ≡ true }
    ensures { IsTrue result ↔ (tree left.now ≡ tree right.now) }
{
    match left {
        Proc::Skip => matches!(right, Proc::Skip),
        Proc::Stop => matches!(right, Proc::Stop),
        Proc::Assign { vars, values } => match right {
            Proc::Assign { vars: v, values: e } => {
                same_names(vars.items(), v.items()) && same_exprs(values.items(), e.items())
            }
            _ => false,
        },
        Proc::Input { chan, var } => match right {
            Proc::Input { chan: c, var: v } => chan == c && var == v,
            _ => false,
        },
        Proc::Output { chan, value } => match right {
            Proc::Output { chan: c, value: v } => chan == c && same_expr(value, v),
            _ => false,
        },
        _ => unreachable!(),
    }
}
