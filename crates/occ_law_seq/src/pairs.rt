ghost use Rattle.std.specs.Prelude.{◌≡◌, ◌↔◌, IsTrue, map};
ghost use Rattle.occ_syntax.specs.Names.{is_in, names as is_named};
ghost use Rattle.occ_syntax.specs.Tree.{Exp, Tree, assign, variable};
ghost use Rattle.occ_syntax.specs.View.{exp, exps, numbers, tree};
ghost use Rattle.occ_law_shape.specs.occ_meaning.Substitution.{substituted, value_for};
ghost use Rattle.occ_law_seq.specs.Assignment.{IsAssignment, standing_for};

use occ_law_shape::{Form, opened};
use occ_syntax::{Expr, Name, Op, Proc, same_expr, same_exprs, same_names};

/// The pairs of an assignment: its variables, and the right side of each.
#[derive(Clone, Copy)]
pub struct Pairs<'a> {
    /// The variables.
    pub vars: &'a [Name],
    /// The right sides, one for each variable.
    pub values: &'a [Expr],
}

impl<'a> Pairs<'a> {
    /// The pairs of a part that is an assignment; None exactly where it is none.
    pub fn of(part: &'a Proc) -> Option<Pairs<'a>>
        ensures { IsAssignment (tree part.now) result }
    {
        match opened(part) {
            Form::Assign(vars, values) => Some(Pairs { vars, values }),
            _ => None,
        }
    }

    /// Whether a part is the assignment of these pairs.
    pub(crate) fn are_of(&self, part: &Proc) -> bool
        ensures { IsTrue result ↔ (tree part.now ≡ assign (numbers self.now.vars.now) (exps self.now.values.now)) }
    {
        match opened(part) {
            Form::Assign(vars, values) => {
                same_names(vars, self.vars) && same_exprs(values, self.values)
            }
            _ => false,
        }
    }

    /// The right side of a variable; None where the variable has none.
    pub fn value(&self, var: Name) -> Option<&'a Expr>
        ensures { standing_for var.0 result ≡ value_for (numbers self.now.vars.now) (exps self.now.values.now) var.0 }
    {
        let mut vars = self.vars;
        let mut values = self.values;
        while let [name, more @ ..] = vars {
            let [value, more_values @ ..] = values else {
                return None;
            };
            if *name == var {
                return Some(value);
            }
            vars = more;
            values = more_values;
        }
        None
    }

    /// Whether an expression is another one with right sides in the place of their variables.
    pub(crate) fn give(&self, expr: &Expr, other: &Expr) -> bool
        ensures { IsTrue result ↔ (exp other.now ≡ substituted (numbers self.now.vars.now) (exps self.now.values.now) (exp expr.now)) }
    {
        match expr {
            Expr::Var(name) => stands_for(self.value(*name), *name, other),
            Expr::Word { .. } | Expr::Bool(_) => same_expr(other, expr),
            Expr::Not(operand) => match other {
                Expr::Not(turned) => self.give(operand, turned),
                _ => false,
            },
            Expr::Flip(operand) => match other {
                Expr::Flip(turned) => self.give(operand, turned),
                _ => false,
            },
            Expr::Two(op, first, second) => match other {
                Expr::Two(other_op, left, right) => {
                    is_same(*op, *other_op) && self.give(first, left) && self.give(second, right)
                }
                _ => false,
            },
        }
    }

    /// The same of whole lists of expressions.
    pub(crate) fn give_all(&self, exprs: &[Expr], others: &[Expr]) -> bool
        ensures { IsTrue result ↔
            (exps others.now ≡ map (substituted (numbers self.now.vars.now) (exps self.now.values.now)) (exps exprs.now)) }
    {
        let mut rest = exprs;
        let mut other_rest = others;
        while let [expr, more @ ..] = rest {
            let [other, other_more @ ..] = other_rest else {
                return false;
            };
            if !self.give(expr, other) {
                return false;
            }
            rest = more;
            other_rest = other_more;
        }
        other_rest.is_empty()
    }
}

fn is_same(left: Op, right: Op) -> bool
    ensures { IsTrue result ↔ (left ≡ right) }
{
    left == right
}

/// Whether an expression is what stands for a variable: its right side, or the variable where it has none.
fn stands_for(found: Option<&Expr>, var: Name, expr: &Expr) -> bool
    ensures { IsTrue result ↔ (exp expr.now ≡ standing_for var.0 found.entry) }
{
    match found {
        Some(value) => same_expr(expr, value),
        None => is_variable(expr, var),
    }
}

/// Whether an expression is a variable.
pub(crate) fn is_variable(expr: &Expr, var: Name) -> bool
    ensures { IsTrue result ↔ (exp expr.now ≡ variable var.0) }
{
    match expr {
        Expr::Var(name) => *name == var,
        _ => false,
    }
}

/// Whether an expression names a variable.
pub(crate) fn names(expr: &Expr, var: Name) -> bool
    ensures { result ≡ is_named (exp expr.now) var.0 }
{
    match expr {
        Expr::Var(name) => var == *name,
        Expr::Word { .. } | Expr::Bool(_) => false,
        Expr::Not(operand) | Expr::Flip(operand) => names(operand, var),
        Expr::Two(_, left, right) => names(left, var) || names(right, var),
    }
}

/// Whether a variable is among some names.
pub(crate) fn has_name(vars: &[Name], var: Name) -> bool
    ensures { result ≡ is_in (numbers vars.now) var.0 }
{
    vars.contains(&var)
}
