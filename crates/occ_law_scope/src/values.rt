ghost use Rattle.std.specs.Prelude.{◌≡◌, ◌↔◌, ◌^◌, IfOk, IsTrue, true};
ghost use Rattle.occ_syntax.specs.occ_base.Width.{bits_of};
ghost use Rattle.occ_law_shape.specs.occ_law.Scope.{VarAny, each_value, values_of};
ghost use Rattle.occ_law_scope.specs.Turns.{begun as begun_with};
ghost use Rattle.occ_law_scope.specs.Values.{value_at};
ghost use Rattle.occ_law_shape.specs.Answer.{IsAnswer};
ghost use Rattle.occ_syntax.specs.Scopes.{environment};
ghost use Rattle.occ_syntax.specs.Tree.{declare, ready, truth};
ghost use Rattle.occ_syntax.specs.Types.{is_width, types_kept};
ghost use Rattle.occ_syntax.specs.View.{branches, exp, tree, waiting};

use crate::declaration::Declaration;
use crate::turns::begun;
use occ_law_shape::{is_truth, law_case};
use occ_syntax::{Expr, Guard, Memory, Name, Proc, Scope, Wait, Width, same_proc};

/// VAR x: P = the ALT that has for each value v of x the branch TRUE & SKIP VAR x: SEQ(x := v, P)
pub(crate) fn var_any(_scope: &Scope, left: &Proc, right: &Proc) -> Result<bool, Memory>
    requires { types_kept (tree left.now) (environment _scope.now) ≡ true }
    ensures { IfOk result (IsAnswer VarAny (tree left.now) (tree right.now)) }
{
    law_case!(left, Var(name, width, body); right, Alt(alternatives) => {
        Ok(Variable { name, width, body }.has_each_value(alternatives))
    })
}

/// A declared variable, and the process that it is declared for.
#[derive(Clone, Copy)]
struct Variable<'a> {
    name: Name,
    width: Width,
    body: &'a Proc,
}

impl Variable<'_> {
    /// Whether the branches begin by giving the variable its values, each branch one value, in increasing order.
    fn has_each_value(&self, alternatives: &[(Guard, Proc)]) -> bool
        requires { is_width self.now.width ≡ true }
        ensures { IsTrue result
            ↔ (branches alternatives.now
            ≡ each_value self.now.name.0 self.now.width (tree self.now.body.now) (values_of self.now.width)) }
    {
        let count = count_of(self.width);
        let mut rest = alternatives;
        for value in 0..count {
            let [branch, more @ ..] = rest else {
                return false;
            };
            if !self.has_value(value, branch) {
                return false;
            }
            rest = more;
        }
        rest.is_empty()
    }

    /// Whether a branch is ready at once and begins by giving the variable that value.
    fn has_value(&self, value: u16, branch: &(Guard, Proc)) -> bool
        ensures { IsTrue result
            ↔ ((exp branch.now.0.condition ≡ truth true) × (waiting branch.now.0.wait ≡ ready)
            × (tree branch.now.1 ≡ declare self.now.name.0 self.now.width
            (begun_with self.now.name.0 (value_at self.now.width value) (tree self.now.body.now)))) }
    {
        if !is_truth(&branch.0.condition) {
            return false;
        }
        if !is_ready(&branch.0.wait) {
            return false;
        }
        match Declaration::Var(self.name, self.width).body_of(&branch.1) {
            Some(inner) => self.is_given(value, inner),
            None => false,
        }
    }

    /// Whether a process is the body behind the assignment of that value to the variable.
    fn is_given(&self, value: u16, whole: &Proc) -> bool
        ensures { IsTrue result
            ↔ (tree whole.now ≡ begun_with self.now.name.0 (value_at self.now.width value) (tree self.now.body.now)) }
    {
        match begun(whole) {
            Some((var, given, rest)) => {
                var == self.name && is_value(self.width, value, given) && same_proc(rest, self.body)
            }
            None => false,
        }
    }
}

/// How many values a width has.
pub fn count_of(width: Width) -> u16
    requires { is_width width ≡ true }
    ensures { result ≡ 2 ^ bits_of width }
{
    1 << width.bits()
}

/// Whether an expression is that value as a constant of a width.
fn is_value(width: Width, value: u16, expr: &Expr) -> bool
    ensures { IsTrue result ↔ (exp expr.now ≡ value_at width value) }
{
    match width {
        Width::Bool => match expr {
            Expr::Bool(truth) => *truth == (value > 0),
            _ => false,
        },
        Width::Word(bits) => match expr {
            Expr::Word { bits: b, value: v } => *b == bits && u16::from(*v) == value,
            _ => false,
        },
    }
}

fn is_ready(wait: &Wait) -> bool
    ensures { IsTrue result ↔ (waiting wait.now ≡ ready) }
{
    matches!(wait, Wait::Skip)
}
