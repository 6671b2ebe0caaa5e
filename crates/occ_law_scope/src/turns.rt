ghost use Rattle.std.specs.Prelude.{◌≡◌, ◌↔◌, IsTrue};
ghost use Rattle.occ_law_scope.specs.Turns.{IsBegun, IsOnePair, IsOnlyPair, IsTurns};
ghost use Rattle.occ_syntax.specs.View.{exps, numbers, tree};

use occ_law_shape::{Form, opened, pair};
use occ_syntax::{Expr, Name, Proc};

/// The two parts of a SEQ that has two; None exactly where a process isn't such a SEQ.
pub(crate) fn turns(part: &Proc) -> Option<(&Proc, &Proc)>
    ensures { IsTurns (tree part.now) result }
{
    match opened(part) {
        Form::Seq(parts) => pair(parts),
        _ => None,
    }
}

/// A SEQ of an assignment of one variable and a process: the variable, its right side and the process; None exactly
/// where a process isn't such a SEQ.
pub(crate) fn begun(part: &Proc) -> Option<(Name, &Expr, &Proc)>
    ensures { IsBegun (tree part.now) result }
{
    match turns(part) {
        Some((first, second)) => match only_pair(first) {
            Some((var, value)) => Some((var, value, second)),
            None => None,
        },
        None => None,
    }
}

/// The pair of an assignment of one variable; None exactly where a process isn't such an assignment.
fn only_pair(part: &Proc) -> Option<(Name, &Expr)>
    ensures { IsOnlyPair (tree part.now) result }
{
    match opened(part) {
        Form::Assign(vars, values) => one_pair(vars, values),
        _ => None,
    }
}

fn one_pair<'a>(vars: &[Name], values: &'a [Expr]) -> Option<(Name, &'a Expr)>
    ensures { IsOnePair (numbers vars.now) (exps values.now) result }
{
    if vars.len() == 1 && values.len() == 1 {
        Some((vars[0], &values[0]))
    } else {
        None
    }
}
