ghost use Rattle.std.specs.Prelude.{◌≡◌, IfOk, true};
ghost use Rattle.occ_syntax.specs.Scopes.{environment};
ghost use Rattle.occ_syntax.specs.Types.{scope_kept};
ghost use Rattle.occ_syntax.specs.Usage.{Keeps as KeepsRules};
ghost use Rattle.occ_syntax.specs.View.{tree};
ghost use Rattle.occ_law_shape.specs.occ_law.Sequence.{ExprEqual};
ghost use Rattle.occ_law_shape.specs.Answer.{IsAnswer};

use occ_law_shape::{
    Always, Equality, Form, Store, branches_equal, cases_equal, each_equal, opened, shape,
};
use occ_syntax::{Memory, Proc, Scope, same_names};
use std::alloc::Global;

/// Two assignments, outputs, IFs or ALTs that differ in expressions alone, each equal in every state to the one in its place
pub(crate) fn expr(
    alloc: Global,
    store: &mut Store,
    scope: &Scope,
    left: &Proc,
    right: &Proc,
) -> Result<bool, Memory>
    requires scope { scope_kept scope.now ≡ true }
    requires left { KeepsRules (environment scope.now) (tree left.now) }
    requires right { KeepsRules (environment scope.now) (tree right.now) }
    ensures { IfOk result (IsAnswer (ExprEqual scope.now) (tree left.now) (tree right.now)) }
{
    let here = Always { scope };
    match opened(left) {
        Form::Assign(vars, values) => shape!(right, Assign(other_vars, others) => {
            if !same_names(vars, other_vars) {
                return Ok(false);
            }
            each_equal(alloc, store, &here, values, others)
        }),
        Form::Output(chan, value) => shape!(right, Output(other_chan, other) => {
            if chan != other_chan {
                return Ok(false);
            }
            here.holds(alloc, store, value, other)
        }),
        Form::If(choices) => shape!(right, If(others) => {
            cases_equal(alloc, store, &here, choices, others)
        }),
        Form::Alt(alternatives) => shape!(right, Alt(others) => {
            branches_equal(alloc, store, &here, alternatives, others)
        }),
        _ => Ok(false),
    }
}
