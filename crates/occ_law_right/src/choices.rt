ghost use Rattle.std.specs.Prelude.{◌≡◌, IfOk, []};
ghost use Rattle.occ_law_seq.specs.occ_law.Instances.{IsOnly};
ghost use Rattle.occ_law_seq.specs.occ_law.Scope.{ChanIf, VarAlt, VarIf};
ghost use Rattle.occ_law_seq.specs.occ_law_shape.Pieces.{each_branch, each_choice};
ghost use Rattle.occ_syntax.specs.Declarations.{declaring};
ghost use Rattle.occ_syntax.specs.Tree.{alt, select};
ghost use Rattle.occ_syntax.specs.View.{branches, cases, tree};

use crate::declaration::Declaration;
use occ_law_scope::{some_condition_names, some_guard_names};
use occ_syntax::{Alternatives, Choices, Expr, Guard, Kind, Memory, Proc};
use std::alloc::Global;

/// VAR x: IF(b1 P1, .., bn Pn) = IF(b1 VAR x: P1, .., bn VAR x: Pn), where no condition names x
pub(crate) fn var_if(alloc: Global, left: &Proc) -> Result<Option<Proc>, Memory>
    ensures { IfOk result (IsOnly (VarIf []) (tree left.now)) }
{
    form!(left, Var(name, width, body) => form!(body, If(choices) => {
        if some_condition_names(choices, name) {
            return Ok(None);
        }
        Ok(Some(into_choices(alloc, Declaration { name, kind: Kind::Var(width) }, choices)?))
    }))
}

/// CHAN c: IF(b1 P1, .., bn Pn) = IF(b1 CHAN c: P1, .., bn CHAN c: Pn)
pub(crate) fn chan_if(alloc: Global, left: &Proc) -> Result<Option<Proc>, Memory>
    ensures { IfOk result (IsOnly (ChanIf []) (tree left.now)) }
{
    form!(left, Chan(name, width, body) => form!(body, If(choices) => {
        Ok(Some(into_choices(alloc, Declaration { name, kind: Kind::Chan(width, None) }, choices)?))
    }))
}

/// The IF of the choices, each process under the declaration.
fn into_choices(
    alloc: Global,
    declaration: Declaration,
    choices: &[(Expr, Proc)],
) -> Result<Proc, Memory>
    ensures { IfOk result (λ made. tree made
        ≡ select (each_choice (λ b. b) (declaring declaration.name.0 declaration.kind) (cases choices.now))) }
{
    let mut made = Choices::new(alloc);
    for (condition, part) in choices {
        let condition = condition.copy(alloc)?;
        made.push((condition, declaration.over(alloc, part)?))?;
    }
    Ok(Proc::If(made))
}

/// VAR x: ALT(gs) = the ALT in which each process P is VAR x: P, where no guard names x
pub(crate) fn var_alt(alloc: Global, left: &Proc) -> Result<Option<Proc>, Memory>
    ensures { IfOk result (IsOnly (VarAlt []) (tree left.now)) }
{
    form!(left, Var(name, width, body) => form!(body, Alt(alternatives) => {
        if some_guard_names(alternatives, name) {
            return Ok(None);
        }
        Ok(Some(into_branches(alloc, Declaration { name, kind: Kind::Var(width) }, alternatives)?))
    }))
}

/// The ALT of the branches, each process under the declaration.
fn into_branches(
    alloc: Global,
    declaration: Declaration,
    alternatives: &[(Guard, Proc)],
) -> Result<Proc, Memory>
    ensures { IfOk result (λ made. tree made
        ≡ alt (each_branch (λ b. b) (λ w. w) (λ w p. declaring declaration.name.0 declaration.kind p) (branches alternatives.now))) }
{
    let mut made = Alternatives::new(alloc);
    for (guard, part) in alternatives {
        let guard = guard.copy(alloc)?;
        made.push((guard, declaration.over(alloc, part)?))?;
    }
    Ok(Proc::Alt(made))
}
