ghost use Rattle.std.specs.Prelude.{◌≡◌, ◌↔◌, IfOk, IsTrue, true, false};
ghost use Rattle.occ_law_shape.specs.occ_law.Scope.{ChanRename, VarRename};
ghost use Rattle.occ_law_shape.specs.Answer.{IsAnswer};
ghost use Rattle.occ_names.specs.occ_meaning.Rename.{renamed, replacing, stands};
ghost use Rattle.occ_names.specs.Mentions.{declared_names};
ghost use Rattle.occ_syntax.specs.Names.{is_in};
ghost use Rattle.occ_syntax.specs.Scopes.{environment};
ghost use Rattle.occ_syntax.specs.Types.{types_kept};
ghost use Rattle.occ_syntax.specs.View.{tree};

use occ_law_shape::shape;
use occ_names::{RenameFault, rename};
use occ_syntax::{Memory, Name, Proc, Scope, same_proc, same_width};
use std::alloc::Global;

/// VAR x: P = VAR y: P with x renamed to y, where y stands neither in P nor in the scope
pub(crate) fn var_rename(
    alloc: Global,
    _scope: &Scope,
    left: &Proc,
    right: &Proc,
) -> Result<bool, Memory>
    requires left { types_kept (tree left.now) (environment _scope.now) ≡ true }
    requires right { types_kept (tree right.now) (environment _scope.now) ≡ true }
    ensures { IfOk result (IsAnswer (VarRename (environment _scope.now)) (tree left.now) (tree right.now)) }
{
    shape!(left, Var(old, width, body) => shape!(right, Var(new, other_width, other) => {
        if !same_width(other_width, width) {
            return Ok(false);
        }
        is_renamed(alloc, old, new, body, other)
    }))
}

/// CHAN c: P = CHAN d: P with c renamed to d, where d stands neither in P nor in the scope
pub(crate) fn chan_rename(
    alloc: Global,
    _scope: &Scope,
    left: &Proc,
    right: &Proc,
) -> Result<bool, Memory>
    requires left { types_kept (tree left.now) (environment _scope.now) ≡ true }
    requires right { types_kept (tree right.now) (environment _scope.now) ≡ true }
    ensures { IfOk result (IsAnswer (ChanRename (environment _scope.now)) (tree left.now) (tree right.now)) }
{
    shape!(left, Chan(old, width, body) => shape!(right, Chan(new, other_width, other) => {
        if !same_width(other_width, width) {
            return Ok(false);
        }
        is_renamed(alloc, old, new, body, other)
    }))
}

/// Whether another process is a process with the new name in the place of the old one, and the new name doesn't stand
/// in the process. The process doesn't declare the old name again.
fn is_renamed(
    alloc: Global,
    old: Name,
    new: Name,
    body: &Proc,
    other: &Proc,
) -> Result<bool, Memory>
    requires { is_in (declared_names (tree body.now)) old.0 ≡ false }
    ensures { IfOk result (λ answer. IsTrue answer
        ↔ ((tree other.now ≡ renamed (tree body.now) (replacing old.0 new.0)) × (stands (tree body.now) new.0 ≡ false))) }
{
    match rename(alloc, body, old, new) {
        Ok(made) => Ok(same_proc(other, &made)),
        Err(RenameFault::Capture) => Ok(false),
        Err(RenameFault::Memory) => Err(Memory),
    }
}
