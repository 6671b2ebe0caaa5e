//! A law asked of a part at one place.

ghost use Rattle.std.specs.Prelude.{◌≡◌, IfOk, true};
ghost use Rattle.occ_law_any.specs.Changes.{IsChangeAt, IsKept};
ghost use Rattle.occ_law_any.specs.Places.{breadth_of};
ghost use Rattle.occ_syntax.specs.Scopes.{environment};
ghost use Rattle.occ_syntax.specs.Types.{scope_kept};
ghost use Rattle.occ_syntax.specs.Usage.{Keeps};
ghost use Rattle.occ_syntax.specs.View.{tree};

use crate::right;
use occ_law_alt::{Form, LawId, Place, Store, opened};
use occ_syntax::{Memory, Name, Proc, Program, Scope, same_proc};
use occ_usage::keeps;
use std::alloc::Global;

/// A law asked of a part in a scope.
#[derive(Clone, Copy)]
pub(crate) struct Asked<'a> {
    pub(crate) law: LawId,
    pub(crate) scope: &'a Scope,
    pub(crate) left: &'a Proc,
}

/// How many items the list of a part has.
pub(crate) fn breadth(part: &Proc) -> usize
    ensures { result ≡ breadth_of (tree part.now) }
{
    match opened(part) {
        Form::Seq(parts) => parts.len(),
        Form::Par(parts) => parts.len(),
        Form::If(choices) => choices.len(),
        Form::Alt(alternatives) => alternatives.len(),
        _ => 0,
    }
}

/// A right side, where it differs from the part and keeps the rules in the scope.
fn kept(alloc: Global, asked: &Asked<'_>, found: Proc) -> Result<Option<Proc>, Memory>
    requires { scope_kept asked.now.scope.now ≡ true }
    ensures { IfOk result (IsKept asked.now.scope.now (tree asked.now.left.now) (tree found)) }
{
    if same_proc(asked.left, &found) {
        return Ok(None);
    }
    let program = Program {
        name: Name(0),
        params: asked.scope.copy(alloc)?,
        body: found,
    };
    if keeps(alloc, &program)? {
        Ok(Some(program.body))
    } else {
        Ok(None)
    }
}

/// The change that the law makes at a place.
pub(crate) fn change_at(
    alloc: Global,
    store: &mut Store,
    asked: &Asked<'_>,
    place: Place,
) -> Result<Option<Proc>, Memory>
    requires scope { scope_kept asked.now.scope.now ≡ true }
    requires left { Keeps (environment asked.now.scope.now) (tree asked.now.left.now) }
    ensures { IfOk result (IsChangeAt asked.now.law.0 asked.now.scope.now (tree asked.now.left.now) place) }
{
    match right(alloc, store, asked.law, asked.scope, asked.left, place)? {
        Some(found) => kept(alloc, asked, found),
        None => Ok(None),
    }
}
