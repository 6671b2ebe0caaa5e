//! The places of a part in order, up to the first at which a law changes it.

ghost use Rattle.std.specs.Prelude.{◌≡◌, IfOk, true};
ghost use Rattle.occ_law_any.specs.Changes.{IsDirectResult, IsFirstBehind, IsFirstBetween, IsFirstMore};
ghost use Rattle.occ_law_any.specs.Places.{breadth_of};
ghost use Rattle.occ_syntax.specs.Scopes.{environment};
ghost use Rattle.occ_syntax.specs.Types.{scope_kept};
ghost use Rattle.occ_syntax.specs.Usage.{Keeps};
ghost use Rattle.occ_syntax.specs.View.{tree};

use crate::asked::{Asked, breadth, change_at};
use occ_law_alt::{Changes, LawId, Place, Store};
use occ_syntax::{Memory, Proc, Scope};
use std::alloc::Global;

/// The first change behind some items.
fn first_behind(
    alloc: Global,
    store: &mut Store,
    asked: &Asked<'_>,
    breadth: usize,
) -> Result<Option<Proc>, Memory>
    requires scope { scope_kept asked.now.scope.now ≡ true }
    requires left { Keeps (environment asked.now.scope.now) (tree asked.now.left.now) }
    ensures { IfOk result (IsFirstBehind asked.now.law.0 asked.now.scope.now (tree asked.now.left.now) breadth) }
{
    for k in 0..breadth {
        if let Some(found) = change_at(alloc, store, asked, Place::Behind(k))? {
            return Ok(Some(found));
        }
    }
    change_at(alloc, store, asked, Place::Behind(breadth))
}

/// The first change behind so many items and some more.
fn first_more(
    alloc: Global,
    store: &mut Store,
    asked: &Asked<'_>,
    front: usize,
    breadth: usize,
) -> Result<Option<Proc>, Memory>
    requires scope { scope_kept asked.now.scope.now ≡ true }
    requires left { Keeps (environment asked.now.scope.now) (tree asked.now.left.now) }
    ensures { IfOk result (IsFirstMore asked.now.law.0 asked.now.scope.now (tree asked.now.left.now) front breadth) }
{
    for k in 0..breadth {
        if let Some(found) = change_at(alloc, store, asked, Place::Between(front, k))? {
            return Ok(Some(found));
        }
    }
    change_at(alloc, store, asked, Place::Between(front, breadth))
}

/// The first change behind some items and some more.
fn first_between(
    alloc: Global,
    store: &mut Store,
    asked: &Asked<'_>,
    breadth: usize,
) -> Result<Option<Proc>, Memory>
    requires scope { scope_kept asked.now.scope.now ≡ true }
    requires left { Keeps (environment asked.now.scope.now) (tree asked.now.left.now) }
    ensures { IfOk result (IsFirstBetween asked.now.law.0 asked.now.scope.now (tree asked.now.left.now) breadth) }
{
    for front in 0..breadth {
        if let Some(found) = first_more(alloc, store, asked, front, breadth)? {
            return Ok(Some(found));
        }
    }
    first_more(alloc, store, asked, breadth, breadth)
}

/// What a law makes of a part by itself: the right side of the instance that changes the part, whose right side keeps the
/// rules in the scope, and in which the lists in front of the changed place are the shortest. None exactly where there is no
/// such instance. The part keeps names, types, directions and usage in the scope.
pub fn direct(
    alloc: Global,
    store: &mut Store,
    law: LawId,
    scope: &Scope,
    left: &Proc,
) -> Result<Option<Proc>, Memory>
    requires scope { scope_kept scope.now ≡ true }
    requires left { Keeps (environment scope.now) (tree left.now) }
    ensures { IfOk result (IsDirectResult law.0 scope.now (tree left.now)) }
{
    let Some(known) = law.law() else {
        return Ok(None);
    };
    let asked = Asked { law, scope, left };
    match known.changes() {
        Changes::Whole => change_at(alloc, store, &asked, Place::Whole),
        Changes::Behind => first_behind(alloc, store, &asked, breadth(left)),
        Changes::Between => first_between(alloc, store, &asked, breadth(left)),
    }
}
