//! One move of a program: a part that is given, or the direct result of a law, is put in at a path.

ghost use Rattle.std.specs.Prelude.{◌≡◌, IfErr, IfOk, IsSome, None, Some};
ghost use Rattle.occ_engine.specs.Exchanged.{IsIn};
ghost use Rattle.occ_engine.specs.Moved.{IsMoved, IsNotDirect, IsNotGiven, move_of, wish_for};
ghost use Rattle.occ_script_write.specs.occ_meaning.Context.{part_at};
ghost use Rattle.occ_script_write.specs.occ_script_lines.Places.{scope_list};
ghost use Rattle.occ_syntax.specs.View.{tree};
ghost use Rattle.occ_law_any.specs.occ_usage.Accepted.{KeepsRules};

use crate::ApplyFault;
use crate::applying::{apply, joins};
use crate::exchange::{Exchange, exchanged};
use crate::fault::Stopped;
use occ_script_write::{Direction, Done, LawId, Path, Store, at};
use occ_syntax::{Memory, Proc, Program, Scope};
use std::alloc::Global;

/// A law used at a path, and the scope there.
#[derive(Clone, Copy)]
pub(crate) struct Use<'a> {
    pub(crate) law: LawId,
    pub(crate) dir: Direction,
    pub(crate) path: &'a Path,
    pub(crate) scope: &'a Scope,
}

/// The program to which a step leads, and the step.
#[derive(Drop)]
pub(crate) struct Moved {
    pub(crate) to: Program,
    pub(crate) done: Done,
}

/// The step by which a part was put in.
fn done(alloc: Global, used: &Use<'_>, part: Proc) -> Result<Done, Memory>
    ensures law { IfOk result (λ done. done.law ≡ used.now.law) }
    ensures dir { IfOk result (λ done. done.dir ≡ used.now.dir) }
    ensures path { IfOk result (λ done. done.path ≡ used.now.path.now) }
    ensures part { IfOk result (λ done. done.part ≡ part) }
{
    let path = used.path.copy(alloc)?;
    Ok(Done {
        law: used.law,
        dir: used.dir,
        path,
        part,
    })
}

/// The program with a part that is given put in at a path, where it may be put in, and the law joins the part there with it.
pub(crate) fn given(
    alloc: Global,
    store: &mut Store,
    program: Program,
    used: &Use<'_>,
    part: Proc,
) -> Result<Moved, Stopped>
    requires rules { KeepsRules program }
    requires there { IsSome (part_at used.now.path.now (tree program.body)) }
    requires scope { used.now.scope.now ≡ scope_list used.now.path.now program.params (tree program.body) }
    ensures found { IfOk result (IsMoved program (wish_for used.now.law used.now.dir used.now.path.now (Some (tree part)))) }
    ensures stopped { IfErr result (IsNotGiven program used.now.law used.now.dir used.now.path.now (tree part)) }
{
    let Some(exchange) = exchanged(alloc, program, used.scope, used.path, part)? else {
        return Err(Stopped::NotAccepted);
    };
    let Exchange { whole, old, new } = exchange;
    if joins(alloc, store, (used.law, used.dir), used.scope, (&old, &new))? {
        let done = done(alloc, used, new)?;
        Ok(Moved { to: whole, done })
    } else {
        Err(Stopped::NotApplicable)
    }
}

/// The program with the direct result of a law put in at a path, where the law has one, and that may be put in.
pub(crate) fn direct(
    alloc: Global,
    store: &mut Store,
    program: Program,
    used: &Use<'_>,
) -> Result<Moved, Stopped>
    requires rules { KeepsRules program }
    requires there { IsSome (part_at used.now.path.now (tree program.body)) }
    requires scope { used.now.scope.now ≡ scope_list used.now.path.now program.params (tree program.body) }
    ensures found { IfOk result (IsMoved program (wish_for used.now.law used.now.dir used.now.path.now None)) }
    ensures stopped { IfErr result (IsNotDirect program used.now.law used.now.dir used.now.path.now) }
{
    let Some(old) = at(&program, used.path) else {
        unreachable!();
    };
    let part = match apply(alloc, store, used.law, used.dir, None, used.scope, old) {
        Ok(part) => part,
        Err(ApplyFault::NotApplicable) => return Err(Stopped::NotApplicable),
        Err(ApplyFault::Memory) => return Err(Stopped::Memory),
    };
    let Some(exchange) = exchanged(alloc, program, used.scope, used.path, part)? else {
        return Err(Stopped::NotAccepted);
    };
    let Exchange { whole, old: _, new } = exchange;
    let done = done(alloc, used, new)?;
    Ok(Moved { to: whole, done })
}
