//! The part at a path, and what is in scope there.

ghost use Rattle.std.specs.Prelude.{◌≡◌, ◌++◌, IfOk, IsSome, OnOk, option_to_list};
ghost use Rattle.occ_usage.specs.occ_meaning.Context.{branch_at, case_at, child as child_of, only_at, part_at, tree_at};
ghost use Rattle.occ_syntax.specs.View.{branches, cases, tree, trees};
ghost use Rattle.occ_script_lines.specs.Places.{IsFound, declared_by, scope_list};

use crate::Path;
use occ_lex::{Memory, Name};
use occ_syntax::{Expr, Guard, Kind, Proc, Program, Scope};
use std::alloc::Global;

fn only(body: &Proc, place: usize) -> Option<&Proc>
    ensures { IsFound (only_at (tree body.now) place) result }
{
    if place == 0 { Some(body) } else { None }
}

fn of_parts(parts: &[Proc], place: usize) -> Option<&Proc>
    ensures { IsFound (tree_at (trees parts.now) place) result }
{
    if place < parts.len() {
        Some(&parts[place])
    } else {
        None
    }
}

fn of_choices(choices: &[(Expr, Proc)], place: usize) -> Option<&Proc>
    ensures { IsFound (case_at (cases choices.now) place) result }
{
    if place < choices.len() {
        let (_, part) = &choices[place];
        Some(part)
    } else {
        None
    }
}

fn of_branches(alternatives: &[(Guard, Proc)], place: usize) -> Option<&Proc>
    ensures { IsFound (branch_at (branches alternatives.now) place) result }
{
    if place < alternatives.len() {
        let (_, part) = &alternatives[place];
        Some(part)
    } else {
        None
    }
}

/// The part of a process at a place, where there is one. It takes no memory.
#[tactic(auto, unfolding(crate::specs::tree))]
pub(crate) fn child(part: &Proc, place: u32) -> Option<&Proc>
    ensures { IsFound (child_of (tree part.now) place) result }
{
    let place = place as usize;
    match part {
        Proc::Skip | Proc::Stop => None,
        Proc::Assign { .. } | Proc::Input { .. } | Proc::Output { .. } => None,
        Proc::Seq(parts) => of_parts(parts.items(), place),
        Proc::Par(parts) => of_parts(parts.items(), place),
        Proc::If(choices) => of_choices(choices.items(), place),
        Proc::Alt(alternatives) => of_branches(alternatives.items(), place),
        Proc::Var { body, .. } | Proc::Chan { body, .. } => only(body, place),
    }
}

/// The part of a program at a path, None exactly where there is none. It takes no memory.
pub fn at<'a>(program: &'a Program, path: &Path) -> Option<&'a Proc>
    ensures { IsFound (part_at path.now (tree program.now.body)) result }
{
    let mut part = &program.body;
    for place in path.items() {
        match child(part, *place) {
            Some(below) => part = below,
            None => return None,
        }
    }
    Some(part)
}

/// The declaration that a process is, where it is one. A channel is declared without a mark.
#[tactic(auto, using(crate::proofs::Children::declared_none, crate::proofs::Children::declared_var, crate::proofs::Children::declared_chan))]
fn declaration(part: &Proc) -> Option<(Name, Kind)>
    ensures { option_to_list result ≡ declared_by (tree part.now) }
{
    match part.declared() {
        Some((name, kind, _)) => match kind {
            Kind::Var(width) => Some((name, Kind::Var(width))),
            Kind::Chan(width, _) => Some((name, Kind::Chan(width, None))),
        },
        None => None,
    }
}

fn enter(scope: &mut Scope, part: &Proc) -> Result<(), Memory>
    ensures { OnOk result (scope.new ≡ scope.old ++ declared_by (tree part.now)) }
{
    if let Some(entry) = declaration(part) {
        scope.push(entry)?;
    }
    Ok(())
}

/// The names in scope at a path of a program, with their kinds, from outside in.
pub fn scope_at(alloc: Global, program: &Program, path: &Path) -> Result<Scope, Memory>
    requires { IsSome (part_at path.now (tree program.now.body)) }
    ensures { IfOk result (λ scope. scope ≡ scope_list path.now program.now.params (tree program.now.body)) }
{
    let mut scope = program.params.copy(alloc)?;
    let mut part = &program.body;
    for place in path.items() {
        enter(&mut scope, part)?;
        match child(part, *place) {
            Some(below) => part = below,
            None => unreachable!(),
        }
    }
    Ok(scope)
}
