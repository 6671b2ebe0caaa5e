//! A part of a program put in the place of another.

ghost use Rattle.std.specs.List.{AllByRecursion};
ghost use Rattle.std.specs.Prelude.{◌≡◌, IfOk, IsSome, Some};
ghost use Rattle.occ_usage.specs.occ_meaning.Context.{branch_at, case_at, child, part_at, tree_at, with_branch, with_case, with_child, with_tree};
ghost use Rattle.occ_syntax.specs.View.{branches, cases, in_alternatives, in_choices, in_procs, tree, trees};
ghost use Rattle.occ_script_lines.specs.Places.{IsPutIn};
ghost use Rattle.occ_script_lines.specs.Putting.{AreRound, HasPart, within};

use crate::Path;
use occ_lex::Memory;
use occ_syntax::{Alternatives, Choices, Expr, Guard, Proc, Procs, Program, Wait};
use std::alloc::Global;
use std::mem::replace as exchange;

/// A process round a part, and the part's place in it, where STOP stands meanwhile.
#[derive(Drop)]
struct Round {
    whole: Proc,
    place: u32,
}

/// Puts a process in the place of one of a row, and gives that one. It takes no memory.
fn exchange_part(parts: &mut Procs, place: usize, part: Proc) -> Proc
    requires { IsSome (tree_at (trees (in_procs parts.old)) place) }
    ensures put { trees (in_procs parts.new) ≡ with_tree (trees (in_procs parts.old)) place (tree part) }
    ensures taken { tree_at (trees (in_procs parts.old)) place ≡ Some (tree result) }
{
    parts.exchange(place, part)
}

/// The same of choices: the condition stays.
fn exchange_choice(choices: &mut Choices, place: usize, part: Proc) -> Proc
    requires { IsSome (case_at (cases (in_choices choices.old)) place) }
    ensures put { cases (in_choices choices.new) ≡ with_case (cases (in_choices choices.old)) place (tree part) }
    ensures taken { case_at (cases (in_choices choices.old)) place ≡ Some (tree result) }
{
    let (condition, old) = choices.exchange(place, (Expr::Bool(true), Proc::Stop));
    let (_, _) = choices.exchange(place, (condition, part));
    old
}

/// The same of alternatives: the guard stays.
fn exchange_alternative(alternatives: &mut Alternatives, place: usize, part: Proc) -> Proc
    requires { IsSome (branch_at (branches (in_alternatives alternatives.old)) place) }
    ensures put { branches (in_alternatives alternatives.new)
        ≡ with_branch (branches (in_alternatives alternatives.old)) place (tree part) }
    ensures taken { branch_at (branches (in_alternatives alternatives.old)) place ≡ Some (tree result) }
{
    let none = Guard {
        condition: Expr::Bool(true),
        wait: Wait::Skip,
    };
    let (guard, old) = alternatives.exchange(place, (none, Proc::Stop));
    let (_, _) = alternatives.exchange(place, (guard, part));
    old
}

/// Puts a process in the place of the part at a place of another one, and gives that part. It takes no memory.
#[tactic(auto, unfolding(crate::specs::tree))]
fn exchange_child(alloc: Global, whole: &mut Proc, place: u32, part: Proc) -> Proc
    requires { IsSome (child (tree whole.old) place) }
    ensures put { tree whole.new ≡ with_child (tree whole.old) place (tree part) }
    ensures taken { child (tree whole.old) place ≡ Some (tree result) }
{
    let index = place as usize;
    match whole {
        Proc::Seq(parts) => {
            let mut parts = exchange(parts, Procs::new(alloc));
            let old = exchange_part(&mut parts, index, part);
            *whole = Proc::Seq(parts);
            old
        }
        Proc::Par(parts) => {
            let mut parts = exchange(parts, Procs::new(alloc));
            let old = exchange_part(&mut parts, index, part);
            *whole = Proc::Par(parts);
            old
        }
        Proc::If(choices) => {
            let mut choices = exchange(choices, Choices::new(alloc));
            let old = exchange_choice(&mut choices, index, part);
            *whole = Proc::If(choices);
            old
        }
        Proc::Alt(alternatives) => {
            let mut alternatives = exchange(alternatives, Alternatives::new(alloc));
            let old = exchange_alternative(&mut alternatives, index, part);
            *whole = Proc::Alt(alternatives);
            old
        }
        Proc::Var { body, .. } => exchange(&mut **body, part),
        Proc::Chan { body, .. } => exchange(&mut **body, part),
        _ => unreachable!(),
    }
}

/// The part at a path, and the processes that stand round it, from outside in.
fn opened(alloc: Global, body: Proc, path: &Path) -> Result<(Vec<Round>, Proc), Memory>
    requires { IsSome (part_at path.now (tree body)) }
    ensures round { IfOk result (λ found. AreRound found.0.items path.now (tree body)) }
    ensures part { IfOk result (λ found. part_at path.now (tree body) ≡ Some (tree found.1)) }
{
    let mut round = Vec::new(alloc);
    let mut whole = body;
    for place in path.items() {
        let place = *place;
        let below = exchange_child(alloc, &mut whole, place, Proc::Stop);
        round.push(Round { whole, place })?;
        whole = below;
    }
    Ok((round, whole))
}

/// A process put in the place of a part, within the processes that stand round it. It takes no memory.
fn closed(alloc: Global, round: Vec<Round>, part: Proc) -> Proc
    requires { AllByRecursion HasPart round.items }
    ensures { tree result ≡ within round.items (tree part) }
{
    let mut round = round;
    let mut whole = part;
    while let Some(next) = round.pop() {
        let Round {
            whole: mut outer,
            place,
        } = next;
        let _hole = exchange_child(alloc, &mut outer, place, whole);
        whole = outer;
    }
    whole
}

/// A program with a part put in at a path, and the part that stood there. What stands beside the path stays where it is: nothing
/// is copied.
pub fn replace(
    alloc: Global,
    program: Program,
    path: &Path,
    part: Proc,
) -> Result<(Program, Proc), Memory>
    requires { IsSome (part_at path.now (tree program.body)) }
    ensures put { IfOk result (λ done. IsPutIn program path.now (tree part) done.0) }
    ensures taken { IfOk result (λ done. part_at path.now (tree program.body) ≡ Some (tree done.1)) }
{
    let Program { name, params, body } = program;
    let (round, old) = opened(alloc, body, path)?;
    let body = closed(alloc, round, part);
    Ok((Program { name, params, body }, old))
}

/// A copy of the program with a part put in at a path.
pub fn put(alloc: Global, program: &Program, path: &Path, part: &Proc) -> Result<Program, Memory>
    requires { IsSome (part_at path.now (tree program.now.body)) }
    ensures { IfOk result (λ whole. IsPutIn program.now path.now (tree part.now) whole) }
{
    let (whole, _) = replace(alloc, program.copy(alloc)?, path, part.copy(alloc)?)?;
    Ok(whole)
}
