//! What the expansion of a PAR asks for.

ghost use Rattle.std.specs.Prelude.{◌≡◌, ◌∷◌, ◌++◌, [], IfOk, OnOk};
ghost use Rattle.occ_engine.specs.Wishes.{IsPair, pair_of, two_in, wishes_of, wrapped_tree};
ghost use Rattle.occ_replay_rules.specs.Expansion.{expanding, forward, preparing, sequencing, wrapping};
ghost use Rattle.occ_syntax.specs.Tree.{seq};
ghost use Rattle.occ_syntax.specs.View.{tree, trees};
ghost use Rattle.occ_script_write.specs.occ_law.Numbers.{number};

use occ_law_any::{Form, alt_of, opened};
use occ_script_write::{Direction, Law, LawId, Path};
use occ_syntax::{Alternatives, Expr, Guard, List, Memory, Proc, Wait};
use std::alloc::Global;

/// A law to be used at a path, and the part that is wanted there, if one is.
#[derive(Drop)]
pub(crate) struct Wish {
    pub(crate) law: LawId,
    pub(crate) dir: Direction,
    pub(crate) path: Path,
    pub(crate) wanted: Option<Proc>,
}

/// The two parts of a row of two.
fn two_in(parts: &[Proc]) -> Option<(&Proc, &Proc)>
    ensures { IsPair (two_in (trees parts.now)) result }
{
    match parts {
        [] => None,
        [first, rest @ ..] => match rest {
            [] => None,
            [second, more @ ..] => {
                if more.is_empty() {
                    Some((first, second))
                } else {
                    None
                }
            }
        },
    }
}

/// The two parts of a PAR of two.
pub(crate) fn pair(part: &Proc) -> Option<(&Proc, &Proc)>
    ensures { IsPair (pair_of (tree part.now)) result }
{
    match opened(part) {
        Form::Par(parts) => two_in(parts),
        Form::Skip | Form::Stop => None,
        Form::Assign(_, _) | Form::Input(_, _) | Form::Output(_, _) => None,
        Form::Seq(_) | Form::If(_) | Form::Alt(_) => None,
        Form::Var(_, _, _) | Form::Chan(_, _, _) => None,
    }
}

/// The path of a part below a path.
fn below(alloc: Global, path: &Path, place: u32) -> Result<Path, Memory>
    ensures { IfOk result (λ longer. longer ≡ path.now ++ place ∷ []) }
{
    let mut longer = path.copy(alloc)?;
    longer.push(place)?;
    Ok(longer)
}

/// Asks for the direct result of a law at a path.
fn push_forward(wishes: &mut List<Wish>, law: Law, path: Path) -> Result<(), Memory>
    ensures { OnOk result (wishes_of wishes.new ≡ wishes_of wishes.old ++ forward (number law) path ∷ []) }
{
    wishes.push(Wish {
        law: law.id(),
        dir: Direction::Forward,
        path,
        wanted: None,
    })
}

/// A process as an ALT that goes on with it at once.
fn wrapped(alloc: Global, part: Proc) -> Result<Proc, Memory>
    ensures { IfOk result (λ whole. tree whole ≡ wrapped_tree (tree part)) }
{
    let mut alternatives = Alternatives::new(alloc);
    let guard = Guard {
        condition: Expr::Bool(true),
        wait: Wait::Skip,
    };
    alternatives.push((guard, part))?;
    Ok(alt_of(alternatives))
}

/// Asks for a part to be made an ALT that goes on with it at once.
fn push_wrapping(
    alloc: Global,
    wishes: &mut List<Wish>,
    path: &Path,
    part: &Proc,
) -> Result<(), Memory>
    ensures { OnOk result (wishes_of wishes.new ≡ wishes_of wishes.old ++ wrapping path.now (tree part.now)) }
{
    let wanted = wrapped(alloc, part.copy(alloc)?)?;
    wishes.push(Wish {
        law: Law::AltSkip.id(),
        dir: Direction::Backward,
        path: path.copy(alloc)?,
        wanted: Some(wanted),
    })
}

/// Asks for a SEQ that begins with an ALT to be made one.
fn push_choice(alloc: Global, wishes: &mut List<Wish>, path: &Path) -> Result<(), Memory>
    ensures { OnOk result (wishes_of wishes.new ≡ wishes_of wishes.old ++ forward 13 path.now ∷ []) }
{
    push_forward(wishes, Law::SeqAlt, path.copy(alloc)?)
}

/// Asks for a SEQ that begins with an input or an output to be made an ALT.
fn push_begun(alloc: Global, wishes: &mut List<Wish>, path: &Path) -> Result<(), Memory>
    ensures { OnOk result (wishes_of wishes.new
        ≡ wishes_of wishes.old ++ forward 15 (path.now ++ 0 ∷ []) ∷ forward 13 path.now ∷ []) }
{
    push_forward(wishes, Law::IoAlt, below(alloc, path, 0)?)?;
    push_choice(alloc, wishes, path)
}

/// Asks for a SEQ to be made an ALT.
#[tactic(auto, unfolding(crate::specs::tree))]
fn push_sequencing(
    alloc: Global,
    wishes: &mut List<Wish>,
    path: &Path,
    part: &Proc,
    parts: &[Proc],
) -> Result<(), Memory>
    requires { tree part.now ≡ seq (trees parts.now) }
    ensures { OnOk result (wishes_of wishes.new ≡ wishes_of wishes.old ++ sequencing path.now (trees parts.now)) }
{
    match parts {
        [] => push_wrapping(alloc, wishes, path, part),
        [first, ..] => match first {
            Proc::Input { .. } | Proc::Output { .. } => push_begun(alloc, wishes, path),
            Proc::Alt(_) => push_choice(alloc, wishes, path),
            Proc::Skip | Proc::Stop | Proc::Assign { .. } => {
                push_wrapping(alloc, wishes, path, part)
            }
            Proc::Seq(_) | Proc::Par(_) | Proc::If(_) => push_wrapping(alloc, wishes, path, part),
            Proc::Var { .. } | Proc::Chan { .. } => push_wrapping(alloc, wishes, path, part),
        },
    }
}

/// Asks for a part to be made an ALT.
fn push_preparing(
    alloc: Global,
    wishes: &mut List<Wish>,
    path: &Path,
    part: &Proc,
) -> Result<(), Memory>
    ensures { OnOk result (wishes_of wishes.new ≡ wishes_of wishes.old ++ preparing path.now (tree part.now)) }
{
    match opened(part) {
        Form::Alt(_) => Ok(()),
        Form::Input(_, _) | Form::Output(_, _) => {
            push_forward(wishes, Law::IoAlt, path.copy(alloc)?)
        }
        Form::Seq(parts) => push_sequencing(alloc, wishes, path, part, parts),
        Form::Skip | Form::Stop => push_wrapping(alloc, wishes, path, part),
        Form::Assign(_, _) => push_wrapping(alloc, wishes, path, part),
        Form::Par(_) | Form::If(_) => push_wrapping(alloc, wishes, path, part),
        Form::Var(_, _, _) | Form::Chan(_, _, _) => push_wrapping(alloc, wishes, path, part),
    }
}

/// What the expansion of the PAR of two parts at a path asks for, one after the other.
pub(crate) fn expanding(
    alloc: Global,
    path: &Path,
    first: &Proc,
    second: &Proc,
) -> Result<List<Wish>, Memory>
    ensures { IfOk result (λ wishes. wishes_of wishes ≡ expanding path.now (tree first.now) (tree second.now)) }
{
    let mut wishes = List::new(alloc);
    push_preparing(alloc, &mut wishes, &below(alloc, path, 0)?, first)?;
    push_preparing(alloc, &mut wishes, &below(alloc, path, 1)?, second)?;
    push_forward(&mut wishes, Law::ParExpand, path.copy(alloc)?)?;
    Ok(wishes)
}
