ghost use Rattle.std.specs.Prelude.{◌≡◌, OnOk, false};
ghost use Rattle.occ_syntax.specs.Declarations.{is_declaration};
ghost use Rattle.occ_syntax.specs.View.{branches, cases, tree, trees};
ghost use Rattle.occ_norm_arrange.specs.Notes.{Notes};
ghost use Rattle.occ_norm_arrange.specs.Declares.{branches_declare, cases_declare, declares, some_declare};

use occ_names::NameSet;
use occ_syntax::{Expr, Guard, Memory, Proc};

/// Adds the names that a part declares, anywhere in it.
#[cycle(note)]
pub fn note_declared(part: &Proc, names: &mut NameSet) -> Result<(), Memory>
    ensures { OnOk result (Notes names.old (declares (tree part.now)) names.new) }
{
    let mut body = part;
    while let Some((name, _, inside)) = body.declared() {
        names.insert(name)?;
        body = inside;
    }
    note_undeclared(body, names)
}

#[cycle(note)]
#[tactic(auto, unfolding(crate::specs::tree))]
fn note_undeclared(part: &Proc, names: &mut NameSet) -> Result<(), Memory>
    requires { is_declaration (tree part.now) ≡ false }
    ensures { OnOk result (Notes names.old (declares (tree part.now)) names.new) }
{
    match part {
        Proc::Skip | Proc::Stop => Ok(()),
        Proc::Assign { .. } | Proc::Input { .. } | Proc::Output { .. } => Ok(()),
        Proc::Seq(parts) => note_parts(parts.items(), names),
        Proc::Par(parts) => note_parts(parts.items(), names),
        Proc::If(choices) => note_choices(choices.items(), names),
        Proc::Alt(alternatives) => note_branches(alternatives.items(), names),
        Proc::Var { .. } | Proc::Chan { .. } => unreachable!(),
    }
}

#[cycle(note)]
fn note_parts(parts: &[Proc], names: &mut NameSet) -> Result<(), Memory>
    ensures { OnOk result (Notes names.old (some_declare (trees parts.now)) names.new) }
{
    for part in parts {
        note_declared(part, names)?;
    }
    Ok(())
}

#[cycle(note)]
fn note_choices(choices: &[(Expr, Proc)], names: &mut NameSet) -> Result<(), Memory>
    ensures { OnOk result (Notes names.old (cases_declare (cases choices.now)) names.new) }
{
    for (_, part) in choices {
        note_declared(part, names)?;
    }
    Ok(())
}

#[cycle(note)]
fn note_branches(alternatives: &[(Guard, Proc)], names: &mut NameSet) -> Result<(), Memory>
    ensures { OnOk result (Notes names.old (branches_declare (branches alternatives.now)) names.new) }
{
    for (_, part) in alternatives {
        note_declared(part, names)?;
    }
    Ok(())
}
