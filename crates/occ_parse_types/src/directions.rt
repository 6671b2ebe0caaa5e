ghost use Rattle.std.specs.Prelude.{◌≡◌, [], IfOk, None};
ghost use Rattle.occ_parse_forms.specs.Shape.{shape, waiting};
ghost use Rattle.occ_parse_rules.specs.Forest.{forest};
ghost use Rattle.occ_parse_rules.specs.Judging.{first_fault};
ghost use Rattle.occ_parse_rules.specs.Places.{for_some};
ghost use Rattle.occ_parse_rules.specs.Types.{direction_fault, line_against, waiting_against};
ghost use Rattle.occ_parse_types.specs.Walking.{line_of};

use crate::asking::Test;
use crate::turns::some_value;
use occ_parse_forms::{Form, Wants};
use occ_parse_rules::Node;
use occ_parse_scopes::Scopes;
use occ_syntax::{Dir, Memory};
use std::alloc::Global;

fn wants_against(scopes: &Scopes, wants: &Wants) -> bool
    ensures { result ≡ for_some scopes.now (λ ρ. waiting_against scopes.now ρ (waiting wants.now)) }
{
    match wants {
        Wants::Skip => false,
        Wants::Input { chan, .. } => some_value(scopes, *chan, Test::Against(Dir::Input)),
        Wants::Output { chan, .. } => some_value(scopes, *chan, Test::Against(Dir::Output)),
    }
}

/// Whether a line uses a channel parameter against its mark, for some values of the indices.
fn line_against(scopes: &Scopes, form: &Form) -> bool
    ensures { result ≡ for_some scopes.now (λ ρ. line_against scopes.now ρ (shape form.now)) }
{
    match form {
        Form::Input { chan, .. } => some_value(scopes, *chan, Test::Against(Dir::Input)),
        Form::Output { chan, .. } => some_value(scopes, *chan, Test::Against(Dir::Output)),
        Form::Guard { wants, .. } => wants_against(scopes, wants),
        _ => false,
    }
}

/// The first of the lines at one level, and of those below them, that uses a channel parameter against its mark. The scope
/// stays where there is none.
fn first_in(scopes: &mut Scopes, nodes: &[Node]) -> Result<Option<u32>, Memory>
    ensures fault { IfOk result (λ r. r ≡ line_of (first_fault direction_fault scopes.old scopes.old (forest nodes.now))) }
    ensures same { IfOk result (λ r. r ≡ None → scopes.new ≡ scopes.old) }
{
    let outer = scopes.depth();
    for node in nodes {
        let (line, form, below) = node.seen();
        if line_against(scopes, form) {
            return Ok(Some(line));
        }
        let depth = scopes.depth();
        scopes.enter(form)?;
        if let Some(found) = first_in(scopes, below)? {
            return Ok(Some(found));
        }
        scopes.close(depth);
        scopes.pass(form, outer)?;
    }
    scopes.close(outer);
    Ok(None)
}

/// The first line of a text that uses a channel parameter against its mark, for some values that the indices in scope take
/// together; None where no line does.
pub fn direction_fault(alloc: Global, nodes: &[Node]) -> Result<Option<u32>, Memory>
    ensures { IfOk result (λ r. r ≡ line_of (first_fault direction_fault [] [] (forest nodes.now))) }
{
    let mut scopes = Scopes::new(alloc);
    first_in(&mut scopes, nodes)
}

/// The same for lines that stand in a scope. The scope stays where there is no fault.
pub fn direction_fault_in(scopes: &mut Scopes, nodes: &[Node]) -> Result<Option<u32>, Memory>
    ensures fault { IfOk result (λ r. r ≡ line_of (first_fault direction_fault scopes.old scopes.old (forest nodes.now))) }
    ensures same { IfOk result (λ r. r ≡ None → scopes.new ≡ scopes.old) }
{
    first_in(scopes, nodes)
}
