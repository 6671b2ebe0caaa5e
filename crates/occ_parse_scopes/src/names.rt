ghost use Rattle.std.specs.Prelude.{◌≡◌, [], IfOk, OnOk, None};
ghost use Rattle.std.specs.List.{list_any};
ghost use Rattle.occ_parse_forms.specs.Shape.{shape};
ghost use Rattle.occ_parse_rules.specs.Forest.{forest};
ghost use Rattle.occ_parse_rules.specs.Judging.{first_fault};
ghost use Rattle.occ_parse_rules.specs.Names.{is_there, left_items, name_fault, redeclares, redeclares_some, some_meet as some_items_meet};
ghost use Rattle.occ_parse_rules.specs.Places.{entries_of, param_entries, places};
ghost use Rattle.occ_parse_scopes.specs.Checking.{StandsOn};

use crate::reach::some_meet;
use crate::uses::Check;
use crate::{Scopes, entry_of};
use occ_parse_forms::{Declared, Form, Param};
use occ_parse_rules::{NameFault, Node};
use occ_syntax::{Kind, Memory};
use std::alloc::Global;

/// Whether a place that a declaration declares is in scope already.
fn is_declared(scopes: &Scopes, declared: Declared) -> bool
    ensures { result ≡ list_any (is_there scopes.now) (places declared) }
{
    match declared {
        Declared::Plain(name) => scopes.sort(name, None).is_some(),
        Declared::Element(name, k) => scopes.sort(name, Some(u16::from(k))).is_some(),
        Declared::Array(name, count) => scopes.has_elements_below(name, count),
    }
}

/// Brings declarations into scope, in order, up to the first that declares a place again: whether there is one.
fn declares_again(scopes: &mut Scopes, kind: Kind, declared: &[Declared]) -> Result<bool, Memory>
    ensures again { IfOk result (λ r. r ≡ redeclares_some scopes.old (entries_of kind declared.now)) }
    ensures stands { OnOk result (StandsOn scopes.new scopes.old) }
{
    for one in declared {
        if is_declared(scopes, *one) {
            return Ok(true);
        }
        scopes.declare(entry_of(kind, *one))?;
    }
    Ok(false)
}

/// Brings parameters into scope, in order, up to the first that declares a place again: whether there is one.
fn params_again(scopes: &mut Scopes, params: &[Param]) -> Result<bool, Memory>
    ensures again { IfOk result (λ r. r ≡ redeclares_some scopes.old (param_entries params.now)) }
    ensures stands { OnOk result (StandsOn scopes.new scopes.old) }
{
    for param in params {
        if is_declared(scopes, param.declared) {
            return Ok(true);
        }
        scopes.declare(entry_of(param.kind, param.declared))?;
    }
    Ok(false)
}

/// Brings what a line declares into scope, up to the first place that is declared again: whether there is one.
fn line_again(scopes: &mut Scopes, form: &Form) -> Result<bool, Memory>
    ensures again { IfOk result (λ r. r ≡ redeclares scopes.old (shape form.now)) }
    ensures stands { OnOk result (StandsOn scopes.new scopes.old) }
{
    match form {
        Form::Header { params, .. } => params_again(scopes, params.items()),
        Form::Group {
            times: Some(times),
            ..
        } => Ok(is_declared(scopes, Declared::Plain(times.index))),
        Form::Declare(declaration) => {
            declares_again(scopes, declaration.kind, declaration.declared.items())
        }
        _ => Ok(false),
    }
}

/// Whether a line declares a place that is in scope already. The scope stays.
fn redeclares(scopes: &mut Scopes, form: &Form) -> Result<bool, Memory>
    ensures again { IfOk result (λ r. r ≡ redeclares scopes.old (shape form.now)) }
    ensures same { OnOk result (scopes.new ≡ scopes.old) }
{
    let depth = scopes.depth();
    let again = line_again(scopes, form)?;
    scopes.close(depth);
    Ok(again)
}

/// Whether two items that a line assigns are one element for some values of their indices.
fn left_meet(alloc: Global, scopes: &Scopes, form: &Form) -> Result<bool, Memory>
    ensures { IfOk result (λ r. r ≡ some_items_meet scopes.now (left_items (shape form.now))) }
{
    match form {
        Form::Assign { left, .. } => some_meet(alloc, scopes, left.items()),
        _ => Ok(false),
    }
}

/// What is wrong with the names of a line. The scope stays.
fn line_fault(alloc: Global, scopes: &mut Scopes, form: &Form) -> Result<Option<NameFault>, Memory>
    ensures fault { IfOk result (λ r. r ≡ name_fault scopes.old (shape form.now)) }
    ensures same { OnOk result (scopes.new ≡ scopes.old) }
{
    if Check::Undeclared.fails_on(scopes, form) {
        return Ok(Some(NameFault::Undeclared));
    }
    if redeclares(scopes, form)? {
        return Ok(Some(NameFault::Redeclared));
    }
    if Check::Outside.fails_on(scopes, form) || left_meet(alloc, scopes, form)? {
        return Ok(Some(NameFault::Index));
    }
    Ok(None)
}

/// The first of the lines at one level, and of those below them, that has a fault, and its fault. The scope stays where
/// there is none.
fn first_in(
    alloc: Global,
    scopes: &mut Scopes,
    nodes: &[Node],
) -> Result<Option<(u32, NameFault)>, Memory>
    ensures fault { IfOk result
        (λ r. r ≡ first_fault name_fault scopes.old scopes.old (forest nodes.now)) }
    ensures same { IfOk result (λ r. r ≡ None → scopes.new ≡ scopes.old) }
{
    let outer = scopes.depth();
    for node in nodes {
        let (line, form, below) = node.seen();
        if let Some(fault) = line_fault(alloc, scopes, form)? {
            return Ok(Some((line, fault)));
        }
        let depth = scopes.depth();
        scopes.enter(form)?;
        if let Some(found) = first_in(alloc, scopes, below)? {
            return Ok(Some(found));
        }
        scopes.close(depth);
        scopes.pass(form, outer)?;
    }
    scopes.close(outer);
    Ok(None)
}

/// The first line of a text that has a fault in its names, and that fault; None where there is none. Each line is judged in
/// its scope, from outside in: a name that isn't in scope, then a name that is declared again, then an element that isn't in
/// scope for some value of its index, or two left items of an assignment that are one element.
pub fn name_fault(alloc: Global, nodes: &[Node]) -> Result<Option<(u32, NameFault)>, Memory>
    ensures { IfOk result (λ r. r ≡ first_fault name_fault [] [] (forest nodes.now)) }
{
    let mut scopes = Scopes::new(alloc);
    first_in(alloc, &mut scopes, nodes)
}

/// The same for lines that stand in a scope. The scope stays where there is no fault.
pub fn name_fault_in(
    alloc: Global,
    scopes: &mut Scopes,
    nodes: &[Node],
) -> Result<Option<(u32, NameFault)>, Memory>
    ensures fault { IfOk result
        (λ r. r ≡ first_fault name_fault scopes.old scopes.old (forest nodes.now)) }
    ensures same { IfOk result (λ r. r ≡ None → scopes.new ≡ scopes.old) }
{
    first_in(alloc, scopes, nodes)
}
