//! Orders as they are read.

ghost use Rattle.std.specs.Prelude.{◌≡◌, ◌<◌, ◌⊎◌, IfErr, IfOk, length};
ghost use Rattle.occ_script_lines.specs.occ_lex.Symbols.{Extends};
ghost use Rattle.occ_script.specs.declared.fault.ScriptFault.TheVariants as fault;
ghost use Rattle.occ_script.specs.Orders.{AreOrders, IsBadLines, IsBadOrder, IsBadRest, IsOrder, IsOrders, IsOrdersFault, IsPartThere};
ghost use Rattle.occ_script_lines.specs.Left.{left};
ghost use Rattle.occ_script_lines.specs.Sections.{section as seen};

use crate::content::Content;
use crate::fault::text_fault;
use crate::forming::check_head;
use crate::judging::{judged_lines, layout_fault};
use crate::part::{law, raw};
use crate::reading::MOST_BYTES;
use crate::{Order, Orders, ScriptFault};
use occ_parse_part::{ParseFault, Raw, Which, one_form};
use occ_script_lines::{Format, Section, Sections, step_line};
use occ_syntax::Names;
use std::alloc::Global;

/// The part that the lines of a section are, where it has lines.
fn part_there(
    alloc: Global,
    names: &mut Names,
    section: &Section,
) -> Result<Option<Raw>, ScriptFault>
    ensures found { IfOk result (λ part. IsPartThere names.old names.new (seen section.now) part) }
    ensures refused { IfErr result (λ e. IsBadLines names.old (seen section.now) e ⊎ (e ≡ fault.Memory)) }
    ensures extends { Extends names.old names.new }
{
    let found = judged_lines(alloc, names, Content::Part, section)?;
    if let Some(fault) = layout_fault(alloc, Content::Part, &found.judged)? {
        return Err(text_fault(fault));
    }
    if found.lines.is_empty() {
        return Ok(None);
    }
    // What a line says is one form, so these lines are a part.
    one_form();
    let part = raw(alloc, names, section.upto, &found.lines)?;
    Ok(Some(part))
}

/// The order that a section is.
fn order(alloc: Global, names: &mut Names, section: &Section) -> Result<Order, ScriptFault>
    ensures found { IfOk result (λ order. IsOrder names.old names.new (seen section.now) order) }
    ensures refused { IfErr result (λ e. IsBadOrder names.old (seen section.now) e ⊎ (e ≡ fault.Memory)) }
    ensures extends { Extends names.old names.new }
{
    let Some(head) = step_line(alloc, b"ORDER", section.row())? else {
        let line = section.number;
        return Err(ScriptFault::Form { line });
    };
    let part = part_there(alloc, names, section)?;
    Ok(Order {
        law: law(head.law),
        dir: head.dir,
        path: head.path,
        part,
    })
}

/// The orders that sections are.
fn rest(alloc: Global, names: &mut Names, sections: Sections) -> Result<Orders, ScriptFault>
    ensures found { IfOk result (λ orders. AreOrders names.old names.new (left sections.entry) orders) }
    ensures refused { IfErr result (λ e. IsBadRest names.old (left sections.entry) e ⊎ (e ≡ fault.Memory)) }
    ensures extends { Extends names.old names.new }
{
    let mut sections = sections;
    let mut orders = Orders::new(alloc);
    while let Some(section) = sections.next() {
        orders.push(order(alloc, names, &section)?)?;
    }
    Ok(orders)
}

/// Reads a text as orders. Its names are kept in the table, also where it is refused. `Memory` comes only where memory is short, and
/// each other fault is the first one that the text has: its length; version 1; and the least line with a fault of tokens or of form,
/// or over the limit on tokens. Orders are fewer than 4,294,967,295.
pub fn orders(alloc: Global, names: &mut Names, text: &[u8]) -> Result<Orders, ScriptFault>
    ensures found { IfOk result (λ orders. IsOrders text.now names.old names.new orders) }
    ensures few { IfOk result (λ orders. length orders < 4294967295) }
    ensures refused { IfErr result (λ e. IsOrdersFault text.now names.old e ⊎ (e ≡ fault.Memory)) }
    ensures extends { Extends names.old names.new }
{
    if text.len() > MOST_BYTES {
        let which = Which::Bytes;
        return Err(ScriptFault::Text(ParseFault::Limit { which, line: 1 }));
    }
    let mut sections = Sections::new(Format::Orders, text);
    let Some(head) = sections.next() else {
        return Err(ScriptFault::Form { line: 1 });
    };
    check_head(alloc, names, Format::Orders, &head)?;
    rest(alloc, names, sections)
}
