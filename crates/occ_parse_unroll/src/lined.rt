ghost use Rattle.std.specs.Prelude.{◌≡◌, ◌++◌, length, replicate, OnOk, IfOk};
ghost use Rattle.std.specs.List.{flat_map};
ghost use Rattle.occ_parse_forms.specs.Shape.{shape};
ghost use Rattle.occ_parse_rules.specs.Forest.{forest};
ghost use Rattle.occ_parse_rules.specs.Places.{places as places_in};
ghost use Rattle.occ_parse_rules.specs.Unrolled.{lined, lined_construct, lined_option, lined_part, repeated, times_of};

use crate::counting::{copies, places};
use crate::reading::{declaration, group};
use occ_parse_forms::{Declared, Form, Group, Times};
use occ_parse_rules::Node;
use occ_syntax::{List, Memory};
use std::alloc::Global;

/// The number of the line of each process that the lines of slots stand for, the outer ones first. A declared name is a
/// process, and each copy has its own processes.
pub fn line_numbers(alloc: Global, nodes: &[Node]) -> Result<List<u32>, Memory>
    ensures { IfOk result (λ lines. lines ≡ (lined (forest nodes.now)).parts) }
{
    let mut lines = List::new(alloc);
    add_parts(nodes, &mut lines)?;
    Ok(lines)
}

/// Adds a line's number for each name that it declares.
fn add_declared(line: u32, declared: &[Declared], lines: &mut List<u32>) -> Result<(), Memory>
    ensures { OnOk result (lines.new ≡ lines.old ++ replicate (length (flat_map places_in declared.now)) line) }
{
    for d in declared {
        add_often(line, places(*d), lines)?;
    }
    Ok(())
}

fn add_often(line: u32, count: u64, lines: &mut List<u32>) -> Result<(), Memory>
    ensures { OnOk result (lines.new ≡ lines.old ++ replicate count line) }
{
    for _ in 0..count {
        lines.push(line)?;
    }
    Ok(())
}

#[cycle(lined)]
fn add_parts(nodes: &[Node], lines: &mut List<u32>) -> Result<(), Memory>
    ensures { OnOk result (lines.new ≡ lines.old ++ (lined (forest nodes.now)).parts) }
{
    for node in nodes {
        let (line, form, below) = node.seen();
        add_part(line, form, below, lines)?;
    }
    Ok(())
}

#[cycle(lined)]
fn add_part(line: u32, form: &Form, below: &[Node], lines: &mut List<u32>) -> Result<(), Memory>
    ensures { OnOk result (lines.new ≡ lines.old ++ lined_part line (shape form.now) (lined (forest below.now))) }
{
    if let Some(declaration) = declaration(form) {
        return add_declared(line, declaration.declared.items(), lines);
    }
    lines.push(line)?;
    match group(form) {
        Some((Group::Seq, times)) => add_part_copies(times, below, lines),
        Some((Group::Par, times)) => add_part_copies(times, below, lines),
        Some((Group::If, times)) => add_option_copies(times, below, lines),
        Some((Group::Alt, times)) => add_option_copies(times, below, lines),
        None => Ok(()),
    }
}

#[cycle(lined)]
fn add_part_copies(
    times: Option<Times>,
    below: &[Node],
    lines: &mut List<u32>,
) -> Result<(), Memory>
    ensures { OnOk result (lines.new ≡ lines.old ++ repeated (times_of times) (lined (forest below.now)).parts) }
{
    for _ in 0..copies(times) {
        add_parts(below, lines)?;
    }
    Ok(())
}

#[cycle(lined)]
fn add_options(nodes: &[Node], lines: &mut List<u32>) -> Result<(), Memory>
    ensures { OnOk result (lines.new ≡ lines.old ++ (lined (forest nodes.now)).options) }
{
    for node in nodes {
        let (_, form, below) = node.seen();
        add_option(form, below, lines)?;
    }
    Ok(())
}

#[cycle(lined)]
fn add_option(form: &Form, below: &[Node], lines: &mut List<u32>) -> Result<(), Memory>
    ensures { OnOk result (lines.new ≡ lines.old ++ lined_option (shape form.now) (lined (forest below.now))) }
{
    match group(form) {
        Some((_, times)) => add_option_copies(times, below, lines),
        None => add_parts(below, lines),
    }
}

// Where the first copy has no process, none has, and no time goes into the others.
#[cycle(lined)]
fn add_option_copies(
    times: Option<Times>,
    below: &[Node],
    lines: &mut List<u32>,
) -> Result<(), Memory>
    ensures { OnOk result (lines.new ≡ lines.old ++ repeated (times_of times) (lined (forest below.now)).options) }
{
    for _ in 0..copies(times) {
        let before = lines.items().len();
        add_options(below, lines)?;
        if lines.items().len() == before {
            return Ok(());
        }
    }
    Ok(())
}
