ghost use Rattle.std.specs.Prelude.{◌≡◌, ◌≤◌, ◌*◌, ℕ, min, length};
ghost use Rattle.occ_syntax.specs.Counts.{controls as controls_of};
ghost use Rattle.occ_parse_forms.specs.Shape.{shape};
ghost use Rattle.occ_parse_rules.specs.Forest.{forest};
ghost use Rattle.occ_parse_rules.specs.Places.{Sorts, places as places_in};
ghost use Rattle.occ_parse_rules.specs.Unrolled.{Numbers, slot_process, times_of as times_in};
ghost use Rattle.occ_parse_unroll.specs.Sizes.{branch_size, case_size, construct_size, names_in as names_of, process_size, sizes};

use crate::reading::{condition, declaration, group, is_guard, nested};
use occ_parse_forms::{Declared, Form, Group, Times};
use occ_parse_rules::Node;

/// One more than the most controls of a program: a count that passes it stops there.
const STOP: u64 = 4097;

/// The controls of the process that the lines of a slot stand for, counted up to 4,097. It is the same in each scope,
/// however the names are numbered. No copy is made, and it takes no memory.
pub fn controls(nodes: &[Node]) -> u64
    ensures { (N : Numbers) (Γ : Sorts) → result ≡ min 4097 (controls_of (slot_process N Γ (forest nodes.now))) }
{
    first(nodes)
}

/// How many names declarations declare, counted up to 4,097.
pub fn names_in(declared: &[Declared]) -> u64
    ensures { result ≡ min 4097 (names_of declared.now) }
{
    let mut count = 0;
    for d in declared {
        count = (count + places(*d)).min(STOP);
    }
    count
}

/// How many names a declaration declares.
pub fn places(declared: Declared) -> u64
    ensures number { result ≡ length (places_in declared) }
    ensures few { result ≤ 255 }
{
    match declared {
        Declared::Plain(_) | Declared::Element(_, _) => 1,
        Declared::Array(_, count) => u64::from(count),
    }
}

/// How many copies there are of what stands below a construct.
pub fn copies(times: Option<Times>) -> u64
    ensures { result ≡ times_in times }
{
    match times {
        None => 1,
        Some(times) => u64::from(times.count),
    }
}

fn many(times: Option<Times>, count: u64) -> u64
    ensures { result ≡ min 4097 (times_in times * count) }
{
    copies(times).saturating_mul(count).min(STOP)
}

#[cycle(sizes)]
fn process(form: &Form, below: &[Node]) -> u64
    ensures { result ≡ min 4097 (process_size (shape form.now) (sizes (forest below.now))) }
{
    match group(form) {
        Some((group, times)) => construct(group, times, below),
        None => 1,
    }
}

#[cycle(sizes)]
fn construct(group: Group, times: Option<Times>, below: &[Node]) -> u64
    ensures { result ≡ min 4097 (construct_size group times (sizes (forest below.now))) }
{
    let count = match group {
        Group::Seq => many(times, parts(below)),
        Group::Par => many(times, parts(below)),
        Group::If => many(times, choices(below)),
        Group::Alt => many(times, alternatives(below)),
    };
    (1 + count).min(STOP)
}

#[cycle(sizes)]
fn first(nodes: &[Node]) -> u64
    ensures { result ≡ min 4097 ((sizes (forest nodes.now)).first 0) }
{
    let mut waiting = 0;
    for node in nodes {
        let (_, form, below) = node.seen();
        match declaration(form) {
            Some(declaration) => {
                waiting = (waiting + names_in(declaration.declared.items())).min(STOP);
            }
            None => return (waiting + process(form, below)).min(STOP),
        }
    }
    1
}

#[cycle(sizes)]
fn parts(nodes: &[Node]) -> u64
    ensures { result ≡ min 4097 ((sizes (forest nodes.now)).parts 0) }
{
    let mut count = 0;
    let mut waiting = 0;
    for node in nodes {
        let (_, form, below) = node.seen();
        match declaration(form) {
            Some(declaration) => {
                waiting = (waiting + names_in(declaration.declared.items())).min(STOP);
            }
            None => {
                count = (count + waiting + process(form, below)).min(STOP);
                waiting = 0;
            }
        }
    }
    count
}

/// The controls of choices, counted up to 4,097.
#[cycle(sizes)]
pub fn choices(nodes: &[Node]) -> u64
    ensures { result ≡ min 4097 (sizes (forest nodes.now)).cases }
{
    let mut count = 0;
    for node in nodes {
        let (_, form, below) = node.seen();
        count = (count + choice(form, below)).min(STOP);
    }
    count
}

#[cycle(sizes)]
fn choice(form: &Form, below: &[Node]) -> u64
    ensures { result ≡ min 4097 (case_size (shape form.now) (sizes (forest below.now))) }
{
    if condition(form).is_some() {
        return (1 + first(below)).min(STOP);
    }
    match nested(form, Group::If) {
        Some(times) => many(times, choices(below)),
        None => 0,
    }
}

/// The controls of alternatives, counted up to 4,097.
#[cycle(sizes)]
pub fn alternatives(nodes: &[Node]) -> u64
    ensures { result ≡ min 4097 (sizes (forest nodes.now)).branches }
{
    let mut count = 0;
    for node in nodes {
        let (_, form, below) = node.seen();
        count = (count + alternative(form, below)).min(STOP);
    }
    count
}

#[cycle(sizes)]
fn alternative(form: &Form, below: &[Node]) -> u64
    ensures { result ≡ min 4097 (branch_size (shape form.now) (sizes (forest below.now))) }
{
    if is_guard(form) {
        return (1 + first(below)).min(STOP);
    }
    match nested(form, Group::Alt) {
        Some(times) => many(times, alternatives(below)),
        None => 0,
    }
}
