use occ_parse_rules::{Form, Group, Node, ParseFormsDeclared as Declared};
use occ_syntax::{Kind, Memory, Name, push_number};
use std::alloc::Global;

/// The number of no part, process, guard or index.
pub const NOWHERE: usize = usize::MAX;

/// Where a process of the body stands.
#[derive(Clone, Copy, Debug)]
pub struct Site {
    /// Its line, counted from 1.
    pub line: u32,
    /// The part that it belongs to, by its number in the list of parts.
    pub part: usize,
    /// The innermost index round it, by its number in the list of indices; or `NOWHERE`.
    pub counter: usize,
}

/// A guard of an ALT, or a choice of an IF.
#[derive(Clone, Copy, Debug)]
pub struct Branch {
    /// The number of the ALT or the IF among the processes.
    pub of: usize,
    /// The line of the guard or the condition.
    pub line: u32,
    /// The innermost index round it, as of a process.
    pub counter: usize,
    /// The number of the process behind it.
    pub body: usize,
}

/// The value of a replicator's index in one of its copies.
#[derive(Clone, Copy, Debug)]
pub struct Counter {
    pub name: Name,
    pub value: u16,
    /// The next index outside; or `NOWHERE`.
    pub outer: usize,
}

/// A part: a process of a PAR, or the body.
#[derive(Drop)]
pub struct Part {
    /// `P1`, `P2.1`, `P1[0]`; `P` is the body.
    pub name: Vec<u8>,
    /// The name without the brackets of a copy, by its length.
    pub stem: usize,
    /// The value of the index, where the part is the one process of a copy.
    pub copy: Option<u16>,
    pub first: u32,
    pub last: u32,
    /// The line whose comment above is told, where there is none above the first line.
    pub header: u32,
    /// The number of its PAR among the processes; `NOWHERE` for the body.
    pub par: usize,
    /// The part round it; `NOWHERE` for the body.
    pub outer: usize,
    /// The innermost index round it.
    pub counter: usize,
    /// Whether it has something to do that isn't in a part of its own.
    pub acts: bool,
}

/// The places of a program's body, by the lines that it is written on. Processes have the numbers of their order, the outer ones first.
#[derive(Drop)]
pub struct Layout {
    pub sites: Vec<Site>,
    pub branches: Vec<Branch>,
    pub counters: Vec<Counter>,
    pub parts: Vec<Part>,
}

#[derive(Clone, Copy)]
struct Here {
    part: usize,
    counter: usize,
    // the PAR whose parts the next slots are, and the line and the value of its copy
    par: usize,
    header: u32,
    copy: Option<u16>,
}

impl Layout {
    /// The places of the lines below a header.
    pub(crate) fn of(alloc: Global, below: &[Node]) -> Result<Layout, Memory> {
        let mut layout = Layout {
            sites: Vec::new(alloc),
            branches: Vec::new(alloc),
            counters: Vec::new(alloc),
            parts: Vec::new(alloc),
        };
        let body = Part {
            name: Vec::from_slice(alloc, b"P")?,
            stem: 1,
            copy: None,
            first: first_line(below),
            last: last_line(below),
            header: 0,
            par: NOWHERE,
            outer: NOWHERE,
            counter: NOWHERE,
            acts: false,
        };
        layout.parts.push(body)?;
        let here = Here {
            part: 0,
            counter: NOWHERE,
            par: NOWHERE,
            header: 0,
            copy: None,
        };
        slots(alloc, &mut layout, below, here)?;
        Ok(layout)
    }

    fn site(&mut self, line: u32, here: Here, acts: bool) -> Result<usize, Memory> {
        let number = self.sites.len();
        self.sites.push(Site {
            line,
            part: here.part,
            counter: here.counter,
        })?;
        if acts {
            if let Some(part) = self.parts.get_mut(here.part) {
                part.acts = true;
            }
        }
        Ok(number)
    }

    fn declared(&mut self, line: u32, here: Here, names: (u64, bool)) -> Result<(), Memory> {
        for _ in 0..names.0 {
            self.site(line, here, names.1)?;
        }
        Ok(())
    }

    fn count(&mut self, name: Name, value: u16, here: Here) -> Result<Here, Memory> {
        let counter = self.counters.len();
        self.counters.push(Counter {
            name,
            value,
            outer: here.counter,
        })?;
        let copy = Some(value);
        Ok(Here {
            counter,
            copy,
            ..here
        })
    }

    /// Begins the k-th part of a PAR, of so many below its word.
    fn open(
        &mut self,
        alloc: Global,
        here: Here,
        order: (usize, usize),
        first: u32,
    ) -> Result<Here, Memory> {
        let mut name = Vec::new(alloc);
        if let Some(part) = self.parts.get(here.part) {
            name.extend_from_slice(&part.name)?;
        }
        let stem = name.len();
        let mut copy = None;
        if let Some(value) = here.copy {
            name.push(b'[')?;
            push_number(&mut name, u64::from(value))?;
            name.push(b']')?;
            copy = here.copy;
        }
        if here.copy.is_none() || order.1 > 1 {
            if here.part != 0 || here.copy.is_some() {
                name.push(b'.')?;
            }
            push_number(&mut name, order.0 as u64)?;
            copy = None;
        }
        let number = self.parts.len();
        self.parts.push(Part {
            name,
            stem,
            copy,
            first,
            last: first,
            header: here.header,
            par: here.par,
            outer: here.part,
            counter: here.counter,
            acts: false,
        })?;
        Ok(Here {
            part: number,
            counter: here.counter,
            par: NOWHERE,
            header: 0,
            copy: None,
        })
    }

    fn reaches(&mut self, part: usize, line: u32) {
        if let Some(part) = self.parts.get_mut(part) {
            part.last = part.last.max(line);
        }
    }
}

fn first_line(nodes: &[Node]) -> u32 {
    match nodes {
        [first, ..] => first.seen().0,
        [] => 1,
    }
}

/// The last line of those and of all below them.
fn last_line(nodes: &[Node]) -> u32 {
    let mut last = 1;
    for node in nodes {
        let (line, _, below) = node.seen();
        last = line.max(last_line(below));
    }
    last
}

fn processes_in(nodes: &[Node]) -> usize {
    let mut count: usize = 0;
    for node in nodes {
        let (_, form, _) = node.seen();
        if !matches!(form, Form::Declare(_)) {
            count = count.saturating_add(1);
        }
    }
    count
}

/// How many names a line declares, and whether they are variables; 0 where it is no declaration.
fn declared_on(form: &Form) -> (u64, bool) {
    let Form::Declare(declaration) = form else {
        return (0, false);
    };
    let mut count: u64 = 0;
    for declared in declaration.declared.items() {
        count = count.saturating_add(names_of(*declared));
    }
    (count, matches!(declaration.kind, Kind::Var(_)))
}

fn names_of(declared: Declared) -> u64 {
    match declared {
        Declared::Array(_, count) => u64::from(count),
        Declared::Plain(_) | Declared::Element(_, _) => 1,
    }
}

/// Adds the processes of slots: each is declarations and a process. They are parts, where `here` names their PAR.
#[cycle(places)]
fn slots(alloc: Global, layout: &mut Layout, nodes: &[Node], here: Here) -> Result<(), Memory> {
    let many = processes_in(nodes);
    let mut order: usize = 0;
    let mut inside = here;
    let mut open = false;
    for node in nodes {
        let (line, form, below) = node.seen();
        if !open && here.par != NOWHERE {
            order = order.saturating_add(1);
            inside = layout.open(alloc, here, (order, many), line)?;
            open = true;
        }
        layout.reaches(inside.part, line.max(last_line(below)));
        if matches!(form, Form::Declare(_)) {
            layout.declared(line, inside, declared_on(form))?;
        } else {
            process(alloc, layout, (line, form, below), inside)?;
            open = false;
        }
    }
    Ok(())
}

#[cycle(places)]
fn process(
    alloc: Global,
    layout: &mut Layout,
    node: (u32, &Form, &[Node]),
    here: Here,
) -> Result<(), Memory> {
    let (line, form, below) = node;
    let Form::Group { group, .. } = form else {
        layout.site(line, here, !matches!(form, Form::Skip))?;
        return Ok(());
    };
    let acts = matches!(group, Group::If | Group::Alt);
    let number = layout.site(line, here, acts)?;
    let inside = inside_of(*group, here, number, line);
    if acts {
        option_copies(alloc, layout, (form, below), inside, number)
    } else {
        slot_copies(alloc, layout, (form, below), inside)
    }
}

/// Where the lines below a construct stand.
fn inside_of(group: Group, here: Here, number: usize, line: u32) -> Here {
    match group {
        Group::Par => Here {
            par: number,
            header: line,
            copy: None,
            ..here
        },
        _ => here,
    }
}

#[cycle(places)]
fn slot_copies(
    alloc: Global,
    layout: &mut Layout,
    line: (&Form, &[Node]),
    here: Here,
) -> Result<(), Memory> {
    let Form::Group {
        times: Some(times),
        ..
    } = line.0
    else {
        return slots(alloc, layout, line.1, here);
    };
    for copy in 0..times.count {
        let value = u16::from(times.base) + u16::from(copy);
        let inside = layout.count(times.index, value, here)?;
        slots(alloc, layout, line.1, inside)?;
    }
    Ok(())
}

/// Adds the choices or the guards of the construct of that number, and what stands behind them.
#[cycle(places)]
fn options(
    alloc: Global,
    layout: &mut Layout,
    nodes: &[Node],
    here: Here,
    of: usize,
) -> Result<(), Memory> {
    for node in nodes {
        let (line, form, below) = node.seen();
        if let Form::Group { .. } = form {
            option_copies(alloc, layout, (form, below), here, of)?;
        } else {
            let body = layout.sites.len();
            layout.branches.push(Branch {
                of,
                line,
                counter: here.counter,
                body,
            })?;
            slots(alloc, layout, below, here)?;
        }
    }
    Ok(())
}

// Where the first copy has no guard, none has, and no time goes into the others.
#[cycle(places)]
fn option_copies(
    alloc: Global,
    layout: &mut Layout,
    line: (&Form, &[Node]),
    here: Here,
    of: usize,
) -> Result<(), Memory> {
    let Form::Group {
        times: Some(times),
        ..
    } = line.0
    else {
        return options(alloc, layout, line.1, here, of);
    };
    for copy in 0..times.count {
        let before = layout.branches.len();
        let value = u16::from(times.base) + u16::from(copy);
        let counted = layout.count(times.index, value, here)?;
        let inside = Here {
            copy: None,
            ..counted
        };
        options(alloc, layout, line.1, inside, of)?;
        if layout.branches.len() == before {
            return Ok(());
        }
    }
    Ok(())
}
