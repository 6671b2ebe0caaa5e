use crate::doing::mark_in;
use crate::places::Places;
use crate::walking::NOWHERE;
use crate::worth::{Held, worth};
use occ_run::{Control, Point, held};
use occ_syntax::{Guard, Kind, Memory, Name, Proc, Wait};
use std::rc::Rc;

/// What a part does next, or waits for.
#[derive(Clone, Copy, Debug, PartialEq, Eq)]
pub enum Way {
    /// It is about to begin a variable.
    Begin(Name),
    /// It waits to input on a channel.
    Input(Name),
    /// It waits to output a value on a channel.
    Output(Name, u8),
    /// It is about to assign.
    Assign,
    /// It is about to choose.
    Choose,
    /// It is at a STOP.
    Stop,
    /// It is at an IF without a true choice.
    NoChoice,
    /// It is at an ALT without a true guard.
    NoGuard,
    /// It has ended.
    Ended,
}

/// How a part stands: each of its ways to go on, with the line, and its values.
#[derive(Drop)]
pub struct Stand {
    /// The part, by its number in the list of parts.
    pub part: usize,
    pub ways: Vec<(Way, u32)>,
    /// Its indices, the parameters that its lines name, and its own variables, the outer ones first.
    pub values: Vec<(Name, u16)>,
}

/// A walk over a control tree.
#[derive(Drop)]
struct Survey<'p> {
    places: &'p Places,
    // the variables in scope, the innermost last
    held: Vec<Held>,
    stands: Vec<Stand>,
}

/// How each part of a program stands at a point of its places, in the order of the text.
pub fn stands<'p>(places: &'p Places, point: &Point<'p>) -> Result<Vec<Stand>, Memory> {
    let alloc = places.alloc;
    let mut survey = Survey {
        places,
        held: Vec::new(alloc),
        stands: Vec::new(alloc),
    };
    for (name, kind) in point.place().scope() {
        if let Kind::Var(width) = kind {
            let value = held(point.place().state(), *name);
            survey.held.push((*name, *width, value))?;
        }
    }
    let own = survey.held.len();
    survey.control(point.control(), NOWHERE, own)?;
    let Survey { stands, .. } = survey;
    in_order(places, stands)
}

impl<'p> Survey<'p> {
    #[cycle(survey)]
    fn control(&mut self, control: &Control<'p>, here: usize, own: usize) -> Result<(), Memory> {
        match control {
            Control::Done | Control::Ready => Ok(()),
            Control::Stuck => self.stand(here, own, Way::NoChoice),
            Control::Unbegun(part) => self.unbegun(*part, here, own),
            Control::Input { chan, .. } => self.stand(here, own, Way::Input(*chan)),
            Control::Output { chan, value } => {
                let value = worth(&self.held, *value);
                self.stand(here, own, Way::Output(*chan, value))
            }
            Control::After(body, _) => self.control(body, here, own),
            Control::Both(parts) => self.parts(parts, here),
            Control::Local {
                name,
                width,
                value,
                body,
            } => {
                self.held.push((*name, *width, *value))?;
                self.control(body, here, own)?;
                let _outer = self.held.pop();
                Ok(())
            }
            Control::Channels { first, more, body } => {
                self.control(body, mark_in(self.places, *first, more, here), own)
            }
        }
    }

    #[cycle(survey)]
    fn parts(&mut self, parts: &[Rc<Control<'p>>], here: usize) -> Result<(), Memory> {
        let own = self.held.len();
        let mut rest = parts;
        while let [part, later @ ..] = rest {
            self.control(part, here, own)?;
            rest = later;
        }
        Ok(())
    }

    fn stand(&mut self, here: usize, own: usize, way: Way) -> Result<(), Memory> {
        let line = self.places.layout.site_at(here).line;
        let mut ways = Vec::new(self.places.alloc);
        ways.push((way, line))?;
        self.stand_so(here, own, ways)
    }

    fn stand_so(&mut self, here: usize, own: usize, ways: Vec<(Way, u32)>) -> Result<(), Memory> {
        let part = self.places.layout.site_at(here).part;
        let values = self.values(here, own)?;
        self.stands.push(Stand { part, ways, values })?;
        Ok(())
    }

    fn values(&self, here: usize, own: usize) -> Result<Vec<(Name, u16)>, Memory> {
        let places = self.places;
        let site = places.layout.site_at(here);
        let mut values = places.layout.indices(places.alloc, site.counter)?;
        let (first, last) = places.layout.lines_of(site.part);
        for (order, (name, _, value)) in self.held.iter().enumerate() {
            let text = places.text(*name);
            let is_shown = own <= order || places.source.names(first, last, text);
            if is_shown && !text.contains(&b'[') {
                values.push((*name, u16::from(*value)))?;
            }
        }
        Ok(values)
    }

    fn unbegun(&mut self, part: &Proc, here: usize, own: usize) -> Result<(), Memory> {
        match part {
            Proc::Var { name, .. } => self.stand(here, own, Way::Begin(*name)),
            Proc::Assign { .. } => self.stand(here, own, Way::Assign),
            Proc::Stop => self.stand(here, own, Way::Stop),
            Proc::Alt(alternatives) => self.guards(alternatives.items(), here, own),
            _ => Ok(()),
        }
    }

    /// The guards of an ALT whose conditions are true.
    fn guards(
        &mut self,
        alternatives: &[(Guard, Proc)],
        here: usize,
        own: usize,
    ) -> Result<(), Memory> {
        let line = self.places.layout.site_at(here).line;
        let mut ways = Vec::new(self.places.alloc);
        let mut chooses = false;
        for (order, (guard, _)) in alternatives.iter().enumerate() {
            if worth(&self.held, &guard.condition) == 1 {
                let at = self.places.layout.guard_line(here, order);
                match &guard.wait {
                    Wait::Skip => chooses = true,
                    Wait::Get { chan, .. } => ways.push((Way::Input(*chan), at))?,
                    Wait::Put { chan, value } => {
                        ways.push((Way::Output(*chan, worth(&self.held, value)), at))?;
                    }
                }
            }
        }
        if chooses {
            ways.insert(0, (Way::Choose, line))?;
        }
        if ways.is_empty() {
            ways.push((Way::NoGuard, line))?;
        }
        self.stand_so(here, own, ways)
    }
}

/// The stands in the order of the parts, with those that have ended. They are in this order already, of each part one at most.
fn in_order(places: &Places, stands: Vec<Stand>) -> Result<Vec<Stand>, Memory> {
    let alloc = places.alloc;
    let ended = places.layout.ended(alloc, &stands)?;
    let mut left = stands;
    left.reverse();
    let mut all = Vec::new(alloc);
    for (part, has_ended) in ended.iter().enumerate() {
        if stands_next(&left, part) {
            if let Some(stand) = left.pop() {
                all.push(stand)?;
            }
        } else if *has_ended {
            let mut ways = Vec::new(alloc);
            ways.push((Way::Ended, 0))?;
            let values = Vec::new(alloc);
            all.push(Stand { part, ways, values })?;
        }
    }
    Ok(all)
}

fn stands_next(left: &[Stand], part: usize) -> bool {
    match left.last() {
        Some(stand) => stand.part == part,
        None => false,
    }
}
