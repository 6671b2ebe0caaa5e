use crate::standing::Stand;
use crate::walking::{Branch, Layout, NOWHERE, Site};
use occ_syntax::{Memory, Name};
use std::alloc::Global;

impl Layout {
    /// The place of the process of that number.
    pub fn site_at(&self, number: usize) -> Site {
        match self.sites.get(number) {
            Some(site) => *site,
            None => Site {
                line: 1,
                part: 0,
                counter: NOWHERE,
            },
        }
    }

    /// The number in the list of guards, and the order among those of an ALT, of the guard that leads to the process of that number.
    pub(crate) fn place_among(&self, of: usize, body: usize) -> Option<(usize, usize)> {
        let mut order: usize = 0;
        for (number, branch) in self.branches.iter().enumerate() {
            if branch.of == of {
                if branch.body == body {
                    return Some((number, order));
                }
                order = order.saturating_add(1);
            }
        }
        None
    }

    /// The order of a guard among those of its ALT, counted from 1, and how many there are.
    pub(crate) fn order_of(&self, number: usize) -> (usize, usize) {
        let mut order: usize = 0;
        let mut count: usize = 0;
        if let Some(wanted) = self.branches.get(number) {
            for (place, branch) in self.branches.iter().enumerate() {
                if branch.of == wanted.of {
                    count = count.saturating_add(1);
                    if place == number {
                        order = count;
                    }
                }
            }
        }
        (order, count)
    }

    /// The line of the guard of that order, counted from 0, of an ALT.
    pub(crate) fn guard_line(&self, of: usize, order: usize) -> u32 {
        let mut left = order;
        for branch in &self.branches {
            if branch.of == of {
                if left == 0 {
                    return branch.line;
                }
                left -= 1;
            }
        }
        self.site_at(of).line
    }

    /// The line of the guard of a process; that of another one where it stands behind none.
    pub(crate) fn line_before(&self, body: usize, other: usize) -> u32 {
        for branch in &self.branches {
            if branch.body == body {
                return branch.line;
            }
        }
        self.site_at(other).line
    }

    /// The first and the last line of a part.
    pub fn lines_of(&self, part: usize) -> (u32, u32) {
        match self.parts.get(part) {
            Some(part) => (part.first, part.last),
            None => (1, 0),
        }
    }

    /// The indices round a place with their values, the outermost first.
    pub fn indices(&self, alloc: Global, counter: usize) -> Result<Vec<(Name, u16)>, Memory> {
        let mut found = Vec::new(alloc);
        let mut at = counter;
        for _ in 0..self.counters.len() {
            let Some(counter) = self.counters.get(at) else {
                break;
            };
            found.push((counter.name, counter.value))?;
            at = counter.outer;
        }
        found.reverse();
        Ok(found)
    }

    /// The parts round a part, itself first.
    fn ways_out(&self, alloc: Global, part: usize) -> Result<Vec<usize>, Memory> {
        let mut found = Vec::new(alloc);
        let mut at = part;
        for _ in 0..self.parts.len() {
            let Some(part) = self.parts.get(at) else {
                break;
            };
            found.push(at)?;
            at = part.outer;
        }
        Ok(found)
    }

    /// Of each part whether it has ended while another of its PAR has not. Of one that only has parts of its own these are told.
    pub(crate) fn ended(&self, alloc: Global, stands: &[Stand]) -> Result<Vec<bool>, Memory> {
        let mut alive = Vec::new(alloc);
        for _ in 0..self.parts.len() {
            alive.push(false)?;
        }
        let mut running = Vec::new(alloc);
        for _ in 0..self.sites.len() {
            running.push(false)?;
        }
        for stand in stands {
            for part in self.ways_out(alloc, stand.part)? {
                set(&mut alive, part);
                set(&mut running, self.par_of(part));
            }
        }
        let mut ended = Vec::new(alloc);
        for part in 0..self.parts.len() {
            let ways = self.ways_out(alloc, part)?;
            ended.push(self.is_told(part) && self.has_ended(&ways, &alive, &running))?;
        }
        Ok(ended)
    }

    /// Whether a part is the next copy behind a part and so many copies more.
    pub fn follows(&self, first: usize, next: usize, count: usize) -> bool {
        let Some(one) = self.parts.get(first) else {
            return false;
        };
        let Some(other) = self.parts.get(next) else {
            return false;
        };
        let Some(from) = one.copy else {
            return false;
        };
        let Some(to) = other.copy else {
            return false;
        };
        let is_next = u64::from(to)
            == u64::from(from)
                .saturating_add(count as u64)
                .saturating_add(1);
        one.par == other.par && is_next
    }

    fn par_of(&self, part: usize) -> usize {
        match self.parts.get(part) {
            Some(part) => part.par,
            None => NOWHERE,
        }
    }

    /// Whether a part is told of by itself: it acts, or it has no parts.
    fn is_told(&self, part: usize) -> bool {
        self.acts(part) || !self.has_parts(part)
    }

    fn acts(&self, part: usize) -> bool {
        match self.parts.get(part) {
            Some(part) => part.acts,
            None => true,
        }
    }

    fn has_parts(&self, outer: usize) -> bool {
        for part in &self.parts {
            if part.outer == outer {
                return true;
            }
        }
        false
    }

    /// Whether a part has ended, by itself and the parts round it: it isn't alive and its PAR is at work, or it is all of one that
    /// has ended.
    fn has_ended(&self, ways: &[usize], alive: &[bool], running: &[bool]) -> bool {
        for (order, part) in ways.iter().enumerate() {
            if is_set(alive, *part) || order > 0 && self.acts(*part) {
                return false;
            }
            if is_set(running, self.par_of(*part)) {
                return true;
            }
        }
        false
    }
}

fn set(flags: &mut Vec<bool>, at: usize) {
    if let Some(flag) = flags.get_mut(at) {
        *flag = true;
    }
}

fn is_set(flags: &[bool], at: usize) -> bool {
    match flags.get(at) {
        Some(flag) => *flag,
        None => false,
    }
}
