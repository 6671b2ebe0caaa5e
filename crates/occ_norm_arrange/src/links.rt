ghost use Rattle.std.specs.Prelude.{◌<◌, ◌≤◌, length};

use indexmap::IndexMap;
use occ_names::ends;
use occ_syntax::{Memory, Name, Proc};
use std::alloc::Global;

/// Two parts that share a channel, by their places.
#[derive(Clone, Copy)]
pub struct Link {
    pub first: usize,
    pub second: usize,
}

impl Link {
    // The part at its other end, where one of its ends is that part.
    fn other(self, place: usize) -> Option<usize> {
        if self.first == place {
            Some(self.second)
        } else if self.second == place {
            Some(self.first)
        } else {
            None
        }
    }

    // How far its ends stand apart.
    fn length(self) -> usize {
        self.first.abs_diff(self.second)
    }
}

// Notes that a part uses a channel: a link, if another part did before.
fn note(
    users: &mut IndexMap<Name, usize>,
    links: &mut Vec<Link>,
    chan: Name,
    place: usize,
) -> Result<(), Memory> {
    if let Some(user) = users.get(&chan) {
        let first = *user;
        if first != place {
            links.push(Link {
                first,
                second: place,
            })?;
        }
        return Ok(());
    }
    users.insert(chan, place)?;
    Ok(())
}

/// The links of parts: one for each channel that two of them use.
pub fn links_of(alloc: Global, parts: &[Proc]) -> Result<Vec<Link>, Memory> {
    let mut users = IndexMap::new(alloc);
    let mut links = Vec::new(alloc);
    for place in 0..parts.len() {
        let ends = ends(alloc, &parts[place])?;
        for end in &ends {
            note(&mut users, &mut links, end.0, place)?;
        }
    }
    Ok(links)
}

// A part that isn't placed yet: where it stood, how many of its links lead to parts that aren't placed and how many to placed
// ones, and when the last of those was placed.
#[derive(Clone, Copy)]
struct Waiting {
    place: usize,
    open: usize,
    closed: usize,
    latest: usize,
}

impl Waiting {
    // Whether it is linked to a part that is placed.
    fn is_linked(self) -> bool {
        self.closed > 0
    }

    // Whether it comes before another one: it alone is linked to a part that is placed; or it leaves fewer channels open, or as
    // few and it is linked to a part that was placed later.
    fn is_before(self, other: Waiting) -> bool {
        if self.is_linked() != other.is_linked() {
            return self.is_linked();
        }
        let mine = self.open.saturating_add(other.closed);
        let theirs = other.open.saturating_add(self.closed);
        mine < theirs || (mine == theirs && self.latest > other.latest)
    }

    // Once a part that it is linked to is placed.
    fn linked(self, time: usize) -> Waiting {
        Waiting {
            place: self.place,
            open: self.open.saturating_sub(1),
            closed: self.closed.saturating_add(1),
            latest: time,
        }
    }
}

// The parts, none of which is placed.
fn all_waiting(alloc: Global, count: usize, links: &[Link]) -> Result<Vec<Waiting>, Memory> {
    let mut waiting = Vec::new(alloc);
    for place in 0..count {
        let mut open: usize = 0;
        for link in links {
            if link.other(place).is_some() {
                open = open.saturating_add(1);
            }
        }
        waiting.push(Waiting {
            place,
            open,
            closed: 0,
            latest: 0,
        })?;
    }
    Ok(waiting)
}

// Which of them comes next.
fn next_of(waiting: &[Waiting]) -> usize
    requires { 1 ≤ length waiting.now }
    ensures { result < length waiting.now }
{
    let mut best = 0;
    for at in 1..waiting.len() {
        if waiting[at].is_before(waiting[best]) {
            best = at;
        }
    }
    best
}

// Tells the parts that wait that one is placed.
fn tell(waiting: &mut Vec<Waiting>, links: &[Link], place: usize, time: usize) {
    for link in links {
        if let Some(other) = link.other(place) {
            for part in waiting.iter_mut() {
                if part.place == other {
                    *part = part.linked(time);
                }
            }
        }
    }
}

// Where a place stands among those that are left when some were taken.
fn place_left(place: usize, taken: &[usize]) -> usize {
    let mut at = place;
    for other in taken {
        if *other < place {
            at = at.saturating_sub(1);
        }
    }
    at
}

// Places from the last to the first: which of those that are left comes next, again and again.
fn backward(alloc: Global, places: &[usize]) -> Result<Vec<usize>, Memory> {
    let mut takes = Vec::new(alloc);
    let count = places.len();
    for time in 0..count {
        let at = count - 1 - time;
        let left = place_left(places[at], &places[at + 1..]);
        takes.push(left)?;
    }
    Ok(takes)
}

/// What it takes to put parts side by side one by one, from the last to the first: how many of them share no channel with those
/// behind them, and how far the ends of the links stand apart, all together.
#[derive(Clone, Copy)]
pub struct Cost {
    apart: usize,
    length: usize,
}

impl Cost {
    /// Whether it is less than another: fewer parts stand apart, or as many and the links are shorter.
    pub fn is_less(self, other: Cost) -> bool {
        self.apart < other.apart || (self.apart == other.apart && self.length < other.length)
    }
}

/// An order of parts: which of those that are left comes next, again and again, and what it takes to put them side by side.
#[derive(Drop)]
pub struct Order {
    pub takes: Vec<usize>,
    pub cost: Cost,
}

/// So many parts in an order whose last part is one of few links. In front of it stands a part that is linked to it, if there is
/// one, and again and again one that is linked to those behind it: the one that leaves the fewest channels open.
pub fn close_order(alloc: Global, count: usize, links: &[Link]) -> Result<Order, Memory> {
    let mut waiting = all_waiting(alloc, count, links)?;
    let mut places = Vec::new(alloc);
    let mut across: usize = 0;
    let mut cost = Cost {
        apart: 0,
        length: 0,
    };
    for time in 0..count {
        if waiting.is_empty() {
            break;
        }
        let at = next_of(&waiting);
        let part = waiting.remove(at);
        places.push(part.place)?;
        tell(&mut waiting, links, part.place, time);
        across = across.saturating_add(part.open).saturating_sub(part.closed);
        cost.length = cost.length.saturating_add(across);
        if time > 0 && !part.is_linked() {
            cost.apart = cost.apart.saturating_add(1);
        }
    }
    let takes = backward(alloc, places.as_slice())?;
    Ok(Order { takes, cost })
}

// Whether a part shares a channel with one behind it.
fn reaches_on(links: &[Link], place: usize) -> bool {
    links.iter().any(|link| link.other(place).is_some_and(|other| place < other))
}

/// What it takes to put so many parts side by side as they stand.
pub fn cost_of(count: usize, links: &[Link]) -> Cost {
    let mut length: usize = 0;
    for link in links {
        length = length.saturating_add(link.length());
    }
    let mut apart: usize = 0;
    for place in 1..count {
        if !reaches_on(links, place - 1) {
            apart = apart.saturating_add(1);
        }
    }
    Cost { apart, length }
}
