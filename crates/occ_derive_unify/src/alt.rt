use crate::orders::{Key, accepted, key_of, rank};
use occ_derive_trail::{Law, Lost, Piece, Trail, alt_of};
use occ_syntax::{Guard, Memory, Proc, Scope};
use std::alloc::Global;
use std::cmp::Ordering;
use std::mem::replace;

/// An ALT taken apart. The trail stands at its place.
#[derive(Drop)]
pub(crate) struct Alt {
    pub(crate) list: Vec<(Guard, Proc)>,
}

// A branch on its way to its place.
#[derive(Drop)]
struct Keyed {
    key: Key,
    place: usize,
    branch: (Guard, Proc),
}

impl Keyed {
    fn order(&self, other: &Keyed) -> Ordering {
        let keys = self.key.order(&other.key);
        keys.then(self.place.cmp(&other.place))
    }

    fn into_branch(self) -> (Guard, Proc) {
        self.branch
    }
}

/// Goes on with the part of that number in the present one.
pub(crate) fn enter(trail: &mut Trail, number: usize) -> Result<(), Lost> {
    let Ok(small) = u32::try_from(number) else {
        return Err(Lost::NoStep);
    };
    trail.enter(small)?;
    Ok(())
}

impl Alt {
    /// The branches of an ALT.
    pub(crate) fn of(alloc: Global, part: Proc) -> Result<Alt, Lost> {
        match Piece::of(alloc, part)? {
            Piece::Alt(list) => Ok(Alt { list }),
            _ => Err(Lost::NoStep),
        }
    }

    /// The ALT of the branches.
    pub(crate) fn into_part(self, alloc: Global) -> Result<Proc, Memory> {
        alt_of(alloc, self.list)
    }

    /// The same branches, and a copy of the ALT.
    pub(crate) fn copied(self, alloc: Global) -> Result<(Alt, Proc), Lost> {
        let part = self.into_part(alloc)?;
        let copy = part.copy(alloc)?;
        let same = Alt::of(alloc, part)?;
        Ok((same, copy))
    }

    /// A law used forward makes the present part this ALT.
    pub(crate) fn forward(self, trail: &mut Trail, law: Law) -> Result<Alt, Lost> {
        let alloc = trail.alloc();
        let part = self.into_part(alloc)?;
        trail.forward(law, &part)?;
        Alt::of(alloc, part)
    }

    /// A law used backward makes the present part this ALT.
    pub(crate) fn backward(self, trail: &mut Trail, law: Law) -> Result<Alt, Lost> {
        let alloc = trail.alloc();
        let part = self.into_part(alloc)?;
        trail.backward(law, &part)?;
        Alt::of(alloc, part)
    }

    /// The process of a branch, taken out; SKIP stands for it meanwhile.
    pub(crate) fn take(&mut self, place: usize) -> Result<Proc, Lost> {
        self.exchange(place, Proc::Skip)
    }

    /// Puts in the process of a branch.
    pub(crate) fn put(&mut self, place: usize, part: Proc) -> Result<(), Lost> {
        let _ = self.exchange(place, part)?;
        Ok(())
    }

    fn exchange(&mut self, place: usize, part: Proc) -> Result<Proc, Lost> {
        if place >= self.list.len() {
            return Err(Lost::NoStep);
        }
        Ok(replace(&mut self.list[place].1, part))
    }

    /// Puts in a branch in front of that place.
    pub(crate) fn insert(&mut self, place: usize, branch: (Guard, Proc)) -> Result<(), Lost> {
        if place > self.list.len() {
            return Err(Lost::NoStep);
        }
        self.list.insert(place, branch)?;
        Ok(())
    }

    /// Takes a branch out.
    pub(crate) fn remove(&mut self, place: usize) -> Result<(Guard, Proc), Lost> {
        if place >= self.list.len() {
            return Err(Lost::NoStep);
        }
        Ok(self.list.remove(place))
    }

    /// Puts the branches into the order of a normal program.
    pub(crate) fn ordered(self, trail: &mut Trail, params: &Scope) -> Result<Alt, Lost> {
        let alloc = trail.alloc();
        let mut rows = Rows::new(alloc);
        for branch in self.list {
            let key = key_of(alloc, params, &branch)?;
            rows.push(key, branch)?;
        }
        rows.arranged(trail)
    }

    /// Puts the branches first that wait for an event of these ranks.
    pub(crate) fn led_by(
        self,
        trail: &mut Trail,
        params: &Scope,
        chosen: &[u64],
    ) -> Result<Alt, Lost> {
        let alloc = trail.alloc();
        let mut rows = Rows::new(alloc);
        for branch in self.list {
            let key = Key::of(alloc, lead(params, chosen, &branch.0));
            rows.push(key, branch)?;
        }
        rows.arranged(trail)
    }

    /// Puts the branches of the acceptance at a place first that wait for an event of these ranks.
    pub(crate) fn led_inside(
        mut self,
        trail: &mut Trail,
        params: &Scope,
        place: usize,
        chosen: &[u64],
    ) -> Result<Alt, Lost> {
        let alloc = trail.alloc();
        let inner = Alt::of(alloc, self.take(place)?)?;
        enter(trail, place)?;
        let inner = inner.led_by(trail, params, chosen)?;
        trail.leave();
        self.put(place, inner.into_part(alloc)?)?;
        Ok(self)
    }

    /// The branches of the acceptance at a place; None where none stands there.
    pub(crate) fn accepted(&self, place: usize) -> Option<&[(Guard, Proc)]> {
        match self.list.as_slice().get(place) {
            Some(branch) => accepted(branch),
            None => None,
        }
    }
}

// 0 for a guard that waits for an event of these ranks, else 1.
fn lead(params: &Scope, chosen: &[u64], guard: &Guard) -> u64 {
    match rank(params, guard) {
        Some(rank) => u64::from(!chosen.contains(&rank)),
        None => 1,
    }
}

/// Branches with the keys of their places.
#[derive(Drop)]
pub(crate) struct Rows {
    list: Vec<Keyed>,
}

impl Rows {
    /// No branches.
    pub(crate) fn new(alloc: Global) -> Rows {
        Rows {
            list: Vec::new(alloc),
        }
    }

    /// How many there are.
    pub(crate) fn count(&self) -> usize {
        self.list.len()
    }

    /// Adds the next branch with its key.
    pub(crate) fn push(&mut self, key: Key, branch: (Guard, Proc)) -> Result<(), Lost> {
        let place = self.list.len();
        self.list.push(Keyed { key, place, branch })?;
        Ok(())
    }

    /// The ALT of the branches in the order of their keys, those of equal keys as they stood. No step where they stand so.
    pub(crate) fn arranged(self, trail: &mut Trail) -> Result<Alt, Lost> {
        let rows = in_order(self.list);
        let moved = is_moved(rows.as_slice());
        let list = without_keys(trail.alloc(), rows)?;
        if !moved {
            return Ok(Alt { list });
        }
        let made = Alt { list }.forward(trail, Law::AltOrder)?;
        Ok(made)
    }
}

// The rows in the order of their keys, and then of their places.
fn in_order(mut rows: Vec<Keyed>) -> Vec<Keyed> {
    rows.sort_unstable_by(|a, b| a.order(b));
    rows
}

fn without_keys(alloc: Global, rows: Vec<Keyed>) -> Result<Vec<(Guard, Proc)>, Lost> {
    let mut list = Vec::with_capacity(alloc, rows.len())?;
    for row in rows {
        list.push(row.into_branch())?;
    }
    Ok(list)
}

fn is_moved(rows: &[Keyed]) -> bool {
    for (place, row) in rows.iter().enumerate() {
        if row.place != place {
            return true;
        }
    }
    false
}
