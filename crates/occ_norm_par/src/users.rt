ghost use Rattle.std.specs.Prelude.{◌≡◌, ◌≤◌, ◌<◌, ◌&&◌, ◌++◌, ◌∷◌, [], List, length, nat_le, nat_lt, not, if◌then◌else◌, OnOk, IfOk};
ghost use Rattle.occ_syntax.specs.occ_base.declared.names.Name.{Name};
ghost use Rattle.occ_syntax.specs.View.{tree, trees};
ghost use Rattle.indexmap.specs.IndexMap.{get};
ghost use Rattle.occ_norm_par.specs.Sides.{AreUsers, closed_in, crossing, uses};
ghost use Rattle.occ_norm_par.specs.Spans.{IsSpan, first_of, has_end_on, listed, noted, same_name, user_of};

use indexmap::IndexMap;
use occ_norm_frame::names_ends as ends;
use occ_syntax::{Dir, Memory, Name, Proc};
use std::alloc::Global;

/// A closed channel, with the first and the last of the parts of a PAR that use it.
#[derive(Clone, Copy)]
pub struct Users {
    pub chan: Name,
    pub first: usize,
    pub last: usize,
}

// The first place of a channel, where this place is the next one.
fn first_place(used: &IndexMap<Name, (usize, usize)>, chan: Name, place: usize) -> usize
    ensures { result ≡ first_of (get same_name used.now chan) place }
{
    match used.get(&chan) {
        Some(places) => places.0,
        None => place,
    }
}

// Notes that a part uses a channel.
fn note(used: &mut IndexMap<Name, (usize, usize)>, chan: Name, place: usize) -> Result<(), Memory>
    ensures { OnOk result ((c : Name) → get same_name used.new c ≡ noted (same_name chan c) (get same_name used.old c) place) }
{
    let first = first_place(used, chan, place);
    used.insert(chan, (first, place))?;
    Ok(())
}

// Notes that a part uses some ends.
fn note_all(
    used: &mut IndexMap<Name, (usize, usize)>,
    ends: &[(Name, Dir)],
    place: usize,
) -> Result<(), Memory>
    ensures { OnOk result ((c : Name) → get same_name used.new c ≡ noted (has_end_on ends.now c) (get same_name used.old c) place) }
{
    for end in ends {
        note(used, end.0, place)?;
    }
    Ok(())
}

// Notes the channels that a part uses.
fn note_part(
    alloc: Global,
    used: &mut IndexMap<Name, (usize, usize)>,
    part: &Proc,
    place: usize,
) -> Result<(), Memory>
    ensures { OnOk result ((c : Name) → get same_name used.new c ≡ noted (uses (tree part.now) c.0) (get same_name used.old c) place) }
{
    let found = ends(alloc, part)?;
    note_all(used, found.as_slice(), place)?;
    Ok(())
}

// The channels that the parts use, each with the first and the last part that does.
fn places_of(alloc: Global, parts: &[Proc]) -> Result<IndexMap<Name, (usize, usize)>, Memory>
    ensures { IfOk result (λ r. (c : Name) → IsSpan (trees parts.now) (length parts.now) c.0 (get same_name r c)) }
{
    let mut used = IndexMap::new(alloc);
    for place in 0..parts.len() {
        note_part(alloc, &mut used, &parts[place], place)?;
    }
    Ok(used)
}

// Adds the user of a channel, if there is one.
fn add(users: &mut Vec<Users>, chan: Name, places: Option<(usize, usize)>) -> Result<(), Memory>
    ensures { OnOk result (users.new.items ≡ users.old.items ++ user_of chan places) }
{
    if let Some((first, last)) = places {
        users.push(Users { chan, first, last })?;
    }
    Ok(())
}

// The first and the last place of a channel.
fn found_places(used: &IndexMap<Name, (usize, usize)>, chan: Name) -> Option<(usize, usize)>
    ensures { result ≡ get same_name used.now chan }
{
    match used.get(&chan) {
        Some(places) => Some(*places),
        None => None,
    }
}

// The users of those of some channels that are used.
fn listed(
    alloc: Global,
    used: &IndexMap<Name, (usize, usize)>,
    chans: &[Name],
) -> Result<Vec<Users>, Memory>
    ensures { IfOk result (λ r. r.items ≡ listed (get same_name used.now) chans.now) }
{
    let mut users = Vec::new(alloc);
    for chan in chans {
        let places = found_places(used, *chan);
        add(&mut users, *chan, places)?;
    }
    Ok(users)
}

/// The channels among some that the parts use, each with the first and the last part that does.
pub fn users_of(alloc: Global, parts: &[Proc], closed: &[Name]) -> Result<Vec<Users>, Memory>
    ensures { IfOk result (λ r. AreUsers (trees parts.now) closed.now r.items) }
{
    let used = places_of(alloc, parts)?;
    let users = listed(alloc, &used, closed)?;
    Ok(users)
}

// Adds a channel, if it is wanted.
fn push_if(chans: &mut Vec<Name>, chan: Name, wanted: bool) -> Result<(), Memory>
    ensures { OnOk result (chans.new.items ≡ chans.old.items ++ (if wanted then chan ∷ [] else [])) }
{
    if wanted {
        chans.push(chan)?;
    }
    Ok(())
}

fn is_within(user: &Users, low: usize, high: usize) -> bool
    ensures { result ≡ (nat_le low user.now.first && nat_lt user.now.last high) }
{
    low <= user.first && user.last < high
}

fn is_crossing(user: &Users, mid: usize) -> bool
    ensures { result ≡ (not (nat_le mid user.now.first) && not (nat_lt user.now.last mid)) }
{
    user.first < mid && user.last >= mid
}

fn is_across(user: &Users, low: usize, mid: usize, high: usize) -> bool
    ensures { result ≡ ((nat_le low user.now.first && nat_lt user.now.last high)
        && (not (nat_le mid user.now.first) && not (nat_lt user.now.last mid))) }
{
    is_within(user, low, high) && is_crossing(user, mid)
}

/// The channels that only parts from place `low` on and in front of place `high` use.
pub fn within(alloc: Global, users: &[Users], low: usize, high: usize) -> Result<Vec<Name>, Memory>
    ensures { IfOk result (λ r. r.items ≡ closed_in low high users.now) }
{
    let mut chans = Vec::new(alloc);
    for user in users {
        let wanted = is_within(user, low, high);
        push_if(&mut chans, user.chan, wanted)?;
    }
    Ok(chans)
}

/// Those of them that parts on both sides of place `mid` use.
pub fn crossing(
    alloc: Global,
    users: &[Users],
    low: usize,
    mid: usize,
    high: usize,
) -> Result<Vec<Name>, Memory>
    ensures { IfOk result (λ r. r.items ≡ crossing low mid high users.now) }
{
    let mut chans = Vec::new(alloc);
    for user in users {
        let wanted = is_across(user, low, mid, high);
        push_if(&mut chans, user.chan, wanted)?;
    }
    Ok(chans)
}

// Whether a channel is that of a part and of the next one.
fn is_linked(users: &[Users], place: usize) -> bool {
    users.iter().any(|user| user.first == place && user.last > place && user.last - place == 1)
}

/// Where the longest row of parts begins that ends in front of a place and in which each part shares a channel with the
/// next one.
pub fn row_start(users: &[Users], end: usize) -> usize
    requires { 1 ≤ end }
    ensures { result < end }
{
    let mut start = end - 1;
    while start > 0 && is_linked(users, start - 1) {
        start -= 1;
    }
    start
}
