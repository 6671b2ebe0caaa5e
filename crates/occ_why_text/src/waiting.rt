use crate::phrases::push_paragraph;
use crate::ring::shortest_ring;
use crate::subject::Subject;
use occ_place::{NOWHERE, Places, Stand, Way, channel, part_name};
use occ_syntax::{Dir, Memory, Name, push_number};

/// A part that waits on a channel of the program's own, by its place among those that stand, and who has the other end.
#[derive(Drop)]
pub(crate) struct Wait {
    pub(crate) place: usize,
    pub(crate) chan: Name,
    pub(crate) other: Option<usize>,
    pub(crate) lines: Vec<u32>,
}

/// The other end of the channel of a way, where the channel is the program's own.
fn other_end(places: &Places, way: Way) -> Option<(Name, Dir)> {
    let chan = channel(way)?;
    if places.is_outside(chan) {
        return None;
    }
    match way {
        Way::Input(_) => Some((chan, Dir::Output)),
        _ => Some((chan, Dir::Input)),
    }
}

pub(crate) fn has_ended(stand: &Stand) -> bool {
    match stand.ways.first() {
        Some((Way::Ended, _)) => true,
        _ => false,
    }
}

/// The place among those that stand of a part, or of the innermost part round it that stands.
fn stands_at(places: &Places, stands: &[Stand], part: usize) -> Option<usize> {
    let mut at = part;
    for _ in 0..places.layout.parts.len() {
        for (place, stand) in stands.iter().enumerate() {
            if stand.part == at {
                return Some(place);
            }
        }
        at = places.layout.parts.get(at)?.outer;
    }
    None
}

/// Whom each part waits for that waits on a channel of the program's own.
pub(crate) fn waits_of(places: &Places, stands: &[Stand]) -> Result<Vec<Wait>, Memory> {
    let mut waits = Vec::new(places.alloc());
    for (place, stand) in stands.iter().enumerate() {
        for (way, _) in &stand.ways {
            if let Some(end) = other_end(places, *way) {
                waits.push(wait_on(places, stands, place, end)?)?;
            }
        }
    }
    Ok(waits)
}

/// Who has an end of a channel for which a part waits: one that hasn't ended, where there is one.
fn wait_on(
    places: &Places,
    stands: &[Stand],
    place: usize,
    end: (Name, Dir),
) -> Result<Wait, Memory> {
    let mut other: Option<usize> = None;
    let mut lines: Vec<u32> = Vec::new(places.alloc());
    for user in &places.marked.ends {
        if user.chan == end.0 && user.dir == end.1 {
            if let Some(found) = stands_at(places, stands, user.part) {
                if other != Some(found) && is_better(stands, other, found) {
                    other = Some(found);
                    lines.clear();
                }
                if other == Some(found) {
                    lines.push(user.line)?;
                }
            }
        }
    }
    lines.sort()?;
    lines.dedup();
    Ok(Wait {
        place,
        chan: end.0,
        other,
        lines,
    })
}

fn is_better(stands: &[Stand], other: Option<usize>, found: usize) -> bool {
    let Some(before) = other else {
        return true;
    };
    match (stands.get(before), stands.get(found)) {
        (Some(one), Some(next)) => has_ended(one) && !has_ended(next),
        _ => false,
    }
}

/// Adds what a part does next as a clause: `waits to input on c (line 3) or to output 0 on d (line 5)`, `has ended`.
fn push_clause(text: &mut Vec<u8>, places: &Places, stand: &Stand) -> Result<(), Memory> {
    for (order, (way, line)) in stand.ways.iter().enumerate() {
        if order > 0 {
            text.extend_from_slice(b" or to ")?;
        }
        push_way(text, places, *way, order == 0)?;
        if *line > 0 {
            text.extend_from_slice(b" (line ")?;
            push_number(text, u64::from(*line))?;
            text.push(b')')?;
        }
    }
    Ok(())
}

fn push_way(text: &mut Vec<u8>, places: &Places, way: Way, is_first: bool) -> Result<(), Memory> {
    if is_first && channel(way).is_some() {
        text.extend_from_slice(b"waits to ")?;
    }
    match way {
        Way::Begin(name) => {
            text.extend_from_slice(b"is about to begin ")?;
            text.extend_from_slice(places.text(name))?;
        }
        Way::Input(chan) => {
            text.extend_from_slice(b"input on ")?;
            text.extend_from_slice(places.text(chan))?;
        }
        Way::Output(chan, value) => {
            text.extend_from_slice(b"output ")?;
            push_number(text, u64::from(value))?;
            text.extend_from_slice(b" on ")?;
            text.extend_from_slice(places.text(chan))?;
        }
        Way::Assign => text.extend_from_slice(b"is about to assign")?,
        Way::Choose => text.extend_from_slice(b"is about to choose")?,
        Way::Stop => text.extend_from_slice(b"is at STOP")?,
        Way::NoChoice => text.extend_from_slice(b"is at an IF without a true choice")?,
        Way::NoGuard => text.extend_from_slice(b"is at an ALT without a true guard")?,
        Way::Ended => text.extend_from_slice(b"has ended")?,
    }
    Ok(())
}

fn name_at<'s>(places: &'s Places, stands: &[Stand], place: usize) -> &'s [u8] {
    match stands.get(place) {
        Some(stand) => part_name(places, stand.part),
        None => b"program",
    }
}

/// Adds `P1 waits on c for P2 (line 12), which has ended.`
fn push_wait(
    text: &mut Vec<u8>,
    places: &Places,
    stands: &[Stand],
    wait: &Wait,
) -> Result<(), Memory> {
    text.extend_from_slice(name_at(places, stands, wait.place))?;
    text.extend_from_slice(b" waits on ")?;
    text.extend_from_slice(places.text(wait.chan))?;
    let Some(other) = wait.other else {
        text.extend_from_slice(b", of which nobody uses the other end.")?;
        return Ok(());
    };
    text.extend_from_slice(b" for ")?;
    text.extend_from_slice(name_at(places, stands, other))?;
    text.extend_from_slice(if wait.lines.len() == 1 {
        b" (line "
    } else {
        b" (lines "
    })?;
    for (order, line) in wait.lines.iter().enumerate() {
        if order > 0 {
            text.extend_from_slice(b", ")?;
        }
        push_number(text, u64::from(*line))?;
    }
    text.extend_from_slice(b"), which ")?;
    if let Some(stand) = stands.get(other) {
        push_clause(text, places, stand)?;
    }
    text.push(b'.')?;
    Ok(())
}

/// The parts that wait for one another in a ring, the shortest, by their places among those that stand.
pub(crate) fn ring_of(
    places: &Places,
    stands: &[Stand],
    waits: &[Wait],
) -> Result<Vec<usize>, Memory> {
    let mut edges = Vec::new(places.alloc());
    for wait in waits {
        if let Some(other) = wait.other {
            edges.push((wait.place, other))?;
        }
    }
    shortest_ring(places.alloc(), stands.len(), &edges)
}

/// Adds why parts that stand so stay so: whom each waits for, and the shortest ring.
pub(crate) fn push_waits(
    text: &mut Vec<u8>,
    places: &Places,
    stands: &[Stand],
) -> Result<(), Memory> {
    let alloc = places.alloc();
    let waits = waits_of(places, stands)?;
    for wait in &waits {
        let mut words = Vec::new(alloc);
        push_wait(&mut words, places, stands, wait)?;
        push_paragraph(alloc, text, &words, 2)?;
    }
    let ring = ring_of(places, stands, &waits)?;
    if !ring.is_empty() {
        let mut words = Vec::from_slice(alloc, b"So ")?;
        push_ring(&mut words, places, stands, &ring)?;
        words.push(b'.')?;
        push_paragraph(alloc, text, &words, 2)?;
    }
    Ok(())
}

fn push_ring(
    text: &mut Vec<u8>,
    places: &Places,
    stands: &[Stand],
    ring: &[usize],
) -> Result<(), Memory> {
    if ring.len() <= 2 {
        return push_circle(text, places, stands, ring);
    }
    text.extend_from_slice(b"they wait in a ring: ")?;
    for place in ring {
        text.extend_from_slice(name_at(places, stands, *place))?;
        text.extend_from_slice(b" -> ")?;
    }
    if let Some(first) = ring.first() {
        text.extend_from_slice(name_at(places, stands, *first))?;
    }
    Ok(())
}

/// Adds a ring in few words: `P1 and P2 wait for each other`, `6 parts wait in a ring`.
pub(crate) fn push_circle(
    text: &mut Vec<u8>,
    places: &Places,
    stands: &[Stand],
    ring: &[usize],
) -> Result<(), Memory> {
    match ring {
        [one] => {
            text.extend_from_slice(name_at(places, stands, *one))?;
            text.extend_from_slice(b" waits for itself")?;
        }
        [one, other] => {
            text.extend_from_slice(name_at(places, stands, *one))?;
            text.extend_from_slice(b" and ")?;
            text.extend_from_slice(name_at(places, stands, *other))?;
            text.extend_from_slice(b" wait for each other")?;
        }
        _ => {
            push_number(text, ring.len() as u64)?;
            text.extend_from_slice(b" parts wait in a ring")?;
        }
    }
    Ok(())
}
