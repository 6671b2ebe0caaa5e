use occ_place::NOWHERE;
use occ_syntax::Memory;
use std::alloc::Global;

/// The shortest ring of edges between so many places, the first of these; an empty one where there is none.
pub(crate) fn shortest_ring(
    alloc: Global,
    count: usize,
    edges: &[(usize, usize)],
) -> Result<Vec<usize>, Memory> {
    let mut best: Vec<usize> = Vec::new(alloc);
    for start in 0..count {
        let ring = ring_from(alloc, count, edges, start)?;
        if !ring.is_empty() && (best.is_empty() || ring.len() < best.len()) {
            best = ring;
        }
    }
    Ok(best)
}

/// The shortest ring through a place.
fn ring_from(
    alloc: Global,
    count: usize,
    edges: &[(usize, usize)],
    start: usize,
) -> Result<Vec<usize>, Memory> {
    let mut from = Vec::new(alloc);
    for _ in 0..count {
        from.push(NOWHERE)?;
    }
    let mut queue = Vec::new(alloc);
    queue.push(start)?;
    for place in 0..count {
        let Some(at) = queue.get(place) else {
            return Ok(Vec::new(alloc));
        };
        let at = *at;
        for (one, other) in edges {
            if *one == at {
                if *other == start {
                    return way_back(alloc, &from, start, at);
                }
                if let Some(before) = from.get_mut(*other) {
                    if *before == NOWHERE {
                        *before = at;
                        queue.push(*other)?;
                    }
                }
            }
        }
    }
    Ok(Vec::new(alloc))
}

/// The places from one to another, along which the other was found.
fn way_back(alloc: Global, from: &[usize], start: usize, end: usize) -> Result<Vec<usize>, Memory> {
    let mut way = Vec::new(alloc);
    let mut at = end;
    for _ in 0..from.len() {
        way.push(at)?;
        if at == start {
            break;
        }
        match from.get(at) {
            Some(before) => at = *before,
            None => break,
        }
    }
    way.reverse();
    Ok(way)
}
