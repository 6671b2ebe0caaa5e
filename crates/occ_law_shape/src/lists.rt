ghost use Rattle.occ_syntax.specs.View.{trees};
ghost use Rattle.occ_law_shape.specs.Lists.{IsBehind, IsOnly, IsPair, IsPartAt};

use occ_syntax::{Proc, same_proc};

/// A part of a list, with what stands before it and behind it.
#[derive(Clone, Copy)]
pub struct Here<'a> {
    pub before: &'a [Proc],
    pub part: &'a Proc,
    pub behind: &'a [Proc],
}

/// The part of a list that has one; None exactly where it hasn't one. It takes no memory.
pub fn only(parts: &[Proc]) -> Option<&Proc>
    ensures { IsOnly (trees parts.now) result }
{
    if parts.len() == 1 {
        Some(&parts[0])
    } else {
        None
    }
}

/// The two parts of a list that has two; None exactly where it hasn't two. It takes no memory.
pub fn pair(parts: &[Proc]) -> Option<(&Proc, &Proc)>
    ensures { IsPair (trees parts.now) result }
{
    if parts.len() == 2 {
        Some((&parts[0], &parts[1]))
    } else {
        None
    }
}

/// The part behind so many others, and those before it and behind it; None exactly where there is none. It takes no memory.
pub fn part_at(parts: &[Proc], size: usize) -> Option<Here<'_>>
    ensures { IsPartAt (trees parts.now) size result }
{
    if size >= parts.len() {
        return None;
    }
    Some(Here {
        before: &parts[..size],
        part: &parts[size],
        behind: &parts[size + 1..],
    })
}

/// What stands in a list behind the parts of another, where it begins with these; None exactly where it doesn't.
/// It takes no memory.
pub fn behind<'a>(first: &[Proc], all: &'a [Proc]) -> Option<&'a [Proc]>
    ensures { IsBehind (trees first.now) (trees all.now) result }
{
    let mut front = first;
    let mut rest = all;
    while let [part, more @ ..] = front {
        let [other, other_more @ ..] = rest else {
            return None;
        };
        if !same_proc(part, other) {
            return None;
        }
        front = more;
        rest = other_more;
    }
    Some(rest)
}
