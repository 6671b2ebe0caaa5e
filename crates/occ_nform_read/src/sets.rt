ghost use Rattle.std.specs.Prelude.{◌≡◌, ◌==◌, ◌+◌, ◌<◌, ◌≤◌, [], ◌∷◌, length, get_or, None};
ghost use Rattle.std.specs.List.{list_any, All};
ghost use Rattle.std.specs.List.Sorted.{IsNonDecreasing};
ghost use Rattle.occ_nform_table.specs.Judging.{accept_mark, follows, text_less};
ghost use Rattle.occ_nform_table.specs.Normal.{first_mark};
ghost use Rattle.occ_nform_read.specs.Marks.{is_part, is_more, is_least, set_marks, prior, mark_at};

use crate::places::Places;
use occ_nform_table::TableFault;

/// Whether a number is among others, which don't decrease.
fn has(whole: &[u64], number: u64) -> bool
    requires { IsNonDecreasing whole.now }
    ensures { result ≡ list_any (λ m. number == m) whole.now }
{
    whole.binary_search(&number).is_ok()
}

/// Whether each number of a part is among those of the whole, which don't decrease.
fn is_part(part: &[u64], whole: &[u64]) -> bool
    requires { IsNonDecreasing whole.now }
    ensures { result ≡ is_part part.now whole.now }
{
    for number in part {
        if !has(whole, *number) {
            return false;
        }
    }
    true
}

/// Whether the whole has the numbers of a part, and more.
fn is_more(whole: &[u64], part: &[u64]) -> bool
    requires { IsNonDecreasing whole.now }
    ensures { result ≡ is_more whole.now part.now }
{
    if part.len() < whole.len() {
        is_part(part, whole)
    } else {
        false
    }
}

/// The length of the shortest set.
fn shortest(sets: &[Places]) -> usize
    ensures { All (λ set. result ≤ length set) sets.now }
{
    let mut least = usize::MAX;
    for set in sets {
        least = least.min(set.items().len());
    }
    least
}

/// Whether a set contains another one of all sets, which have at least so many events.
fn is_excessive(sets: &[Places], least: usize, set: &[u64]) -> bool
    requires sorted { IsNonDecreasing set.now }
    requires least { All (λ set. least ≤ length set) sets.now }
    ensures { result ≡ list_any (is_more set.now) sets.now }
{
    if set.len() <= least {
        return false;
    }
    for other in sets {
        if is_more(set, other.items()) {
            return true;
        }
    }
    false
}

/// Whether a set comes before another one in the order of sets.
fn is_less(first: &[u64], second: &[u64]) -> bool
    ensures { result ≡ text_less first.now second.now }
{
    first < second
}

/// Whether the set at a place is after the one before it.
fn is_placed(sets: &[Places], i: usize) -> bool
    requires { i < length sets.now }
    ensures { result ≡ follows text_less (prior sets.now i) (get_or sets.now i []) }
{
    if i == 0 {
        true
    } else {
        is_less(sets[i - 1].items(), sets[i].items())
    }
}

/// Whether a set is within the offers and contains none of all sets.
fn is_least(offers: &[u64], sets: &[Places], shortest: usize, set: &[u64]) -> bool
    requires offers { IsNonDecreasing offers.now }
    requires sorted { IsNonDecreasing set.now }
    requires least { All (λ set. shortest ≤ length set) sets.now }
    ensures { result ≡ is_least offers.now sets.now set.now }
{
    if !is_part(set, offers) {
        return false;
    }
    !is_excessive(sets, shortest, set)
}

/// The fault of an ACCEPT line: that it is out of order comes first.
#[tactic(auto, unfolding(occ_nform_table::specs::Normal::first_mark))]
fn mark_fault(line: u32, placed: bool, least: bool) -> Option<TableFault>
    ensures { result ≡ first_mark line (accept_mark placed least ∷ []) }
{
    if !placed {
        return Some(TableFault::Order { line });
    }
    if !least {
        return Some(TableFault::NotLeast { line });
    }
    None
}

/// The fault of the ACCEPT line of the set at a place.
fn set_fault(
    line: u32,
    offers: &[u64],
    sets: &[Places],
    shortest: usize,
    i: usize,
) -> Option<TableFault>
    requires offers { IsNonDecreasing offers.now }
    requires sets { All IsNonDecreasing sets.now }
    requires least { All (λ set. shortest ≤ length set) sets.now }
    requires place { i < length sets.now }
    ensures { result ≡ first_mark line (mark_at offers.now sets.now i ∷ []) }
{
    let set = sets[i].items();
    let placed = is_placed(sets, i);
    let least = is_least(offers, sets, shortest, set);
    mark_fault(line, placed, least)
}

/// The first fault of ACCEPT lines from a line on, by the ranks of their events and of the offers, which don't decrease.
pub fn sets_fault(line: u32, offers: &[u64], sets: &[Places]) -> Option<TableFault>
    requires offers { IsNonDecreasing offers.now }
    requires sets { All IsNonDecreasing sets.now }
    requires fits { line + length sets.now ≤ 4294967295 }
    ensures { result ≡ first_mark line (set_marks offers.now sets.now None sets.now) }
{
    let least = shortest(sets);
    for i in 0..sets.len() {
        let fault = set_fault(line + i as u32, offers, sets, least, i);
        if fault.is_some() {
            return fault;
        }
    }
    None
}
