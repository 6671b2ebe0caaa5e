ghost use Rattle.std.specs.Prelude.{◌≡◌, true, not, ◌||◌, IfOk};
ghost use Rattle.std.specs.List.{filter};
ghost use Rattle.occ_accept.specs.Order.{event_cmp, strict};
ghost use Rattle.occ_accept.specs.Accept.{in_set, is_on, is_part, is_unmatched};
ghost use Rattle.std.specs.Cmp.Lexicographic.{slice_cmp, pointwise, lists_per, lists_equiv};
ghost use Rattle.std.specs.Ordering.{is_lt};

use occ_base::{Event, Memory, Name};
use std::alloc::Global;
use std::hash::{Hash, Hasher};
use std::marker::Model;

/// The events that a process accepts where it is stable, a strictly increasing list. Events are ordered
/// by the number of the channel's name, then Input before Output, then by value.
#[derive(Debug, Drop)]
pub struct AcceptSet {
    events: Vec<Event>,
}

impl Model for AcceptSet {
    ghost use Rattle.std.specs.Prelude.{◌≡◌, true, List};
    ghost use Rattle.occ_base.specs.declared.event.Event.{Event};
    ghost use Rattle.occ_accept.specs.Order.{event_cmp, strict};

    ghost Value = { List Event };

    ghost view = { λ set. set.events.items };

    ghost invariant = { λ set. strict event_cmp set.events.items ≡ true };
}

impl AcceptSet {
    /// The set of these events, which increase strictly.
    pub fn of(alloc: Global, events: &[Event]) -> Result<AcceptSet, Memory>
        requires { strict event_cmp events.now ≡ true }
        ensures { IfOk result (λ r. r ≡ events.now) }
    {
        Ok(AcceptSet {
            events: Vec::from_slice(alloc, events)?,
        })
    }

    /// The events in order. It takes no memory.
    pub fn items(&self) -> &[Event]
        ensures items { result.now ≡ self.now }
        ensures strict { strict event_cmp self.now ≡ true }
    {
        self.events.as_slice()
    }

    /// The set of the same events.
    pub fn copy(&self, alloc: Global) -> Result<AcceptSet, Memory>
        ensures { IfOk result (λ r. r ≡ self.now) }
    {
        Ok(AcceptSet {
            events: Vec::from_slice(alloc, self.events.as_slice())?,
        })
    }

    /// Whether an event is in the set. It takes no memory.
    pub fn has(&self, event: Event) -> bool
        ensures { result ≡ in_set self.now event }
    {
        self.events.binary_search(&event).is_ok()
    }

    // Whether each event of this set is in the other.
    pub(crate) fn is_part(&self, other: &AcceptSet) -> bool
        ensures { result ≡ is_part self.now other.now }
    {
        self.items().iter().all(|event| other.has(*event))
    }

    // Whether no event of this set has its counterpart in the other.
    pub(crate) fn is_unmatched(&self, other: &AcceptSet) -> bool
        ensures { result ≡ is_unmatched self.now other.now }
    {
        self.items()
            .iter()
            .all(|event| !other.has(event.counterpart()))
    }

    // Whether this set goes before the other by the first difference of the lists.
    pub(crate) fn goes_before(&self, other: &AcceptSet) -> bool
        ensures { result ≡ is_lt (slice_cmp event_cmp self.now other.now) }
    {
        self.items() < other.items()
    }

    /// The set of these events, in whatever order and however often they stand. It takes no memory.
    pub fn gather(mut events: Vec<Event>) -> AcceptSet
        ensures { (e : Event) → in_set result e ≡ in_set events.items e }
    {
        events.sort_unstable();
        events.dedup();
        AcceptSet { events }
    }

    /// The events of either set.
    pub fn union(&self, alloc: Global, other: &AcceptSet) -> Result<AcceptSet, Memory>
        ensures { IfOk result (λ r. (e : Event) → in_set r e ≡ (in_set self.now e || in_set other.now e)) }
    {
        let mut events = Vec::from_slice(alloc, self.items())?;
        events.extend_from_slice(other.items())?;
        Ok(AcceptSet::gather(events))
    }

    // The events that aren't of the channel.
    pub(crate) fn without(&self, alloc: Global, chan: Name) -> Result<AcceptSet, Memory>
        ensures { IfOk result (λ r. r ≡ filter (λ e. not (is_on chan e)) self.now) }
    {
        let mut events = Vec::from_slice(alloc, self.items())?;
        events.retain(|event| event.chan != chan);
        Ok(AcceptSet { events })
    }
}
