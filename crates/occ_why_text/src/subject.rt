use occ_place::Places;
use occ_run::{Behaviour, Offer, Point};
use occ_syntax::{Dir, Event, Kind, Memory, Name};

/// A program of which is told: the name of its file, its places, its parameters, and a behaviour.
#[derive(Clone, Copy)]
pub struct Subject<'p> {
    pub file: &'p [u8],
    pub places: &'p Places,
    pub params: &'p [(Name, Kind)],
    pub behaviour: &'p Behaviour,
}

impl<'p> Subject<'p> {
    /// Whether the program has parts.
    pub(crate) fn has_parts(&self) -> bool {
        self.places.layout.parts.len() > 1
    }

    /// The number of an event among all of the interface, in the order of what is written.
    fn number_of(&self, event: Event) -> u32 {
        let mut place: u32 = 0;
        for (name, _) in self.params {
            if *name == event.chan {
                break;
            }
            place = place.saturating_add(256);
        }
        place.saturating_add(u32::from(event.value))
    }

    /// The event of a number.
    pub(crate) fn event_of(&self, number: u32) -> Option<Event> {
        match self.params.get((number / 256) as usize) {
            Some((chan, Kind::Chan(_, Some(dir)))) => Some(Event {
                chan: *chan,
                dir: *dir,
                value: (number % 256) as u8,
            }),
            _ => None,
        }
    }

    /// The numbers of the events that steps at a point are, increasing.
    pub(crate) fn offered(&self, point: &Point) -> Result<Vec<u32>, Memory> {
        let mut numbers = Vec::new(self.places.alloc());
        let offers = point.offers()?;
        for offer in &offers {
            self.add_offered(&mut numbers, offer)?;
        }
        numbers.sort()?;
        let mut once = Vec::new(self.places.alloc());
        for number in &numbers {
            if once.last() != Some(number) {
                once.push(*number)?;
            }
        }
        Ok(once)
    }

    fn add_offered(&self, numbers: &mut Vec<u32>, offer: &Offer) -> Result<(), Memory> {
        if let Some(event) = offer.event {
            numbers.push(self.number_of(event))?;
        }
        Ok(())
    }

    /// The events of those numbers.
    pub(crate) fn events_of(&self, numbers: &[u32]) -> Result<Vec<Event>, Memory> {
        let mut events = Vec::new(self.places.alloc());
        for number in numbers {
            if let Some(event) = self.event_of(*number) {
                events.push(event)?;
            }
        }
        Ok(events)
    }

    /// How many events the interface has.
    pub(crate) fn interface(&self) -> usize {
        let mut count: usize = 0;
        for (_, kind) in self.params {
            if let Kind::Chan(width, _) = kind {
                count = count.saturating_add(1usize << u32::from(width.bits().min(8)));
            }
        }
        count
    }
}

/// The mark of an event.
pub(crate) fn mark(dir: Dir) -> u8 {
    match dir {
        Dir::Input => b'?',
        Dir::Output => b'!',
    }
}
