use occ_desk::{Dir, Event, Name};

/// The outputs of 1 on the first and on the second channel.
pub const A: Event = Event {
    chan: Name(0),
    dir: Dir::Output,
    value: 1,
};

pub const B: Event = Event {
    chan: Name(1),
    dir: Dir::Output,
    value: 1,
};

/// The inputs of 0 and of 1 on the first channel.
pub const INPUTS: [Event; 2] = [
    Event {
        chan: Name(0),
        dir: Dir::Input,
        value: 0,
    },
    Event {
        chan: Name(0),
        dir: Dir::Input,
        value: 1,
    },
];
