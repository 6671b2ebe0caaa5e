use occ_run::Control;
use occ_syntax::{Name, Width};
use std::rc::Rc;

/// A number that is the same of configurations whose parts stand at the same processes, and seldom of others. Processes are told apart by
/// the channels that mark them.
#[cycle(shape)]
pub(crate) fn shape(control: &Control) -> u64 {
    match control {
        Control::Done => 1,
        Control::Ready => 2,
        Control::Stuck => 3,
        Control::Unbegun(_) => 4,
        Control::Input { chan, .. } => mixed(5, chan.0 as u64),
        Control::Output { chan, .. } => mixed(6, chan.0 as u64),
        Control::After(body, _) => mixed(7, shape(body)),
        Control::Both(parts) => shapes(parts),
        Control::Local { body, .. } => mixed(8, shape(body)),
        Control::Channels { first, more, body } => mixed(shape(body), marks(*first, more)),
    }
}

#[cycle(shape)]
fn shapes(parts: &[Rc<Control>]) -> u64 {
    let mut whole: u64 = 9;
    let mut rest = parts;
    while let [part, later @ ..] = rest {
        whole = mixed(whole, shape(part));
        rest = later;
    }
    whole
}

fn marks(first: (Name, Width), more: &[(Name, Width)]) -> u64 {
    let mut whole = mixed(10, first.0.0 as u64);
    for (name, _) in more {
        whole = mixed(whole, name.0 as u64);
    }
    whole
}

/// Two numbers made one, in the manner of Fowler, Noll and Vo.
fn mixed(one: u64, other: u64) -> u64 {
    (one ^ other)
        .wrapping_mul(0x0000_0100_0000_01b3)
        .rotate_left(23)
}
