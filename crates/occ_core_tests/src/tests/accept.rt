ghost use Rattle.std.specs.Prelude.{◌≡◌, true};
ghost use Rattle.occ_follow.specs.occ_accept.Order.{event_cmp, strict};

use crate::tests::events::{A, B, INPUTS};
use occ_desk::{Event, Memory, Name};
use occ_follow::{AcceptSet, Antichain, cross, join, least, without};
use std::alloc::Global;

// The antichain of one set.
fn single(alloc: Global, events: &[Event]) -> Result<Antichain, Memory>
    requires { strict event_cmp events.now ≡ true }
{
    let set = AcceptSet::of(alloc, events)?;
    least(alloc, &[set])
}

#[test]
fn the_least_of_three_sets(rt: HostRuntime) -> Result<(), Memory> {
    let alloc = rt.alloc();
    let both = AcceptSet::of(alloc, &[A, B])?;
    assert!(rt; both.has(B));
    assert!(rt; both.copy(alloc)? == both);
    let sets = [
        AcceptSet::of(alloc, &[A])?,
        both,
        AcceptSet::of(alloc, &[B])?,
    ];
    let least = least(alloc, &sets)?;
    assert_eq!(rt; least.items().len(), 2);
    assert_eq!(rt; least.items()[0].items(), [A].as_slice());
    assert_eq!(rt; least.items()[1].items(), [B].as_slice());
    assert!(rt; least.copy(alloc)? == least);
    Ok(())
}

#[test]
fn a_set_without_a_channel(rt: HostRuntime) -> Result<(), Memory> {
    let alloc = rt.alloc();
    let a = single(alloc, &[A])?;
    let b = single(alloc, &[B])?;
    let chain = join(alloc, &a, &b)?;
    assert_eq!(rt; chain.items().len(), 2);
    let rest = without(alloc, &chain, Name(0))?;
    assert_eq!(rt; rest.items().len(), 1);
    assert!(rt; rest.items()[0].items().is_empty());
    Ok(())
}

#[test]
fn the_smaller_of_two_sets(rt: HostRuntime) -> Result<(), Memory> {
    let alloc = rt.alloc();
    let a = single(alloc, &[A])?;
    let both = single(alloc, &[A, B])?;
    assert!(rt; join(alloc, &a, &both)? == a);
    Ok(())
}

#[test]
fn pairs_of_sets_without_counterparts(rt: HostRuntime) -> Result<(), Memory> {
    let alloc = rt.alloc();
    let a = single(alloc, &[A])?;
    let inputs = single(alloc, &INPUTS)?;
    assert!(rt; cross(alloc, &a, &inputs)?.items().is_empty());
    let b = single(alloc, &[B])?;
    assert!(rt; cross(alloc, &a, &b)? == single(alloc, &[A, B])?);
    Ok(())
}
