use occ_desk::{Dir, Event, Events, Memory, Name, Names, State, Width};

#[test]
fn a_text_keeps_its_name(rt: HostRuntime) -> Result<(), Memory> {
    let mut names = Names::new(rt.alloc());
    let first = names.intern(b"in")?;
    let second = names.intern(b"out")?;
    assert_eq!(rt; names.intern(b"in")?, first);
    assert_eq!(rt; first, Name(0));
    assert_eq!(rt; second, Name(1));
    Ok(())
}

#[test]
fn lists_grow_at_the_end(rt: HostRuntime) -> Result<(), Memory> {
    let mut state = State::new(rt.alloc());
    state.push((Name(3), 1))?;
    state.push((Name(1), 0))?;
    assert_eq!(rt; state.items(), [(Name(3), 1), (Name(1), 0)].as_slice());
    let event = Event {
        chan: Name(0),
        dir: Dir::Input,
        value: 2,
    };
    let mut events = Events::new(rt.alloc());
    events.push(event)?;
    events.push(event.counterpart())?;
    assert_eq!(rt; events.copy(rt.alloc())?.items(), events.items());
    assert!(rt; event < event.counterpart());
    Ok(())
}

#[test]
fn words_have_their_bits(rt: HostRuntime) {
    assert_eq!(rt; Width::Bool.bits(), 1);
    assert_eq!(rt; Width::Word(8).bits(), 8);
}
