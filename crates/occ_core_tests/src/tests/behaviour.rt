use occ_behaviour_read::{Behaviour, Last, Side, Verdict, behaviour_text, verdict_text};
use occ_desk::{Events, Memory, Name, Names, State};
use std::alloc::Global;

fn listed(alloc: Global, values: &[(Name, u8)]) -> Result<State, Memory> {
    let mut state = State::new(alloc);
    for value in values {
        state.push(*value)?;
    }
    Ok(state)
}

#[test]
fn a_difference_is_five_lines(rt: HostRuntime) -> Result<(), Memory> {
    let alloc = rt.alloc();
    let names = Names::new(alloc);
    let behaviour = Behaviour {
        state: listed(alloc, &[(Name(0), 0), (Name(1), 1)])?,
        trace: Events::new(alloc),
        last: Last::Ends(listed(alloc, &[(Name(0), 1), (Name(1), 0)])?),
    };
    let verdict = Verdict::Differ {
        behaviour,
        only: Side::First,
    };
    let text = verdict_text(alloc, &names, &verdict)?;
    assert_eq!(rt;
        text.as_slice(),
        b"DIFFER\nSTATE [0 1]\nTRACE\nENDS [1 0]\nONLY FIRST\n".as_slice()
    );
    let same = verdict_text(alloc, &names, &Verdict::Same)?;
    assert_eq!(rt; same.as_slice(), b"SAME\n".as_slice());
    Ok(())
}

#[test]
fn a_behaviour_is_three_lines(rt: HostRuntime) -> Result<(), Memory> {
    let alloc = rt.alloc();
    let behaviour = Behaviour {
        state: State::new(alloc),
        trace: Events::new(alloc),
        last: Last::Refuses(Events::new(alloc)),
    };
    let text = behaviour_text(alloc, &Names::new(alloc), &behaviour)?;
    assert_eq!(rt;
        text.as_slice(),
        b"STATE []\nTRACE\nREFUSES {}\n".as_slice()
    );
    Ok(())
}
