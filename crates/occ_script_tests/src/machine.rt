ghost use Rattle.std.specs.Prelude.{◌≡◌, IfOk, true, []};
ghost use Rattle.occ_run_schedule.specs.occ_behaviour.States.{is_state};
ghost use Rattle.occ_run_schedule.specs.occ_usage.Accepted.{IsTyped};

use occ_run_schedule::{
    Accepted, Move, Stand, StepFault, UsageFault, check, keeps_scope, keeps_types, start,
};
use occ_syntax::{
    Dir, Event, Kind, Memory, Name, Proc, Program, Scope, State, Width, controls, interface_bits,
    scope_bits,
};
use std::alloc::Global;

const D: Name = Name(0);

// A program without variables, with a channel to output a bit on.
fn program(alloc: Global, body: Proc) -> Result<Program, Memory>
    ensures { IfOk result (λ program. is_state program.params [] ≡ true) }
{
    let mut params = Scope::new(alloc);
    params.push((D, Kind::Chan(Width::Word(1), Some(Dir::Output))))?;
    Ok(Program {
        name: Name(1),
        params,
        body,
    })
}

// What a check asks of a program.
fn is_typed(alloc: Global, program: &Program) -> Result<bool, Memory>
    ensures { IfOk result (λ typed. typed ≡ true → IsTyped program.now) }
{
    let scope = keeps_scope(alloc, program.params.items())?;
    let types = keeps_types(alloc, &program.params, &program.body)?;
    Ok(
        scope
            && types
            && controls(&program.body) <= 4_096
            && program.params.items().len() <= 16
            && interface_bits(program) <= 16
            && scope_bits(program) <= 24,
    )
}

fn accepted(alloc: Global, body: Proc) -> Result<Accepted, UsageFault>
    ensures { IfOk result (λ accepted. is_state accepted.program.params [] ≡ true) }
{
    let program = program(alloc, body)?;
    if !is_typed(alloc, &program)? {
        return Err(UsageFault::Memory);
    }
    Ok(check(alloc, program)?)
}

// The bits that could be output.
const BITS: [Event; 2] = [
    Event {
        chan: D,
        dir: Dir::Output,
        value: 0,
    },
    Event {
        chan: D,
        dir: Dir::Output,
        value: 1,
    },
];

#[test]
fn a_lone_stop_is_stuck(rt: HostRuntime) -> Result<(), UsageFault> {
    let alloc = rt.alloc();
    let accepted = accepted(alloc, Proc::Stop)?;
    let from = State::new(alloc);
    let mut machine = start(alloc, &accepted, &from)?;
    let none: [Move; 0] = [];
    assert!(rt; machine.moves()?.as_slice() == none.as_slice());
    assert!(rt; matches!(machine.step(0), Err(StepFault::NoStep)));
    match machine.stand()? {
        Stand::Stuck(refused) => assert!(rt; refused.items() == BITS.as_slice()),
        _ => assert!(rt; false),
    }
    Ok(())
}
