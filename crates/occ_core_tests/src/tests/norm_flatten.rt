use occ_desk::{Memory, Name, Width};
use occ_norm_arrange::flattened;
use occ_syntax::{Alternatives, Expr, Guard, Kind, Proc, Procs, Wait, same_proc};
use std::alloc::Global;

const CHAN: Kind = Kind::Chan(Width::Bool, None);

fn beside(alloc: Global, first: Proc, second: Proc) -> Result<Procs, Memory> {
    let mut parts = Procs::new(alloc);
    parts.push(first)?;
    parts.push(second)?;
    Ok(parts)
}

#[test]
fn a_par_within_a_channel_in_a_par_is_one(rt: HostRuntime) -> Result<(), Memory> {
    let alloc = rt.alloc();
    let inner = Proc::Par(beside(alloc, Proc::Stop, Proc::Stop)?).declare(alloc, Name(0), CHAN)?;
    let nested = Proc::Par(beside(alloc, Proc::Stop, inner)?).declare(alloc, Name(1), CHAN)?;
    let mut parts = beside(alloc, Proc::Stop, Proc::Stop)?;
    parts.push(Proc::Stop)?;
    let one = Proc::Par(parts).declare(alloc, Name(0), CHAN)?;
    let wanted = one.declare(alloc, Name(1), CHAN)?;
    let found = flattened(alloc, &nested)?;
    assert!(rt; found.is_some());
    if let Some(flat) = found {
        assert!(rt; same_proc(&flat, &wanted));
    }
    Ok(())
}

#[test]
fn a_channel_that_is_declared_beside_its_par_stays(rt: HostRuntime) -> Result<(), Memory> {
    let alloc = rt.alloc();
    let first = Proc::Skip.declare(alloc, Name(0), CHAN)?;
    let last = Proc::Par(beside(alloc, Proc::Stop, Proc::Stop)?).declare(alloc, Name(0), CHAN)?;
    let nested = Proc::Par(beside(alloc, first, last)?);
    assert!(rt; flattened(alloc, &nested)?.is_none());
    Ok(())
}

fn output(chan: usize) -> Proc {
    Proc::Output {
        chan: Name(chan),
        value: Expr::Bool(true),
    }
}

fn input(chan: usize, var: usize) -> Proc {
    Proc::Input {
        chan: Name(chan),
        var: Name(var),
    }
}

// Two users of each of two channels, those of one behind those of the other where they are close.
fn users(alloc: Global, is_close: bool) -> Result<Proc, Memory> {
    let mut parts = Procs::new(alloc);
    if is_close {
        parts.push(input(1, 3))?;
        parts.push(output(1))?;
        parts.push(input(0, 2))?;
        parts.push(output(0))?;
    } else {
        parts.push(output(0))?;
        parts.push(output(1))?;
        parts.push(input(0, 2))?;
        parts.push(input(1, 3))?;
    }
    Ok(Proc::Par(parts))
}

// Such users after another process, and behind a guard.
fn behind_process(alloc: Global, is_close: bool) -> Result<Proc, Memory> {
    let users = users(alloc, is_close)?;
    Ok(Proc::Seq(beside(alloc, Proc::Skip, users)?))
}

fn behind_guard(alloc: Global, is_close: bool) -> Result<Proc, Memory> {
    let users = users(alloc, is_close)?;
    let guard = Guard {
        condition: Expr::Bool(true),
        wait: Wait::Skip,
    };
    let mut list = Alternatives::new(alloc);
    list.push((guard, users))?;
    Ok(Proc::Alt(list))
}

fn becomes(alloc: Global, part: &Proc, wanted: &Proc) -> Result<bool, Memory> {
    match flattened(alloc, part)? {
        Some(flat) => Ok(same_proc(&flat, wanted)),
        None => Ok(false),
    }
}

#[test]
fn users_of_a_channel_come_close_wherever_they_stand(rt: HostRuntime) -> Result<(), Memory> {
    let alloc = rt.alloc();
    let listed = behind_process(alloc, false)?;
    let close = behind_process(alloc, true)?;
    assert!(rt; becomes(alloc, &listed, &close)?);
    assert!(rt; flattened(alloc, &close)?.is_none());
    let listed = behind_guard(alloc, false)?;
    let close = behind_guard(alloc, true)?;
    assert!(rt; becomes(alloc, &listed, &close)?);
    Ok(())
}
