use occ_desk::{Memory, Name};
use occ_norm_arrange::sequenced;
use occ_syntax::{Expr, Exprs, NameList, Proc, Procs, same_proc};
use std::alloc::Global;

// A variable is set to TRUE.
fn set(alloc: Global, var: usize) -> Result<Proc, Memory> {
    let mut vars = NameList::new(alloc);
    vars.push(Name(var))?;
    let mut values = Exprs::new(alloc);
    values.push(Expr::Bool(true))?;
    Ok(Proc::Assign { vars, values })
}

// The value of a variable is output.
fn output(chan: usize, var: usize) -> Proc {
    Proc::Output {
        chan: Name(chan),
        value: Expr::Var(Name(var)),
    }
}

fn three(alloc: Global, first: Proc, second: Proc, third: Proc) -> Result<Procs, Memory> {
    let mut parts = Procs::new(alloc);
    parts.push(first)?;
    parts.push(second)?;
    parts.push(third)?;
    Ok(parts)
}

fn becomes(alloc: Global, part: &Proc, wanted: &Proc) -> Result<bool, Memory> {
    match sequenced(alloc, part)? {
        Some(found) => Ok(same_proc(&found, wanted)),
        None => Ok(false),
    }
}

#[test]
fn assignments_beside_an_output_go_in_front_of_it(rt: HostRuntime) -> Result<(), Memory> {
    let alloc = rt.alloc();
    let sets = Proc::Seq(three(alloc, set(alloc, 1)?, Proc::Skip, set(alloc, 1)?)?);
    let beside = Proc::Par(three(alloc, output(0, 3), sets, set(alloc, 2)?)?);
    let mut parts = three(alloc, set(alloc, 1)?, Proc::Skip, set(alloc, 1)?)?;
    parts.push(set(alloc, 2)?)?;
    parts.push(output(0, 3))?;
    assert!(rt; becomes(alloc, &beside, &Proc::Seq(parts))?);
    let outputs = Proc::Par(three(alloc, output(0, 3), set(alloc, 1)?, output(4, 3))?);
    let mut last = Procs::new(alloc);
    last.push(output(0, 3))?;
    last.push(output(4, 3))?;
    let mut parts = Procs::new(alloc);
    parts.push(set(alloc, 1)?)?;
    parts.push(Proc::Par(last))?;
    assert!(rt; becomes(alloc, &outputs, &Proc::Seq(parts))?);
    Ok(())
}

#[test]
fn an_assignment_of_what_is_output_beside_it_stays(rt: HostRuntime) -> Result<(), Memory> {
    let alloc = rt.alloc();
    let beside = Proc::Par(three(alloc, set(alloc, 3)?, Proc::Stop, output(0, 3))?);
    assert!(rt; sequenced(alloc, &beside)?.is_none());
    let beside = Proc::Par(three(alloc, output(0, 3), Proc::Stop, set(alloc, 3)?)?);
    assert!(rt; sequenced(alloc, &beside)?.is_none());
    Ok(())
}
