use occ_syntax::{
    Alternatives, Choices, Expr, Exprs, Guard, Memory, Name, NameList, Proc, Procs, Wait, Width,
};
use std::alloc::Global;

/// SEQ of these parts.
pub fn seq_of(alloc: Global, parts: Vec<Proc>) -> Result<Proc, Memory> {
    Ok(Proc::Seq(list_of(alloc, parts)?))
}

/// PAR of these parts.
pub fn par_of(alloc: Global, parts: Vec<Proc>) -> Result<Proc, Memory> {
    Ok(Proc::Par(list_of(alloc, parts)?))
}

fn list_of(alloc: Global, parts: Vec<Proc>) -> Result<Procs, Memory> {
    let mut list = Procs::new(alloc);
    for part in parts {
        list.push(part)?;
    }
    Ok(list)
}

/// IF of these choices.
pub fn if_of(alloc: Global, choices: Vec<(Expr, Proc)>) -> Result<Proc, Memory> {
    let mut list = Choices::new(alloc);
    for choice in choices {
        list.push(choice)?;
    }
    Ok(Proc::If(list))
}

/// ALT of these branches.
pub fn alt_of(alloc: Global, alternatives: Vec<(Guard, Proc)>) -> Result<Proc, Memory> {
    let mut list = Alternatives::new(alloc);
    for branch in alternatives {
        list.push(branch)?;
    }
    Ok(Proc::Alt(list))
}

/// SEQ of two parts.
pub fn seq_of_two(alloc: Global, first: Proc, second: Proc) -> Result<Proc, Memory> {
    let mut list = Procs::new(alloc);
    list.push(first)?;
    list.push(second)?;
    Ok(Proc::Seq(list))
}

/// A variable declared for a process.
pub fn var_of(alloc: Global, name: Name, width: Width, body: Proc) -> Result<Proc, Memory> {
    let body = Box::new(alloc, body)?;
    Ok(Proc::Var { name, width, body })
}

/// The assignment of these pairs; SKIP where there is none.
pub fn assign_of(alloc: Global, pairs: &[(Name, Expr)]) -> Result<Proc, Memory> {
    if pairs.is_empty() {
        return Ok(Proc::Skip);
    }
    let mut vars = NameList::new(alloc);
    let mut values = Exprs::new(alloc);
    for (name, value) in pairs {
        vars.push(*name)?;
        values.push(value.copy(alloc)?)?;
    }
    Ok(Proc::Assign { vars, values })
}

/// The pairs of an assignment.
pub fn pairs_of(
    alloc: Global,
    vars: &[Name],
    values: &[Expr],
) -> Result<Vec<(Name, Expr)>, Memory> {
    let mut pairs = Vec::new(alloc);
    for (name, value) in vars.iter().zip(values) {
        pairs.push((*name, value.copy(alloc)?))?;
    }
    Ok(pairs)
}

/// The guard that is always ready.
pub fn unseen() -> Guard {
    Guard {
        condition: Expr::Bool(true),
        wait: Wait::Skip,
    }
}

/// A value of that width as an expression; every number but 0 is TRUE.
pub fn constant(width: Width, value: u8) -> Expr {
    match width {
        Width::Bool => Expr::Bool(value != 0),
        Width::Word(bits) => Expr::Word { bits, value },
    }
}
