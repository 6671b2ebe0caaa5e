use crate::build::{alt_of, assign_of, if_of, pairs_of, par_of, seq_of, var_of};
use crate::lists::{branches_of, choices_of, parts_of};
use occ_syntax::{
    Alternatives, Choices, Expr, Exprs, Guard, Memory, Name, NameList, Proc, Procs, Width,
};
use std::alloc::Global;
use std::mem::replace;

/// A process taken apart, one step deep, with what it holds in lists that can be changed.
#[derive(Drop)]
pub enum Piece {
    /// SKIP
    Skip,
    /// STOP
    Stop,
    /// An assignment: its variables with their right sides.
    Assign(Vec<(Name, Expr)>),
    /// An input: the channel and the variable.
    Input(Name, Name),
    /// An output: the channel and the value.
    Output(Name, Expr),
    /// SEQ
    Seq(Vec<Proc>),
    /// PAR
    Par(Vec<Proc>),
    /// IF
    If(Vec<(Expr, Proc)>),
    /// ALT
    Alt(Vec<(Guard, Proc)>),
    /// A declared variable: its name, its width and the process.
    Var(Name, Width, Proc),
    /// A declared channel: its name, its width and the process.
    Chan(Name, Width, Proc),
}

impl Piece {
    /// A process taken apart. Of an assignment with more variables than right sides, or fewer, what has no partner is lost.
    pub fn of(alloc: Global, mut part: Proc) -> Result<Piece, Memory> {
        match &mut part {
            Proc::Skip => Ok(Piece::Skip),
            Proc::Stop => Ok(Piece::Stop),
            Proc::Assign { vars, values } => {
                let vars = replace(vars, NameList::new(alloc));
                let values = replace(values, Exprs::new(alloc));
                Ok(Piece::Assign(pairs_of(alloc, vars.items(), values.items())?))
            }
            Proc::Input { chan, var } => Ok(Piece::Input(*chan, *var)),
            Proc::Output { chan, value } => {
                Ok(Piece::Output(*chan, replace(value, Expr::Bool(true))))
            }
            Proc::Seq(parts) => Ok(Piece::Seq(parts_of(alloc, replace(parts, Procs::new(alloc)))?)),
            Proc::Par(parts) => Ok(Piece::Par(parts_of(alloc, replace(parts, Procs::new(alloc)))?)),
            Proc::If(choices) => Ok(Piece::If(choices_of(
                alloc,
                replace(choices, Choices::new(alloc)),
            )?)),
            Proc::Alt(branches) => Ok(Piece::Alt(branches_of(
                alloc,
                replace(branches, Alternatives::new(alloc)),
            )?)),
            Proc::Var { name, width, body } => Ok(Piece::Var(
                *name,
                *width,
                replace(&mut **body, Proc::Stop),
            )),
            Proc::Chan { name, width, body } => Ok(Piece::Chan(
                *name,
                *width,
                replace(&mut **body, Proc::Stop),
            )),
        }
    }

    /// The process put together again.
    pub fn into_proc(self, alloc: Global) -> Result<Proc, Memory> {
        match self {
            Piece::Skip => Ok(Proc::Skip),
            Piece::Stop => Ok(Proc::Stop),
            Piece::Assign(pairs) => assign_of(alloc, pairs.as_slice()),
            Piece::Input(chan, var) => Ok(Proc::Input { chan, var }),
            Piece::Output(chan, value) => Ok(Proc::Output { chan, value }),
            Piece::Seq(parts) => seq_of(alloc, parts),
            Piece::Par(parts) => par_of(alloc, parts),
            Piece::If(choices) => if_of(alloc, choices),
            Piece::Alt(branches) => alt_of(alloc, branches),
            Piece::Var(name, width, body) => var_of(alloc, name, width, body),
            Piece::Chan(name, width, body) => {
                let body = Box::new(alloc, body)?;
                Ok(Proc::Chan { name, width, body })
            }
        }
    }
}
