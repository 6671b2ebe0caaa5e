ghost use Rattle.std.specs.Prelude.{◌≡◌, [], ◌∷◌, ◌++◌, ◌↔◌, OnOk, OnErr, IfOk, IsTrue};
ghost use Rattle.occ_syntax.specs.View.{exp, exps, waiting};

use occ_base::{List, Memory, Name};
use std::alloc::Global;
use std::marker::Model;

/// The operators between two operands.
#[derive(Clone, Copy, Debug, PartialEq, Eq, PartialOrd, Ord, Hash)]
pub enum Op {
    /// PLUS: the sum, modulo two to the width.
    Plus,
    /// MINUS: the difference, modulo two to the width.
    Minus,
    /// AND of two truth values.
    And,
    /// OR of two truth values.
    Or,
    /// `/\`: AND bit by bit of two words.
    BitAnd,
    /// `\/`: OR bit by bit of two words.
    BitOr,
    /// `><`: exclusive OR bit by bit of two words.
    BitXor,
    /// `=`
    Equal,
    /// `<>`
    Differ,
    /// `<`
    Less,
    /// `>`
    Greater,
    /// `<=`
    AtMost,
    /// `>=`
    AtLeast,
}

/// An expression. All operators are total, so an expression has a value in each state.
#[derive(Debug, Drop)]
pub enum Expr {
    /// The value of a variable.
    Var(Name),
    /// A numeral with its width in bits, 1 to 8, and its value, which fits them.
    Word { bits: u8, value: u8 },
    /// TRUE or FALSE.
    Bool(bool),
    /// NOT of a truth value.
    Not(Box<Expr>),
    /// `~`: each bit of a word turned.
    Flip(Box<Expr>),
    /// An operator between two operands.
    Two(Op, Box<Expr>, Box<Expr>),
}

/// A list of names.
pub type NameList = List<Name>;

/// A list of expressions.
#[derive(Debug, Drop)]
pub struct Exprs {
    list: Vec<Expr>,
}

impl Model for Exprs {
    ghost use Rattle.std.specs.Prelude.{List};
    ghost use Rattle.std.specs.Coded.{coded_list};
    ghost use Rattle.occ_syntax.specs.declared.expr.Expr.{Expr};
    ghost use Rattle.occ_syntax.specs.contracts.expr.Expr as code;

    ghost Value = { List Expr };

    ghost coded = { coded_list code.the_row.coded };

    ghost view = { λ exprs. exprs.list.items };
}

impl Exprs {
    /// The empty list. It takes no memory.
    pub fn new(alloc: Global) -> Exprs
        ensures { result ≡ [] }
    {
        Exprs {
            list: Vec::new(alloc),
        }
    }

    /// Adds an expression at the end. Where memory runs out, the list is as before.
    pub fn push(&mut self, item: Expr) -> Result<(), Memory>
        ensures ok { OnOk result (self.new ≡ self.old ++ item ∷ []) }
        ensures err { OnErr result (self.new ≡ self.old) }
    {
        self.list.push(item)?;
        Ok(())
    }

    /// The expressions in order. It takes no memory.
    pub fn items(&self) -> &[Expr]
        ensures { result.now ≡ self.now }
    {
        self.list.as_slice()
    }

    /// The list of the same expressions.
    pub fn copy(&self, alloc: Global) -> Result<Exprs, Memory>
        ensures { IfOk result (λ copy. exps copy ≡ exps self.now) }
    {
        Ok(Exprs {
            list: copy_exprs(alloc, self.list.as_slice())?,
        })
    }
}

fn copy_exprs(alloc: Global, exprs: &[Expr]) -> Result<Vec<Expr>, Memory>
    ensures { IfOk result (λ copy. exps copy.items ≡ exps exprs.now) }
{
    let mut copy = Vec::with_capacity(alloc, exprs.len())?;
    for expr in exprs {
        copy.push(expr.copy(alloc)?)?;
    }
    Ok(copy)
}

/// What a guard waits for.
#[derive(Debug, Drop)]
pub enum Wait {
    /// Nothing: the guard is ready at once.
    Skip,
    /// An input from a channel into a variable.
    Get { chan: Name, var: Name },
    /// An output of a value to a channel.
    Put { chan: Name, value: Expr },
}

/// The guard of an alternative: a condition, and what it waits for where the condition is true.
#[derive(Debug, Drop)]
pub struct Guard {
    pub condition: Expr,
    pub wait: Wait,
}

impl Expr {
    /// The same expression.
    pub fn copy(&self, alloc: Global) -> Result<Expr, Memory>
        ensures { IfOk result (λ copy. exp copy ≡ exp self.now) }
    {
        match self {
            Expr::Var(name) => Ok(Expr::Var(*name)),
            Expr::Word { bits, value } => Ok(Expr::Word {
                bits: *bits,
                value: *value,
            }),
            Expr::Bool(truth) => Ok(Expr::Bool(*truth)),
            Expr::Not(operand) => Ok(Expr::Not(Box::new(alloc, operand.copy(alloc)?)?)),
            Expr::Flip(operand) => Ok(Expr::Flip(Box::new(alloc, operand.copy(alloc)?)?)),
            Expr::Two(op, left, right) => {
                let left = Box::new(alloc, left.copy(alloc)?)?;
                let right = Box::new(alloc, right.copy(alloc)?)?;
                Ok(Expr::Two(*op, left, right))
            }
        }
    }
}

impl Wait {
    /// The same wait.
    pub fn copy(&self, alloc: Global) -> Result<Wait, Memory>
        ensures { IfOk result (λ copy. waiting copy ≡ waiting self.now) }
    {
        match self {
            Wait::Skip => Ok(Wait::Skip),
            Wait::Get { chan, var } => Ok(Wait::Get {
                chan: *chan,
                var: *var,
            }),
            Wait::Put { chan, value } => Ok(Wait::Put {
                chan: *chan,
                value: value.copy(alloc)?,
            }),
        }
    }
}

impl Guard {
    /// The same guard.
    pub fn copy(&self, alloc: Global) -> Result<Guard, Memory>
        ensures condition { IfOk result (λ copy. exp copy.condition ≡ exp self.now.condition) }
        ensures wait { IfOk result (λ copy. waiting copy.wait ≡ waiting self.now.wait) }
    {
        Ok(Guard {
            condition: self.condition.copy(alloc)?,
            wait: self.wait.copy(alloc)?,
        })
    }
}
