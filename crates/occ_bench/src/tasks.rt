ghost use Rattle.std.specs.Prelude.{◌≡◌, ◌∷◌, [], IfOk};
ghost use Rattle.occ_syntax.specs.Tree.{operation, variable};
ghost use Rattle.occ_syntax.specs.View.{exp};
ghost use Rattle.occ_syntax.specs.declared.expr.Op.TheVariants as op;

use occ_bits::{Store, equal_under};
use occ_syntax::{Expr, Kind, Memory, Name, Op, Scope, Width};
use std::alloc::Global;

const X: Name = Name(0);

const Y: Name = Name(1);

const Z: Name = Name(2);

/// What is measured.
#[derive(Clone, Copy)]
pub enum Task {
    /// The parity of 64 bits.
    Parity,
    /// `x PLUS y = y PLUS x` over words of eight bits.
    SumInEitherOrder,
    /// A chain of eight additions over three words of eight bits, in either order.
    ChainOfSums,
    /// A million calls whose result is remembered.
    MemoHits,
}

/// The tasks, in the order in which they are done.
pub const ALL: [Task; 4] = [
    Task::Parity,
    Task::SumInEitherOrder,
    Task::ChainOfSums,
    Task::MemoHits,
];

impl Task {
    /// What the task is called in the output.
    fn name(self) -> &'static str {
        match self {
            Task::Parity => "parity of 64 bits",
            Task::SumInEitherOrder => "x PLUS y = y PLUS x",
            Task::ChainOfSums => "a chain of eight additions",
            Task::MemoHits => "a million memo hits",
        }
    }
}

/// A task, and how many sets its store has given numbers to behind it, in words.
pub fn line(alloc: Global, task: Task) -> Result<String, Memory> {
    let sets = run(alloc, task)?;
    Ok(format!(in alloc; "{}: {sets} sets", task.name())?)
}

/// Does a task, and says how many sets its store has then given numbers to.
fn run(alloc: Global, task: Task) -> Result<usize, Memory> {
    match task {
        Task::Parity => parity(alloc),
        Task::SumInEitherOrder => sum_in_either_order(alloc),
        Task::ChainOfSums => chain_of_sums(alloc),
        Task::MemoHits => memo_hits(alloc),
    }
}

fn parity(alloc: Global) -> Result<usize, Memory> {
    let mut store = Store::new(alloc)?;
    let mut odd = store.empty();
    for k in 0..64 {
        let bit = store.bit(k)?;
        let even = store.not(odd)?;
        odd = store.ite(bit, even, odd)?;
    }
    Ok(store.sets())
}

fn plus(alloc: Global, left: Expr, right: Expr) -> Result<Expr, Memory>
    ensures { IfOk result (λ e. exp e ≡ operation op.Plus (exp left) (exp right)) }
{
    Ok(Expr::Two(Op::Plus, Box::new(alloc, left)?, Box::new(alloc, right)?))
}

fn three_words(alloc: Global) -> Result<Scope, Memory>
    ensures { IfOk result (λ scope. scope ≡ (X, Kind.Var (Width.Word 8)) ∷ (Y, Kind.Var (Width.Word 8)) ∷ (Z, Kind.Var (Width.Word 8)) ∷ []) }
{
    let mut scope = Scope::new(alloc);
    scope.push((X, Kind::Var(Width::Word(8))))?;
    scope.push((Y, Kind::Var(Width::Word(8))))?;
    scope.push((Z, Kind::Var(Width::Word(8))))?;
    Ok(scope)
}

fn sum_in_either_order(alloc: Global) -> Result<usize, Memory> {
    let scope = three_words(alloc)?;
    let left = plus(alloc, Expr::Var(X), Expr::Var(Y))?;
    let right = plus(alloc, Expr::Var(Y), Expr::Var(X))?;
    let mut store = Store::new(alloc)?;
    let _ = equal_under(alloc, &mut store, &scope, &[], &left, &right)?;
    Ok(store.sets())
}

/// The sum of nine words, the additions from the left: the three in order, three times.
fn chain(alloc: Global, first: Name, second: Name, third: Name) -> Result<Expr, Memory>
    ensures { IfOk result (λ e. exp e ≡
        operation op.Plus (operation op.Plus (operation op.Plus (operation op.Plus (operation op.Plus (operation op.Plus (operation op.Plus (operation op.Plus
        (variable first.0) (variable second.0)) (variable third.0)) (variable first.0)) (variable second.0)) (variable third.0))
        (variable first.0)) (variable second.0)) (variable third.0)) }
{
    let one = plus(alloc, Expr::Var(first), Expr::Var(second))?;
    let two = plus(alloc, one, Expr::Var(third))?;
    let three = plus(alloc, two, Expr::Var(first))?;
    let four = plus(alloc, three, Expr::Var(second))?;
    let five = plus(alloc, four, Expr::Var(third))?;
    let six = plus(alloc, five, Expr::Var(first))?;
    let seven = plus(alloc, six, Expr::Var(second))?;
    plus(alloc, seven, Expr::Var(third))
}

fn chain_of_sums(alloc: Global) -> Result<usize, Memory> {
    let scope = three_words(alloc)?;
    let left = chain(alloc, X, Y, Z)?;
    let right = chain(alloc, Z, Y, X)?;
    let mut store = Store::new(alloc)?;
    let _ = equal_under(alloc, &mut store, &scope, &[], &left, &right)?;
    Ok(store.sets())
}

fn memo_hits(alloc: Global) -> Result<usize, Memory> {
    let mut store = Store::new(alloc)?;
    let low = store.bit(0)?;
    let high = store.bit(63)?;
    for _k in 0..1_000_000 {
        let _ = store.and(low, high)?;
    }
    Ok(store.sets())
}
