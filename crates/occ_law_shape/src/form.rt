ghost use Rattle.std.specs.Prelude.{◌≡◌, ◌↔◌, IsTrue, true};
ghost use Rattle.occ_syntax.specs.View.{tree, exp};
ghost use Rattle.occ_law_shape.specs.Form.{form_tree, AreBranches, AreChoices, AreInPar, AreInSeq};
ghost use Rattle.occ_syntax.specs.Tree.{skip, stop, truth};

use occ_syntax::{Expr, Guard, Name, Proc, Width};

/// A process taken apart, one step deep: its construct, with lists as slices.
#[derive(Clone, Copy)]
pub enum Form<'a> {
    /// SKIP
    Skip,
    /// STOP
    Stop,
    /// An assignment: its variables and their right sides.
    Assign(&'a [Name], &'a [Expr]),
    /// An input: the channel and the variable.
    Input(Name, Name),
    /// An output: the channel and the value.
    Output(Name, &'a Expr),
    /// SEQ
    Seq(&'a [Proc]),
    /// PAR
    Par(&'a [Proc]),
    /// IF
    If(&'a [(Expr, Proc)]),
    /// ALT
    Alt(&'a [(Guard, Proc)]),
    /// A declared variable: its name, its width and the process.
    Var(Name, Width, &'a Proc),
    /// A declared channel: its name, its width and the process.
    Chan(Name, Width, &'a Proc),
}

/// The construct of a process. It takes no memory.
#[tactic(auto, unfolding(crate::specs::tree))]
pub fn opened(part: &Proc) -> Form<'_>
    ensures { form_tree result ≡ tree part.now }
{
    match part {
        Proc::Skip => Form::Skip,
        Proc::Stop => Form::Stop,
        Proc::Assign { vars, values } => Form::Assign(vars.items(), values.items()),
        Proc::Input { chan, var } => Form::Input(*chan, *var),
        Proc::Output { chan, value } => Form::Output(*chan, value),
        Proc::Seq(parts) => Form::Seq(parts.items()),
        Proc::Par(parts) => Form::Par(parts.items()),
        Proc::If(choices) => Form::If(choices.items()),
        Proc::Alt(alternatives) => Form::Alt(alternatives.items()),
        Proc::Var { name, width, body } => Form::Var(*name, *width, body),
        Proc::Chan { name, width, body } => Form::Chan(*name, *width, body),
    }
}

/// The parts of a SEQ; None exactly where the process isn't one. It takes no memory.
pub fn parts_in_seq(part: &Proc) -> Option<&[Proc]>
    ensures { AreInSeq (tree part.now) result }
{
    match opened(part) {
        Form::Seq(parts) => Some(parts),
        _ => None,
    }
}

/// The parts of a PAR; None exactly where the process isn't one. It takes no memory.
pub fn parts_in_par(part: &Proc) -> Option<&[Proc]>
    ensures { AreInPar (tree part.now) result }
{
    match opened(part) {
        Form::Par(parts) => Some(parts),
        _ => None,
    }
}

/// The choices of an IF; None exactly where the process isn't one. It takes no memory.
pub fn choices_of(part: &Proc) -> Option<&[(Expr, Proc)]>
    ensures { AreChoices (tree part.now) result }
{
    match opened(part) {
        Form::If(choices) => Some(choices),
        _ => None,
    }
}

/// The branches of an ALT; None exactly where the process isn't one. It takes no memory.
pub fn branches_of(part: &Proc) -> Option<&[(Guard, Proc)]>
    ensures { AreBranches (tree part.now) result }
{
    match opened(part) {
        Form::Alt(alternatives) => Some(alternatives),
        _ => None,
    }
}

/// Whether a process is SKIP. It takes no memory.
pub fn is_skip(part: &Proc) -> bool
    ensures { IsTrue result ↔ (tree part.now ≡ skip) }
{
    match opened(part) {
        Form::Skip => true,
        _ => false,
    }
}

/// Whether a process is STOP. It takes no memory.
pub fn is_stop(part: &Proc) -> bool
    ensures { IsTrue result ↔ (tree part.now ≡ stop) }
{
    match opened(part) {
        Form::Stop => true,
        _ => false,
    }
}

/// Whether an expression is written as TRUE. It takes no memory.
pub fn is_truth(expr: &Expr) -> bool
    ensures { IsTrue result ↔ (exp expr.now ≡ truth true) }
{
    match expr {
        Expr::Bool(value) => *value,
        _ => false,
    }
}
