ghost use Rattle.std.specs.Prelude.{◌≡◌};
ghost use Rattle.occ_run_steps.specs.Control.{is_done};
ghost use Rattle.occ_run.specs.View.{control as left};

use occ_syntax::{Expr, Name, Proc, Width};
use std::rc::Rc;

/// What is left to be done of a program. Processes are borrowed from the program and never copied.
#[derive(Drop)]
pub enum Control<'a> {
    /// Nothing.
    Done,
    /// A SKIP that isn't begun: what is left behind a guard that stands for an input or an output.
    Ready,
    /// A STOP that no process of the program is: an IF without a true choice.
    Stuck,
    /// A process that isn't begun.
    Unbegun(&'a Proc),
    /// An input, as the ALT of that one guard.
    Input {
        chan: Name,
        var: Name,
    },
    /// An output, as the ALT of that one guard.
    Output {
        chan: Name,
        value: &'a Expr,
    },
    /// One control, and then processes in turn.
    After(Rc<Control<'a>>, &'a [Proc]),
    /// Controls at once.
    Both(Vec<Rc<Control<'a>>>),
    /// The body of a VAR, with the present value of the variable.
    Local {
        name: Name,
        width: Width,
        value: u8,
        body: Rc<Control<'a>>,
    },
    /// The body of CHANs in a row, of which there may be thousands, the first outermost.
    Channels {
        first: (Name, Width),
        more: Vec<(Name, Width)>,
        body: Rc<Control<'a>>,
    },
}

/// Whether nothing is left to be done.
pub fn is_over(control: &Control) -> bool
    ensures { result ≡ is_done (left control.now) }
{
    match control {
        Control::Done => true,
        Control::Ready | Control::Stuck | Control::Unbegun(_) => false,
        Control::Input { .. } | Control::Output { .. } => false,
        Control::After(_, _) | Control::Both(_) => false,
        Control::Local { .. } | Control::Channels { .. } => false,
    }
}
