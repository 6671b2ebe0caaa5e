ghost use Rattle.std.specs.Prelude.{◌≡◌, ◌↔◌, IsTrue};
ghost use Rattle.occ_syntax.specs.View.{exp, tree, waiting};
ghost use Rattle.occ_law_scope.specs.Under.{IsBody, IsTakenOff, name_of, under};

use occ_law_shape::{Form, opened};
use occ_syntax::{Guard, Name, Proc, Width, same_expr, same_proc, same_wait};

/// A declaration without the process under it.
#[derive(Clone, Copy, PartialEq, Eq)]
pub(crate) enum Declaration {
    /// A variable of that width.
    Var(Name, Width),
    /// A channel of that width.
    Chan(Name, Width),
}

impl Declaration {
    /// The declared name.
    pub fn name(self) -> Name
        ensures { result.0 ≡ name_of self }
    {
        match self {
            Declaration::Var(name, _) | Declaration::Chan(name, _) => name,
        }
    }

    /// The process under this declaration; None exactly where a whole process doesn't begin with the declaration.
    pub fn body_of(self, whole: &Proc) -> Option<&Proc>
        ensures { IsBody self (tree whole.now) result }
    {
        match taken_off(whole) {
            Some((declaration, body)) => {
                if same_declaration(declaration, self) {
                    Some(body)
                } else {
                    None
                }
            }
            None => None,
        }
    }

    /// Whether a whole process is this declaration with that process under it.
    pub fn governs(self, whole: &Proc, body: &Proc) -> bool
        ensures { IsTrue result ↔ (tree whole.now ≡ under self (tree body.now)) }
    {
        match self.body_of(whole) {
            Some(inner) => same_proc(inner, body),
            None => false,
        }
    }

    /// Whether a branch is another one with its process under this declaration.
    pub fn governs_branch(self, whole: &(Guard, Proc), branch: &(Guard, Proc)) -> bool
        ensures { IsTrue result
            ↔ ((exp whole.now.0.condition ≡ exp branch.now.0.condition) × (waiting whole.now.0.wait ≡ waiting branch.now.0.wait)
            × (tree whole.now.1 ≡ under self (tree branch.now.1))) }
    {
        if !same_expr(&whole.0.condition, &branch.0.condition) {
            return false;
        }
        if !same_wait(&whole.0.wait, &branch.0.wait) {
            return false;
        }
        self.governs(&whole.1, &branch.1)
    }
}

/// The declaration with which a process begins, and the process under it; None exactly where it begins with none.
pub(crate) fn taken_off(part: &Proc) -> Option<(Declaration, &Proc)>
    ensures { IsTakenOff (tree part.now) result }
{
    match opened(part) {
        Form::Var(name, width, body) => Some((Declaration::Var(name, width), body)),
        Form::Chan(name, width, body) => Some((Declaration::Chan(name, width), body)),
        _ => None,
    }
}

fn same_declaration(left: Declaration, right: Declaration) -> bool
    ensures { IsTrue result ↔ (left ≡ right) }
{
    left == right
}
