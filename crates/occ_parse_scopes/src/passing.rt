ghost use Rattle.std.specs.Prelude.{◌≡◌, ◌≤◌, ◌-◌, ◌∷◌, length, drop, OnOk};
ghost use Rattle.occ_parse_forms.specs.Shape.{shape};
ghost use Rattle.occ_parse_rules.specs.Places.{declared_in, entries_of, entry_of, sort_of, param_entries, counter_of};
ghost use Rattle.occ_parse_rules.specs.Judging.{inside, behind};

use crate::Scopes;
use occ_parse_forms::{Declared, Form, Param, Times};
use occ_parse_rules::{Entry, Sort};
use occ_syntax::{Kind, Memory};

/// What a name of that kind stands for. It takes no memory.
pub fn sort_of(kind: Kind) -> Sort
    ensures { result ≡ sort_of kind }
{
    match kind {
        Kind::Var(width) => Sort::Variable(width),
        Kind::Chan(width, mark) => Sort::Channel(width, mark),
    }
}

/// A declaration of that kind. It takes no memory.
pub fn entry_of(kind: Kind, declared: Declared) -> Entry
    ensures { result ≡ entry_of kind declared }
{
    Entry {
        declared,
        sort: sort_of(kind),
    }
}

/// The declaration of a replicator's index. It takes no memory.
pub fn counter_of(times: Times) -> Entry
    ensures { result ≡ counter_of times }
{
    Entry {
        declared: Declared::Plain(times.index),
        sort: Sort::Counter {
            base: times.base,
            count: times.count,
        },
    }
}

impl Scopes {
    /// Brings declarations of one kind into scope, in order. Where memory runs out, some of them are.
    pub fn declare_all(&mut self, kind: Kind, declared: &[Declared]) -> Result<(), Memory>
        ensures { OnOk result (self.new ≡ declared_in self.old (entries_of kind declared.now)) }
    {
        for one in declared {
            self.declare(entry_of(kind, *one))?;
        }
        Ok(())
    }

    /// Brings parameters into scope, in order. Where memory runs out, some of them are.
    pub fn declare_params(&mut self, params: &[Param]) -> Result<(), Memory>
        ensures { OnOk result (self.new ≡ declared_in self.old (param_entries params.now)) }
    {
        for param in params {
            self.declare(entry_of(param.kind, param.declared))?;
        }
        Ok(())
    }

    /// Goes from a line to the lines below it: a header's parameters and a replicator's index come into scope.
    /// Where memory runs out, some of them are.
    pub fn enter(&mut self, form: &Form) -> Result<(), Memory>
        ensures { OnOk result (self.new ≡ inside self.old (shape form.now)) }
    {
        match form {
            Form::Header { params, .. } => self.declare_params(params.items()),
            Form::Group {
                times: Some(times),
                ..
            } => self.declare(counter_of(*times)),
            _ => Ok(()),
        }
    }

    /// Goes from a line to the next one at its level: what it declares comes into scope, and behind any other line only
    /// the outer declarations are left, so many. Where memory runs out, some of what it declares is in scope.
    pub fn pass(&mut self, form: &Form, outer: usize) -> Result<(), Memory>
        requires { outer ≤ length self.old }
        ensures { OnOk result
            (self.new
            ≡ behind (drop (length self.old - outer) self.old) self.old (shape form.now)) }
    {
        match form {
            Form::Declare(declaration) => {
                self.declare_all(declaration.kind, declaration.declared.items())
            }
            _ => {
                self.close(outer);
                Ok(())
            }
        }
    }
}
