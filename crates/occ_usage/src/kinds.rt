ghost use Rattle.std.specs.Prelude.{◌≡◌, ◌∷◌, ◌++◌, [], None, Some, List, OnOk, length, take};
ghost use Rattle.occ_syntax.specs.occ_base.declared.names.Name.{Name};
ghost use Rattle.occ_syntax.specs.declared.scope.Kind.{Kind};
ghost use Rattle.occ_syntax.specs.Scopes.{environment, allows, variable_width as width_of_variable, channel_width as width_of_channel};

use indexmap::IndexMap;
use occ_syntax::{Dir, Kind, Memory, Name, Width};
use std::alloc::Global;
use std::marker::Model;

/// The names in scope with what they stand for, from outside in; no name stands twice.
#[derive(Drop)]
pub struct Kinds {
    kinds: IndexMap<Name, Kind>,
}

impl Model for Kinds {
    ghost use Rattle.std.specs.Prelude.{List};
    ghost use Rattle.occ_syntax.specs.occ_base.declared.names.Name.{Name};
    ghost use Rattle.occ_syntax.specs.declared.scope.Kind.{Kind};

    ghost Value = { List (Name × Kind) };

    ghost view = { λ kinds. kinds.kinds.entries };
}

impl Kinds {
    pub fn new(alloc: Global) -> Kinds
        ensures { result ≡ [] }
    {
        Kinds {
            kinds: IndexMap::new(alloc),
        }
    }

    /// Declares a name that isn't in scope.
    pub fn enter(&mut self, name: Name, kind: Kind) -> Result<(), Memory>
        requires { environment self.old name.0 ≡ None }
        ensures { OnOk result (self.new ≡ self.old ++ (name, kind) ∷ []) }
    {
        self.kinds.insert(name, kind)?;
        Ok(())
    }

    /// Declares a name, unless it is in scope.
    pub fn enter_first(&mut self, name: Name, kind: Kind) -> Result<(), Memory>
        ensures { OnOk result ((rest : List (Name × Kind)) → environment (self.new ++ rest) ≡ environment (self.old ++ (name, kind) ∷ rest)) }
    {
        match self.kind(name) {
            Some(_) => Ok(()),
            None => {
                self.enter(name, kind)?;
                Ok(())
            }
        }
    }

    pub fn len(&self) -> usize
        ensures { result ≡ length self.now }
    {
        self.kinds.len()
    }

    /// Keeps so many names, those that came first.
    pub fn truncate(&mut self, len: usize)
        ensures { self.new ≡ take len self.old }
    {
        self.kinds.truncate(len);
    }

    pub fn kind(&self, name: Name) -> Option<Kind>
        ensures { result ≡ environment self.now name.0 }
    {
        match self.kinds.get(&name) {
            Some(kind) => Some(*kind),
            None => None,
        }
    }

    pub fn variable_width(&self, name: Name) -> Option<Width>
        ensures { result ≡ width_of_variable (environment self.now) name.0 }
    {
        match self.kind(name) {
            Some(Kind::Var(width)) => Some(width),
            _ => None,
        }
    }

    pub fn channel_width(&self, name: Name) -> Option<Width>
        ensures { result ≡ width_of_channel (environment self.now) name.0 }
    {
        match self.kind(name) {
            Some(Kind::Chan(width, _)) => Some(width),
            _ => None,
        }
    }

    /// Whether a channel may be used in a direction.
    pub fn allows(&self, chan: Name, dir: Dir) -> bool
        ensures { result ≡ allows (environment self.now chan.0) dir }
    {
        match self.kind(chan) {
            Some(Kind::Chan(_, None)) => true,
            Some(Kind::Chan(_, Some(mark))) => mark == dir,
            _ => false,
        }
    }
}
