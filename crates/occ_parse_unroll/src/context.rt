ghost use Rattle.std.specs.Prelude.{◌≡◌, ◌<◌, ◌∷◌, [], drop, length, unwrap_or, OnOk};
ghost use Rattle.occ_parse_rules.specs.Names.{index_name, is_counter as is_counter_sort, name_counts};
ghost use Rattle.occ_parse_rules.specs.Places.{counter_of as counter_entry, element_at, sort_at, sort_of_place};
ghost use Rattle.occ_parse_rules.specs.Types.{channel_here, sort_here, variable_here};
ghost use Rattle.occ_parse_unroll.specs.Present.{present, values_of};

use crate::values::Values;
use occ_parse_forms::{Index, Item, Times};
use occ_parse_rules::Sort;
use occ_parse_scopes::{Scopes, counter_of};
use occ_syntax::{Memory, Name, Width};
use std::alloc::Global;

/// Where a line stands: what is in scope there, and the values of the indices.
#[derive(Debug, Drop)]
pub struct Context {
    pub scopes: Scopes,
    pub values: Values,
}

impl Context {
    /// Nothing is in scope. It takes no memory.
    pub fn new(alloc: Global) -> Context
        ensures scopes { result.scopes ≡ [] }
        ensures values { result.values ≡ [] }
    {
        Context {
            scopes: Scopes::new(alloc),
            values: Values::new(alloc),
        }
    }

    /// Goes into a replicator's copy of that number.
    pub fn enter(&mut self, times: Times, copy: u8) -> Result<(), Memory>
        ensures scopes { OnOk result (self.new.scopes ≡ counter_entry times ∷ self.old.scopes) }
        ensures values { OnOk result (self.new.values ≡ present times copy ∷ self.old.values) }
    {
        self.scopes.declare(counter_of(times))?;
        self.values.enter(times, copy)
    }

    /// Goes out of the innermost copy. It takes no memory.
    pub fn leave(&mut self)
        requires { 0 < length self.old.scopes }
        ensures scopes { self.new.scopes ≡ drop 1 self.old.scopes }
        ensures values { self.new.values ≡ drop 1 self.old.values }
    {
        let depth = self.scopes.depth();
        self.scopes.close(depth - 1);
        self.values.leave();
    }

    /// Whether an index counts as one: it is a numeral, or its name is a replicator's index.
    fn counts(&self, index: Index) -> bool
        ensures { result ≡ name_counts self.now.scopes (index_name index) }
    {
        match index {
            Index::Number(_) => true,
            Index::Name(i) => self.is_counter(i),
            Index::Plus(i, _) => self.is_counter(i),
            Index::Minus(i, _) => self.is_counter(i),
        }
    }

    fn is_counter(&self, name: Name) -> bool
        ensures { result ≡ is_counter_sort (sort_at self.now.scopes name.0 None) }
    {
        match self.scopes.sort(name, None) {
            Some(Sort::Counter { .. }) => true,
            _ => false,
        }
    }

    /// What an item stands for. It takes no memory.
    pub fn sort(&self, item: Item) -> Option<Sort>
        ensures { result ≡ sort_here self.now.scopes (values_of self.now.values) item }
    {
        match item.index {
            None => self.scopes.sort(item.name, None),
            Some(index) => {
                if self.counts(index) {
                    self.element(item.name, self.values.at(index))
                } else {
                    None
                }
            }
        }
    }

    fn element(&self, name: Name, element: Option<u16>) -> Option<Sort>
        ensures { result ≡ sort_of_place self.now.scopes (element_at name.0 element) }
    {
        match element {
            Some(k) => self.scopes.sort(name, Some(k)),
            None => None,
        }
    }

    /// The width of the variable that an item is, or BOOL where it is none.
    pub fn variable_width(&self, item: Item) -> Width
        ensures { result ≡ unwrap_or (variable_here self.now.scopes (values_of self.now.values) item) Width.Bool }
    {
        match self.sort(item) {
            Some(Sort::Variable(width)) => width,
            _ => Width::Bool,
        }
    }

    /// The width of the channel that an item is, or BOOL where it is none.
    pub fn channel_width(&self, item: Item) -> Width
        ensures { result ≡ unwrap_or (channel_here self.now.scopes (values_of self.now.values) item) Width.Bool }
    {
        match self.sort(item) {
            Some(Sort::Channel(width, _)) => width,
            _ => Width::Bool,
        }
    }
}
