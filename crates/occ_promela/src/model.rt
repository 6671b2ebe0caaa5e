//! A model in the making.

use crate::expression::greatest;
use crate::scope::{Entry, Scope};
use crate::text::{begin, put};
use occ_syntax::{Kind, Memory, Name, push_number};
use std::alloc::Global;

/// A model in the making: what stands in front, the processes of the parts of PARs so far, and what is in scope.
#[derive(Drop)]
pub(crate) struct Model {
    pub(crate) alloc: Global,
    pub(crate) scope: Scope,
    pub(crate) head: Vec<u8>,
    pub(crate) parts: Vec<u8>,
    /// How many numbers were given to variables, processes and counters.
    pub(crate) numbers: u64,
    /// How many channels there are; two of them nobody uses.
    pub(crate) channels: u64,
    /// How many variables are assigned at once, at most.
    pub(crate) most: usize,
}

impl Model {
    /// A new number.
    pub(crate) fn number(&mut self) -> u64 {
        self.numbers = self.numbers.saturating_add(1);
        self.numbers
    }

    /// Brings a variable or a channel into scope, and declares it in front.
    pub(crate) fn enter(&mut self, name: Name, kind: Kind) -> Result<(), Memory> {
        match kind {
            Kind::Var(_) => {
                let number = self.number();
                let entry = Entry { name, kind, number };
                put(&mut self.head, b"byte ")?;
                self.scope.put_entry(&mut self.head, entry)?;
                put(&mut self.head, b";\n")?;
                self.scope.entries.push(entry)?;
            }
            Kind::Chan(_, _) => {
                let number = self.channels;
                self.channels = self.channels.saturating_add(1);
                let entry = Entry { name, kind, number };
                put(&mut self.head, b"#define ")?;
                self.scope.put_entry(&mut self.head, entry)?;
                put(&mut self.head, b" ")?;
                push_number(&mut self.head, number)?;
                put(&mut self.head, b"\n")?;
                self.scope.entries.push(entry)?;
            }
        }
        Ok(())
    }

    /// Adds the choice of a variable's first value.
    pub(crate) fn put_choice(
        &self,
        text: &mut Vec<u8>,
        level: usize,
        name: Name,
        kind: Kind,
    ) -> Result<(), Memory> {
        if let Kind::Var(_) = kind {
            begin(text, level)?;
            put(text, b"atomic { select(")?;
            self.scope.put_name(text, name)?;
            put(text, b" : 0 .. ")?;
            push_number(text, greatest(kind.bits()))?;
            put(text, b") };\n")?;
        }
        Ok(())
    }
}
