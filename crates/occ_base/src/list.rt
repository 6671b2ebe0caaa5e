ghost use Rattle.std.specs.Prelude.{◌≡◌, [], ◌∷◌, ◌++◌, OnOk, OnErr, IfOk, IsOk};

use crate::Memory;
use std::alloc::Global;
use std::marker::Model;

/// A list that grows at its end. It keeps its allocator.
#[derive(Debug, Drop)]
pub struct List<T> {
    items: Vec<T>,
}

impl<T> Model for List<T> {
    ghost use Rattle.std.specs.Prelude.{List};

    ghost Value = { List T };

    ghost view = { λ list. list.items.items };
}

impl<T> List<T> {
    /// The empty list. It takes no memory.
    pub fn new(alloc: Global) -> List<T>
        ensures { result ≡ [] }
    {
        List {
            items: Vec::new(alloc),
        }
    }

    // Makes room for one more item where there is none. A short list has room for one, two or four items, since many lists have so few.
    fn make_room(&mut self) -> Result<(), Memory>
        ensures { self.new ≡ self.old }
    {
        let len = self.items.len();
        if 4 <= len || len < self.items.capacity() {
            return Ok(());
        }
        self.items.reserve_exact(len.max(1))?;
        Ok(())
    }

    /// Adds an item at the end. Where memory runs out, the list is as before.
    pub fn push(&mut self, item: T) -> Result<(), Memory>
    where
        T: Drop,
        ensures ok { OnOk result (self.new ≡ self.old ++ item ∷ []) }
        ensures err { OnErr result (self.new ≡ self.old) }
    {
        self.make_room()?;
        self.items.push(item)?;
        Ok(())
    }

    /// The items in order. It takes no memory.
    pub fn items(&self) -> &[T]
        ensures { result.now ≡ self.now }
    {
        self.items.as_slice()
    }
}

impl<T: Copy> List<T> {
    /// The list of the same items.
    pub fn copy(&self, alloc: Global) -> Result<List<T>, Memory>
        ensures { IfOk result (λ list. list ≡ self.now) }
    {
        Ok(List {
            items: Vec::from_slice(alloc, self.items.as_slice())?,
        })
    }
}
