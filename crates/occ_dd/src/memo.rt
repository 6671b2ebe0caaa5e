ghost use Rattle.std.specs.Prelude.{◌≡◌, None};

use occ_base::Memory;
use std::alloc::Global;
use std::collections::HashMap;

/// The arguments of a call whose result is remembered: numbers of nodes, of bits or of sets.
#[derive(Clone, Copy, Debug, PartialEq, Eq, Hash)]
pub struct Call {
    pub first: usize,
    pub second: usize,
    pub third: usize,
}

/// A memo table: the results of calls, by their arguments.
#[derive(Drop)]
pub struct Memo {
    results: HashMap<Call, usize>,
}

impl Memo {
    ghost use Rattle.occ_dd.specs.Memo.{recalled, Learns};
    ghost use Rattle.occ_dd.specs.declared.memo.Call.{Call};

    /// A table without results. It takes no memory.
    pub fn new(alloc: Global) -> Memo
        ensures { (k : Call) → recalled result k ≡ None }
    {
        Memo {
            results: HashMap::new(alloc),
        }
    }

    /// The result that is remembered of a call.
    pub fn get(&self, call: Call) -> Option<usize>
        ensures { result ≡ recalled self.now call }
    {
        self.results.get(&call).copied()
    }

    /// Remembers a result. Where memory runs out, the table is as before.
    pub fn insert(&mut self, call: Call, value: usize) -> Result<(), Memory>
        ensures { Learns self.old self.new call value }
    {
        self.results.insert(call, value)?;
        Ok(())
    }
}
