ghost use Rattle.std.specs.Prelude.{◌≡◌, ℕ, ◌<◌, ◌≤◌, ◌^◌, IfOk, MatchOption, length};
ghost use Rattle.occ_dd.specs.Table.{nodes_of};

use crate::{Node, SetId, Store};
use occ_base::Memory;

impl Store {
    ghost use Rattle.occ_dd.specs.Store.{has, IsKnown, Keeps, IsEmpty, IsLeastMember, IsConstant, Splits, IsSubsetAnswer};
    ghost use Rattle.occ_dd.specs.Grows.{IsLeastOf};

    /// Whether an assignment is a member of the set. It takes no memory.
    pub fn has(&self, a: SetId, bits: u64) -> bool
        requires { IsKnown self.now a }
        ensures { result ≡ has self.now a bits }
    {
        self.table.label(a.0, bits)
    }

    /// Whether each member of `a` is a member of `b`.
    pub fn subset(&mut self, a: SetId, b: SetId) -> Result<bool, Memory>
        requires a { IsKnown self.old a }
        requires b { IsKnown self.old b }
        ensures keeps { Keeps self.old self.new }
        ensures subset { IfOk result (IsSubsetAnswer self.old a b) }
    {
        Ok(self.choose(a.0, b.0, self.full)? == self.full)
    }

    /// The greatest bit on which membership depends, with the set of the assignments that are members
    /// once that bit is made 0 and the set of those that are members once it is made 1. None where the
    /// set is empty or full. It takes no memory.
    pub fn split(&self, a: SetId) -> Option<(u32, SetId, SetId)>
        requires { IsKnown self.now a }
        ensures { MatchOption result (IsConstant self.now a) (λ parts. Splits self.now a parts.0 parts.1 parts.2) }
    {
        match self.table.node(a.0) {
            Node::Leaf(_) => None,
            Node::Branch(branch) => Some((branch.bit, SetId(branch.low), SetId(branch.high))),
        }
    }

    /// The least member, or None where the set is empty. It takes no memory.
    pub fn pick(&self, a: SetId) -> Option<u64>
        requires { IsKnown self.now a }
        ensures { MatchOption result (IsEmpty self.now a) (IsLeastMember self.now a) }
    {
        if a.0 == self.empty {
            None
        } else {
            Some(self.least(a.0))
        }
    }

    // The least member of a set that isn't empty: the low side goes before the high side.
    fn least(&self, id: usize) -> u64
        requires known { id < length (nodes_of self.now.table) }
        requires filled { id ≡ self.now.empty → ⊥ }
        ensures { IsLeastOf self.now id result }
    {
        match self.table.node(id) {
            Node::Leaf(_) => 0,
            Node::Branch(branch) if branch.low == self.empty => {
                (1 << branch.bit) + self.least(branch.high)
            }
            Node::Branch(branch) => self.least(branch.low),
        }
    }
}
