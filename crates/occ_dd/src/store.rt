ghost use Rattle.std.specs.Prelude.{◌≡◌, ℕ, ◌<◌, ◌≤◌, ◌+◌, ◌^◌, ◌==◌, IfOk, IfSome, true, false, not, ◌&&◌, ◌||◌, if◌then◌else◌, length, unwrap_or};
ghost use Rattle.std.specs.Int.{bit_at};
ghost use Rattle.occ_dd.specs.Assignment.{turned, with_bit};
ghost use Rattle.occ_dd.specs.Diagram.{depth_of, label_of, IsSplit};
ghost use Rattle.occ_dd.specs.Table.{nodes_of};
ghost use Rattle.occ_dd.specs.Choices.{AreChoices, AreUnions, IsChoice, IsUnion, IsTop};

mod reads;
mod truth;

use crate::{Call, Memo, Node, SetId, Table};
use occ_base::Memory;
use std::alloc::Global;

/// Sets of assignments of 64 bits, known by their numbers. An assignment is a u64 whose k-th binary
/// digit is bit k. One set has one number, and a number keeps its set whatever is made later, also
/// where memory runs out. The sets are ordered reduced decision diagrams with shared nodes, and the
/// results of operations are remembered by the numbers of their arguments (Bryant 1986).
#[derive(Drop)]
pub struct Store {
    table: Table<bool>,
    empty: usize,
    full: usize,
    choices: Memo,
    unions: Memo,
    ghost empty_known: { empty < length (nodes_of table) },
    ghost full_known: { full < length (nodes_of table) },
    ghost empty_is: { unwrap_or (label_of (nodes_of table) empty) true ≡ false },
    ghost full_is: { unwrap_or (label_of (nodes_of table) full) false ≡ true },
    ghost choices_right: { AreChoices (nodes_of table) full choices },
    ghost unions_right: { AreUnions (nodes_of table) full unions },
}

impl Store {
    ghost use Rattle.occ_dd.specs.Store.{has, sets_of, IsKnown, IsSet, Keeps};
    ghost use Rattle.occ_dd.specs.Grows.{Grows};

    /// A store with the empty and the full set.
    pub fn new(alloc: Global) -> Result<Store, Memory>
        ensures { IfOk result (λ s. sets_of s ≡ 2) }
    {
        let mut table = Table::new(alloc);
        let empty = table.leaf(false)?;
        let full = table.leaf(true)?;
        Ok(Store {
            table,
            empty,
            full,
            choices: Memo::new(alloc),
            unions: Memo::new(alloc),
        })
    }

    /// Gives back the room of the results that are remembered. All sets stay.
    pub fn forget(&mut self, alloc: Global)
        ensures { Keeps self.old self.new }
    {
        self.choices = Memo::new(alloc);
        self.unions = Memo::new(alloc);
    }

    /// How many sets the store has given numbers to. It takes no memory.
    pub fn sets(&self) -> usize
        ensures { result ≡ sets_of self.now }
    {
        self.table.size()
    }

    /// The set without members. It takes no memory.
    pub fn empty(&self) -> SetId
        ensures { IsSet self.now result (λ x. false) }
    {
        SetId(self.empty)
    }

    /// The set of all assignments. It takes no memory.
    pub fn full(&self) -> SetId
        ensures { IsSet self.now result (λ x. true) }
    {
        SetId(self.full)
    }

    /// The set of the assignments in which a bit is 1.
    pub fn bit(&mut self, bit: u32) -> Result<SetId, Memory>
        requires { bit < 64 }
        ensures keeps { Keeps self.old self.new }
        ensures set { IfOk result (λ r. IsSet self.new r (λ x. bit_at x bit == 1)) }
    {
        Ok(SetId(self.branch(bit, self.empty, self.full)?))
    }

    /// The assignments that are no members of the set.
    pub fn not(&mut self, a: SetId) -> Result<SetId, Memory>
        requires { IsKnown self.old a }
        ensures keeps { Keeps self.old self.new }
        ensures set { IfOk result (λ r. IsSet self.new r (λ x. not (has self.old a x))) }
    {
        Ok(SetId(self.choose(a.0, self.empty, self.full)?))
    }

    /// The members of both sets.
    pub fn and(&mut self, a: SetId, b: SetId) -> Result<SetId, Memory>
        requires a { IsKnown self.old a }
        requires b { IsKnown self.old b }
        ensures keeps { Keeps self.old self.new }
        ensures set { IfOk result (λ r. IsSet self.new r (λ x. has self.old a x && has self.old b x)) }
    {
        Ok(SetId(self.choose(a.0, b.0, self.empty)?))
    }

    /// The members of either set.
    pub fn or(&mut self, a: SetId, b: SetId) -> Result<SetId, Memory>
        requires a { IsKnown self.old a }
        requires b { IsKnown self.old b }
        ensures keeps { Keeps self.old self.new }
        ensures set { IfOk result (λ r. IsSet self.new r (λ x. has self.old a x || has self.old b x)) }
    {
        Ok(SetId(self.choose(a.0, self.full, b.0)?))
    }

    /// The members of `b` that are members of `a`, and those of `c` that aren't.
    pub fn ite(&mut self, a: SetId, b: SetId, c: SetId) -> Result<SetId, Memory>
        requires a { IsKnown self.old a }
        requires b { IsKnown self.old b }
        requires c { IsKnown self.old c }
        ensures keeps { Keeps self.old self.new }
        ensures set { IfOk result (λ r. IsSet self.new r
            (λ x. if has self.old a x then has self.old b x else has self.old c x)) }
    {
        Ok(SetId(self.choose(a.0, b.0, c.0)?))
    }

    /// The assignments that are members once the bit is made 0 or is made 1.
    pub fn exists(&mut self, a: SetId, bit: u32) -> Result<SetId, Memory>
        requires bit { bit < 64 }
        requires a { IsKnown self.old a }
        ensures keeps { Keeps self.old self.new }
        ensures set { IfOk result (λ r. IsSet self.new r
            (λ x. has self.old a (with_bit x bit 0) || has self.old a (with_bit x bit 1))) }
    {
        Ok(SetId(self.unite(a.0, bit)?))
    }

    /// The members with one bit of each turned.
    pub fn flip(&mut self, a: SetId, bit: u32) -> Result<SetId, Memory>
        requires bit { bit < 64 }
        requires a { IsKnown self.old a }
        ensures keeps { Keeps self.old self.new }
        ensures set { IfOk result (λ r. IsSet self.new r (λ x. has self.old a (turned x bit))) }
    {
        Ok(SetId(self.table.flip(a.0, bit)?))
    }

    // A node that chooses between two functions of lower bits.
    fn branch(&mut self, bit: u32, low: usize, high: usize) -> Result<usize, Memory>
        requires bit { bit < 64 }
        requires low { (low < length (nodes_of self.old.table)) × (depth_of (nodes_of self.old.table) low ≤ bit) }
        requires high { (high < length (nodes_of self.old.table)) × (depth_of (nodes_of self.old.table) high ≤ bit) }
        ensures grows { Grows self.old self.new }
        ensures split { IfOk result (λ r. IsSplit (nodes_of self.new.table) r bit low high) }
    {
        self.table.branch(bit, low, high)
    }

    // The greatest bit that matters to one of three functions, of which the first isn't constant.
    fn top_bit(&self, test: usize, yes: usize, no: usize) -> u32
        requires test { test < length (nodes_of self.now.table) }
        requires yes { yes < length (nodes_of self.now.table) }
        requires no { no < length (nodes_of self.now.table) }
        requires open { 0 < depth_of (nodes_of self.now.table) test }
        ensures { IsTop (nodes_of self.now.table) test yes no result }
    {
        let depth = self.table.depth(test);
        depth.max(self.table.depth(yes)).max(self.table.depth(no)) - 1
    }

    // If-then-else of three functions.
    fn choose(&mut self, test: usize, yes: usize, no: usize) -> Result<usize, Memory>
        requires test { test < length (nodes_of self.old.table) }
        requires yes { yes < length (nodes_of self.old.table) }
        requires no { no < length (nodes_of self.old.table) }
        ensures grows { Grows self.old self.new }
        ensures chosen { IfOk result (λ r. IsChoice (nodes_of self.new.table) self.new.full test yes no r) }
    {
        if test == self.full || yes == no {
            return Ok(yes);
        }
        if test == self.empty {
            return Ok(no);
        }
        if yes == self.full && no == self.empty {
            return Ok(test);
        }
        let call = Call {
            first: test,
            second: yes,
            third: no,
        };
        if let Some(chosen) = self.choices.get(call) {
            return Ok(chosen);
        }
        let bit = self.top_bit(test, yes, no);
        let (test_low, test_high) = self.table.parts(test, bit);
        let (yes_low, yes_high) = self.table.parts(yes, bit);
        let (no_low, no_high) = self.table.parts(no, bit);
        let low = self.choose(test_low, yes_low, no_low)?;
        let high = self.choose(test_high, yes_high, no_high)?;
        let chosen = self.branch(bit, low, high)?;
        self.choices.insert(call, chosen)?;
        Ok(chosen)
    }

    // The union of the two parts of a set at a bit.
    fn unite(&mut self, a: usize, bit: u32) -> Result<usize, Memory>
        requires bit { bit < 64 }
        requires known { a < length (nodes_of self.old.table) }
        ensures grows { Grows self.old self.new }
        ensures united { IfOk result (λ r. IsUnion (nodes_of self.new.table) self.new.full a bit r) }
    {
        let branch = match self.table.node(a) {
            Node::Branch(branch) if branch.bit >= bit => branch,
            _ => return Ok(a),
        };
        if branch.bit == bit {
            return self.choose(branch.low, self.full, branch.high);
        }
        let call = Call {
            first: a,
            second: bit as usize,
            third: 0,
        };
        if let Some(united) = self.unions.get(call) {
            return Ok(united);
        }
        let low = self.unite(branch.low, bit)?;
        let high = self.unite(branch.high, bit)?;
        let united = self.branch(branch.bit, low, high)?;
        self.unions.insert(call, united)?;
        Ok(united)
    }
}
