ghost use Rattle.std.specs.Prelude.{◌≡◌, ℕ, ◌<◌, ◌≤◌, ◌+◌, ◌^◌, IfOk, slice_get, Some, length, [], List};
ghost use Rattle.occ_dd.specs.Diagram.{IsDiagram, AreTurned, Interns, Keeps, IsSplit, IsPart, IsTurned, IsCanonical, depth_of, end_of, label_of};
ghost use Rattle.occ_dd.specs.declared.node.Node.TheVariants.{Leaf};

use crate::{Call, Decision, Label, Memo, Node};
use indexmap::IndexSet;
use occ_base::Memory;
use std::alloc::Global;
use std::hash::Hash;

/// A table of diagrams that share their nodes. A number is the place of a node, and the function of
/// that number is what the node leads to at each assignment, a u64 whose k-th binary digit is bit k.
/// Bits decrease on the way from a node to a terminal, the sides of a branch differ, and no node
/// stands twice, so equal functions have equal numbers (Bryant 1986).
#[derive(Drop)]
pub struct Table<T: Eq + Hash> {
    nodes: IndexSet<Node<T>>,
    flips: Memo,
    pub ghost diagram: { IsDiagram nodes.keys },
    ghost flips_right: { AreTurned nodes.keys flips },
}

// The place of a node among the nodes, where it is put last if it isn't there.
fn intern<T: Label>(nodes: &mut IndexSet<Node<T>>, node: Node<T>) -> Result<usize, Memory>
    ensures nodes { Interns nodes.old.keys nodes.new.keys node }
    ensures place { IfOk result (λ r. slice_get nodes.new.keys r ≡ Some node) }
{
    let (place, _) = nodes.insert_full(node)?;
    Ok(place)
}

impl<T: Label> Table<T> {
    ghost use Rattle.occ_dd.specs.Table.{nodes_of};

    /// A table without nodes. It takes no memory.
    pub fn new(alloc: Global) -> Table<T>
        ensures { nodes_of result ≡ [] }
    {
        Table {
            nodes: IndexSet::new(alloc),
            flips: Memo::new(alloc),
        }
    }

    /// How many nodes the table has. Each lower number is that of a function. It takes no memory.
    pub fn size(&self) -> usize
        ensures { result ≡ length (nodes_of self.now) }
    {
        self.nodes.len()
    }

    /// The constant function of a label.
    pub fn leaf(&mut self, label: T) -> Result<usize, Memory>
        ensures keeps { Keeps (nodes_of self.old) (nodes_of self.new) }
        ensures growth { length (nodes_of self.new) ≤ length (nodes_of self.old) + 1 }
        ensures leaf { IfOk result (λ r. slice_get (nodes_of self.new) r ≡ Some (Leaf label)) }
    {
        intern(&mut self.nodes, Node::Leaf(label))
    }

    /// The function that is `low` where the bit is 0 and `high` where it is 1, two functions of lower
    /// bits alone.
    pub fn branch(&mut self, bit: u32, low: usize, high: usize) -> Result<usize, Memory>
        requires bit { bit < 64 }
        requires low { (low < length (nodes_of self.old)) × (depth_of (nodes_of self.old) low ≤ bit) }
        requires high { (high < length (nodes_of self.old)) × (depth_of (nodes_of self.old) high ≤ bit) }
        ensures keeps { Keeps (nodes_of self.old) (nodes_of self.new) }
        ensures split { IfOk result (λ r. IsSplit (nodes_of self.new) r bit low high) }
    {
        if low == high {
            return Ok(low);
        }
        intern(&mut self.nodes, Node::Branch(Decision { bit, low, high }))
    }

    /// The node of a number.
    pub fn node(&self, id: usize) -> Node<T>
        requires { id < length (nodes_of self.now) }
        ensures { slice_get (nodes_of self.now) id ≡ Some result }
    {
        match self.nodes.get_index(id) {
            Some(node) => *node,
            None => unreachable!(),
        }
    }

    /// The parts of a function at a bit: what it is where the bit is 0, and where it is 1, as
    /// functions of lower bits. No higher bit may matter to it.
    pub fn parts(&self, id: usize, bit: u32) -> (usize, usize)
        requires known { id < length (nodes_of self.now) }
        requires top { depth_of (nodes_of self.now) id ≤ bit + 1 }
        ensures low { IsPart (nodes_of self.now) result.0 id bit 0 }
        ensures high { IsPart (nodes_of self.now) result.1 id bit 1 }
    {
        match self.node(id) {
            Node::Branch(branch) if branch.bit == bit => (branch.low, branch.high),
            _ => (id, id),
        }
    }

    /// One more than the greatest bit that matters to a function, or 0 where none does.
    pub fn depth(&self, id: usize) -> u32
        requires { id < length (nodes_of self.now) }
        ensures depth { result ≡ depth_of (nodes_of self.now) id }
        ensures bound { result ≤ 64 }
    {
        match self.node(id) {
            Node::Leaf(_) => 0,
            Node::Branch(branch) => branch.bit + 1,
        }
    }

    /// The label of a function at an assignment.
    pub fn label(&self, id: usize, bits: u64) -> T
        requires { id < length (nodes_of self.now) }
        ensures { label_of (nodes_of self.now) (end_of (nodes_of self.now) id bits) ≡ Some result }
    {
        let mut at = id;
        loop {
            match self.node(at) {
                Node::Leaf(label) => return label,
                Node::Branch(branch) if (bits >> branch.bit) & 1 == 1 => at = branch.high,
                Node::Branch(branch) => at = branch.low,
            }
        }
    }

    /// The function that is at each assignment what this one is where one bit of it is turned.
    pub fn flip(&mut self, id: usize, bit: u32) -> Result<usize, Memory>
        requires bit { bit < 64 }
        requires known { id < length (nodes_of self.old) }
        ensures keeps { Keeps (nodes_of self.old) (nodes_of self.new) }
        ensures turned { IfOk result (λ r. IsTurned (nodes_of self.new) id bit r) }
    {
        let branch = match self.node(id) {
            Node::Branch(branch) if branch.bit >= bit => branch,
            _ => return Ok(id),
        };
        if branch.bit == bit {
            return self.branch(bit, branch.high, branch.low);
        }
        let call = Call {
            first: id,
            second: bit as usize,
            third: 0,
        };
        if let Some(turned) = self.flips.get(call) {
            return Ok(turned);
        }
        let low = self.flip(branch.low, bit)?;
        let high = self.flip(branch.high, bit)?;
        let turned = self.branch(branch.bit, low, high)?;
        self.flips.insert(call, turned)?;
        Ok(turned)
    }
}
