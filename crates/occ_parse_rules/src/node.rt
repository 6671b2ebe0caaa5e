ghost use Rattle.std.specs.Prelude.{◌≡◌, [], ◌∷◌, ◌++◌, OnOk, OnErr};
ghost use Rattle.occ_parse_rules.specs.Forest.{IsLine, IsSeen, in_nodes};

use occ_meaning::Memory;
use occ_parse_forms::Form;
use std::alloc::Global;

/// A line with the lines below it: those one level deeper up to the next line at its own level or a smaller one.
#[derive(Debug, Drop)]
#[cycle(node)]
pub struct Node {
    line: u32,
    form: Form,
    below: Nodes,
}

/// Lines one below another at one level.
#[derive(Debug, Drop)]
#[cycle(node)]
pub struct Nodes {
    list: Vec<Node>,
}

#[tactic(auto, unfolding(crate::specs::Forest::in_nodes, crate::specs::Forest::grafted))]
impl Node {
    /// The line with that number of the text, counted from 1, what it says, and the lines below it.
    pub fn new(line: u32, form: Form, below: Nodes) -> Node
        ensures { IsLine result line form (in_nodes below) }
    {
        Node { line, form, below }
    }

    /// The line's number, what it says, and the lines below it.
    pub fn seen(&self) -> (u32, &Form, &[Node])
        ensures { IsSeen self.now result }
    {
        (self.line, &self.form, self.below.items())
    }
}

#[tactic(auto, unfolding(crate::specs::Forest::in_nodes))]
impl Nodes {
    /// No lines. It takes no memory.
    pub fn new(alloc: Global) -> Nodes
        ensures { in_nodes result ≡ [] }
    {
        Nodes {
            list: Vec::new(alloc),
        }
    }

    /// Adds a line at the end. Where memory runs out, the list is as before.
    pub fn push(&mut self, item: Node) -> Result<(), Memory>
        ensures ok { OnOk result (in_nodes self.new ≡ in_nodes self.old ++ item ∷ []) }
        ensures err { OnErr result (in_nodes self.new ≡ in_nodes self.old) }
    {
        self.list.push(item)?;
        Ok(())
    }

    /// The lines in order. It takes no memory.
    pub fn items(&self) -> &[Node]
        ensures { result.now ≡ in_nodes self.now }
    {
        self.list.as_slice()
    }
}
