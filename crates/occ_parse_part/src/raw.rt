ghost use Rattle.std.specs.Prelude.{◌≡◌, true};
ghost use Rattle.occ_parse_rules.specs.Forest.{forest, in_nodes};
ghost use Rattle.occ_parse.specs.occ_parse_layout.Whole.{every_line, is_single};
ghost use Rattle.occ_parse_part.specs.Parts.{IsGood};
ghost use Rattle.occ_parse_part.specs.Seen.{seen};

use crate::elements::Elements;
use occ_parse_rules::Nodes;

/// A part as it is read: a process whose numerals have no width yet, with the names of the elements of its arrays. What is seen
/// of it is the forest of its lines, and the numbers of the elements (specs/Shown.antt).
#[derive(Drop)]
pub struct Raw {
    pub(crate) nodes: Nodes,
    pub(crate) elements: Elements,
    ghost single: { every_line is_single (forest (in_nodes nodes)) ≡ true },
    ghost good: { ∥ IsGood (forest (in_nodes nodes)) (seen elements) ∥₁ },
}
