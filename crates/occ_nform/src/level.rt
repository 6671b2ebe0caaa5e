ghost use Rattle.std.specs.Prelude.{◌≡◌};
ghost use Rattle.std.specs.Ordering.{nat_cmp};
ghost use Rattle.std.specs.Cmp.Lexicographic.{slice_cmp};
ghost use Rattle.occ_nform.specs.Numbering.{AreSorted};

use occ_nform_rows::{NodeId, TableRow};
use std::cmp::Ordering;

// The row of a node, with no number yet, and its text.
#[derive(Drop)]
pub(crate) struct Draft {
    pub node: NodeId,
    pub row: TableRow,
    pub text: Vec<u8>,
}

// Drafts by the bytes of their texts.
fn text_order(a: &Draft, b: &Draft) -> Ordering
    ensures { result ≡ slice_cmp nat_cmp a.now.text.items b.now.text.items }
{
    a.text.as_slice().cmp(b.text.as_slice())
}

// The drafts sorted by their texts.
pub(crate) fn by_text(mut drafts: Vec<Draft>) -> Vec<Draft>
    ensures { AreSorted drafts.items result.items }
{
    drafts.sort_unstable_by(|a, b| text_order(a, b));
    drafts
}
