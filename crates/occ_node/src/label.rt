ghost use Rattle.occ_node.specs.Exact.{exact_node};

use crate::NodeId;
use occ_mdd::Label;

impl Label for NodeId {
    ghost exact = { exact_node };
}
