//! Where lines stand by their levels: the least line that stands where it may not or lacks what it needs, and good lines as
//! a forest.
#![tactic(auto)]

mod growing;
mod kind;
mod laws;
mod looking;
mod passed;
mod placed;
mod reading;

pub use growing::grown;
pub use laws::{
    good_lines_nest, good_options_declare_nothing, good_parts_have_no_header,
    good_plain_lines_have_no_replicator, good_programs_have_one_header, one_forest,
};
pub use placed::{Frame, Placed};
pub use reading::least_bad;
