//! What a law of SEQ, of assignment, of communication as choice, or of declarations makes of a part at a place: its right side, written.
#![tactic(auto)]

/// Takes a part apart for a law: where the part is of the named form, the expression over the form's fields, and
/// otherwise the answer that the law makes nothing of it.
macro_rules! form {
    ($part:expr, $form:ident($($field:pat),*) => $body:expr) => {
        match occ_law_seq::opened($part) {
            occ_law_seq::Form::$form($($field),*) => $body,
            _ => Ok(None),
        }
    };
}

mod assignment;
mod behind;
mod choices;
mod chosen;
mod communication;
mod declaration;
mod followed;
mod kept;
mod made;
mod moves;
mod pairs;
mod put_in;
mod sequence;
mod table;
mod unheard;
mod values;
mod write;

pub use occ_law_scope::holds;
pub use occ_law_seq::holds as law_seq_holds;
pub use table::sequence_right;
pub use write::scope_right;
