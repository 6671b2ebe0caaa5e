//! Behaviour texts: how the behaviour of a program with given parameters is read from the lines in which behaviours are written; and
//! the laws that behaviour texts and normal texts are read as they are written.
#![tactic(auto)]

mod behaviours;
mod claim;
mod lines;
mod tables;

pub use behaviours::{behaviours_are_read_as_written, faults_stand_where_nothing_goes_on};
pub use claim::{ClaimFault, read};
pub use lines::{bare, last_number, line, state_line};
pub use occ_compare::{
    Behaviour, Last, Refined, SetId, Side, Store, Table as DdTable, Verdict, behaviour_text,
    equal_under, named_bits, one_deadlock, one_refinement, verdict_text,
};
pub use occ_nform_read::{
    States, Table, TableFault, TableRow, a_normal_text_is_its_tables, behind, first_line,
    read as nform_read_read, small_number_of,
};
pub use tables::{
    faults_are_those_of_what_is_written, normal_texts_are_read_as_written,
    texts_of_programs_are_those_of_their_tables,
};
