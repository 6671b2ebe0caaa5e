//! A text that is read with two tables of names stands for one program, whose names have other numbers; and neither what a program means
//! nor its normal text rests on these numbers. Here are the laws; there is no code.
#![tactic(auto)]

mod law;
mod normal_texts;
mod readings;

pub use law::parameters_have_names;
pub use normal_texts::{
    normal_texts_are_renamed, normal_texts_need_no_names, renamed_programs_mean_the_same,
};
pub use occ_nform::{
    Counts, measured, normal_table, normal_text, normal_texts_tell_programs_apart,
    programs_have_one_table,
};
pub use occ_script_table::{programs_leave_places, programs_read_again};
pub use readings::{readings_are_not_refused, readings_are_renamed};
