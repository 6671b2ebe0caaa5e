//! The laws of programs are sound: where one of the 63 laws holds between two parts in a scope, the two mean the same there. A law has one
//! direct result of a part. Here are the laws; there is no code.
#![tactic(auto)]

mod all_sound;
mod choice_sound;
mod par_sound;
mod results_are_one;
mod scope_sound;
mod seq_sound;

pub use all_sound::laws_are_sound;
pub use choice_sound::{
    alt_case_is_sound, alt_false_is_sound, alt_flat_is_sound, alt_least_is_sound,
    alt_none_is_sound, alt_order_is_sound, alt_same_is_sound, alt_skip_is_sound,
    alt_slide_is_sound, alt_split_is_sound, alt_twice_is_sound, choice_laws_are_sound,
    if_copy_is_sound, if_cut_is_sound, if_else_stop_is_sound, if_false_is_sound, if_merge_is_sound,
    if_nest_is_sound, if_none_is_sound, if_swap_is_sound, if_true_is_sound, if_under_is_sound,
};
pub use occ_law::names_are_distinct;
pub use par_sound::{
    par_assign_is_sound, par_expand_is_sound, par_flat_is_sound, par_if_is_sound,
    par_none_is_sound, par_one_is_sound, par_order_is_sound, par_skip_is_sound, par_stop_is_sound,
    parallel_laws_are_sound,
};
pub use results_are_one::{direct_results_are_one, sides_are_one};
pub use scope_sound::{
    chan_alt_is_sound, chan_if_is_sound, chan_par_is_sound, chan_rename_is_sound,
    chan_seq_is_sound, chan_swap_is_sound, chan_unused_is_sound, scope_laws_are_sound,
    var_alt_input_is_sound, var_alt_is_sound, var_any_is_sound, var_assign_is_sound,
    var_end_is_sound, var_first_is_sound, var_if_is_sound, var_last_is_sound, var_par_is_sound,
    var_rename_is_sound, var_swap_is_sound, var_unused_is_sound,
};
pub use seq_sound::{
    assign_alt_is_sound, assign_id_is_sound, assign_if_is_sound, assign_join_is_sound,
    assign_order_is_sound, assign_pad_is_sound, expr_is_sound, io_alt_is_sound, seq_alt_is_sound,
    seq_flat_is_sound, seq_if_is_sound, seq_none_is_sound, seq_one_is_sound, seq_skip_is_sound,
    seq_stop_is_sound, sequence_laws_are_sound,
};
