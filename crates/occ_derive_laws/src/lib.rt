//! The laws that derivations use, in the form in which they are used: where one side keeps names, types, directions and usage, so does
//! the other, and the law joins the two; and which of them use no more than before. There is no code.
#![tactic(auto)]

mod alt_laws;
mod assignments;
mod channels;
mod expressions;
mod facts;
mod if_laws;
mod lists;
mod parts;
mod sparing;
mod variables;

pub use alt_laws::{
    alt_false_holds, alt_flat_holds, alt_least_holds, alt_none_holds, alt_order_holds,
    alt_same_holds, alt_skip_holds, alt_slide_holds, alt_split_holds, alt_twice_holds,
};
pub use assignments::{
    assign_alt_joins, assign_id_joins, assign_if_joins, assign_join_joins, assign_order_joins,
    assign_pad_joins, assigned_are_variables,
};
pub use channels::{
    channels_are_not_free_in_assignments, channels_are_renamed, channels_go_into_branches,
    channels_go_into_choices, channels_go_into_two, unused_channels_go,
};
pub use expressions::{expr_joins, expressions_are_alike, expressions_are_few, io_alt_joins};
pub use facts::{conditions_that_name_less_are_few, lists_with_true_are_exhaustive};
pub use if_laws::{
    if_copy_holds, if_cut_holds, if_else_stop_holds, if_else_stop_spares, if_false_holds,
    if_nest_holds, if_true_holds, if_under_holds,
};
pub use lists::{branches_stand_one_behind_the_other, expressions_that_name_nothing_are_few};
pub use occ_derive_moves::rows_make_steps;
pub use parts::{
    seq_alt_joins, seq_flat_joins, seq_flat_joins_last, seq_if_joins, seq_none_joins,
    seq_one_joins, seq_skip_joins, seq_stop_joins,
};
pub use sparing::{alt_flat_spares, alt_order_spares, alt_skip_spares};
pub use variables::{
    inputs_go_at_once, inputs_go_into_variables, last_pairs_go, new_variables_may_be_passed,
    pairs_come, pairs_go, unused_variables_come, unused_variables_go, values_are_written_out,
    variables_are_renamed, variables_come_before_channels, variables_come_round_first_parts,
    variables_come_round_last_parts, variables_come_round_pars, variables_end_before_last_parts,
    variables_go_into_branches, variables_go_into_choices,
};
