//! The laws of the definitions of the language: what holds of the behaviours of every part, SAME in every context, PAR, declarations, names
//! and values; and parts compared from one state. Here are the laws; there is no code.
#![tactic(auto)]

mod at_states;
mod behaviour;
mod declare;
mod foundation;
mod parallel;
mod rename;
mod same;
mod scope;
mod substitution;

pub use at_states::{
    assignments_lead_to_their_values, false_choices_are_passed, true_choices_are_taken,
};
pub use behaviour::{
    events_are_of_the_interface, events_are_on_used_ends, every_part_has_the_empty_trace,
    refusals_shrink, traces_are_bounded, traces_are_closed_under_fronts, unused_ends_are_refused,
};
pub use declare::{
    a_variable_and_a_channel_may_change_places, channels_may_be_declared_for_each_part,
    channels_may_be_declared_for_one_part_of_a_par, two_channels_may_change_places,
    two_variables_may_change_places, unused_channels_may_be_left_out,
    unused_variables_may_be_left_out, variables_may_be_declared_behind_a_part,
    variables_may_be_declared_for_one_part_of_a_par, variables_may_end_before_a_part,
};
pub use foundation::{
    conditions_are_joined_by_and, conditions_are_joined_by_or, conditions_are_negated,
    conditions_are_zero_or_one, evaluation_stays_below, every_environment_has_a_state,
    expressions_depend_on_their_names_alone, parts_of_parts_that_keep_the_rules_keep_them,
    parts_of_typed_parts_are_typed, typed_parts_take_states_to_states,
    unwritten_variables_keep_their_values,
};
pub use occ_syntax::{Dir, Memory, Width};
pub use parallel::{
    assignments_may_leave_a_par, par_in_par_is_flat, par_is_associative,
    par_with_stop_stops_at_its_end, parts_may_stand_in_any_order,
    parts_that_keep_usage_may_stand_in_any_order, separate_parts_write_apart,
    skip_in_par_is_nothing, stop_with_a_part_stops_at_its_end, two_parts_may_change_places,
};
pub use rename::{
    channels_may_be_renamed, exchanged_names_keep_behaviour, exchanged_names_keep_types,
    replaced_names_keep_behaviour, replaced_names_keep_types,
    replacing_by_a_new_name_is_exchanging, replacing_by_itself_changes_nothing,
    variables_may_be_renamed,
};
pub use same::{
    a_part_is_the_same_as_itself, alt_of_same_processes, if_of_same_processes, par_of_same_parts,
    same_both_ways, same_over_the_interface, same_parts_have_the_same_traces,
    same_parts_may_be_put_in, same_through_a_third, same_under_a_channel, same_under_a_variable,
    seq_of_same_parts, typed_parts_may_be_put_in, what_is_put_in_is_there,
};
pub use scope::{
    free_names_are_in_scope, other_names_in_scope_do_not_matter, other_values_do_not_matter,
    same_whatever_other_names_are_in_scope, used_ends_are_allowed,
    what_is_in_scope_is_not_declared_again, what_is_not_free_is_not_used,
    what_stands_nowhere_is_not_free, written_names_are_variables,
};
pub use substitution::{
    nothing_is_replaced_where_nothing_is_named, replaced_variables_are_gone,
    substituted_expressions_have_the_assigned_value, substitution_brings_no_other_names,
    substitution_keeps_types,
};
