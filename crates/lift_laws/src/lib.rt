//! What it means that a plan lifts an expression of the Core: one plan for the values of all iterations at once.
//! The definitions stand in specs/; the laws are the cases of the induction over expressions.
#![tactic(auto)]

mod laws;

pub use laws::{
    aggregates_lift, atom_conversions_lift, binding_lifts, booleans_lift, branch_carries,
    calls_lift, castable_lifts, check_adds, checks_answer, choice_lifts, concats_lift,
    condition_binds_lift, connectives_lift, constants_lift, contents_lift, cost_is_work,
    count_lifts, data_lifts, demands_are_small, distincts_lift, empty_lifts, empty_types_lift,
    exactly_one_lifts, excepts_lift, exists_lifts, failures_are_reached, failures_lift,
    generals_lift, indices_lift, inserts_lift, instances_lift, intersects_lift,
    item_conversions_lift, item_rules_lift, joins_lift, kind_conversions_lift, literal_lifts,
    loop_binds_lift, loop_carries, loop_lifts, no_parts_lift, node_conversions_lift, none_carried,
    nothing_lifts, one_more_carried, one_or_more_lifts, operator_makes, pair_rules_lift,
    parts_lift, parts_of_texts_lift, paths_lift, plans_answer, ranges_lift, removes_lift,
    rests_lift, reverse_lifts, rules_are_fair, sequence_lifts, slices_lift, sorted_lifts,
    step_makes, steps_lift, strict_casts_lift, sums_or_lift, text_pairs_lift, text_rules_lift,
    treats_lift, trees_are_known, trios_lift, tuples_lift, unions_lift, values_where_nothing_fails,
    variable_binds_lift, variable_lifts, world_exists, zero_or_one_lifts,
};
