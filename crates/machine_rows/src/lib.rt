//! Worked runs of scripts and pages (ES3 8 to 15): what they tell, how they end, and after how many
//! steps and beats. Each call does nothing, and its clauses compute the definitions of `js_machine`
//! on a script. Each clause of a definition has a row that comes out otherwise where the clause is
//! wrong. Nothing stands on this crate.
#![tactic(auto)]

mod built_rows;
mod conversion_rows;
mod expression_rows;
mod function_rows;
mod global_rows;
mod halt_rows;
mod host_rows;
mod kind_rows;
mod member_rows;
mod operated_rows;
mod operator_rows;
mod page_rows;
mod rows;
mod statement_rows;
mod written_rows;

pub use built_rows::{
    built_expressions, built_statements, frames_that_look_at_no_object, frames_that_look_inside,
    other_controls, unbuilt_names, unbuilt_places,
};
pub use conversion_rows::{entered_methods, entered_objects, operands_converted_first};
pub use expression_rows::{
    accesses_and_calls, choices_and_assignments, primary_expressions, unary_operators,
};
pub use function_rows::{applications, arguments_of_calls, bindings, function_objects, natives};
pub use global_rows::{
    changes_of_names, kinds_of_values, names_of_globals, operators_on_one_value,
    variables_of_scripts,
};
pub use halt_rows::{halts, halts_of_ends, runs_of_calls, runs_of_tasks, tasks, throws_of_ends};
pub use host_rows::{
    answers_of_the_host, bodies_that_grow, host_calls_at_the_start, leads, names_of_host_calls,
    seen_by_the_host, told_of_the_host,
};
pub use kind_rows::{steps_of_expressions, steps_of_statements};
pub use member_rows::{
    calls_of_members, changes_of_members, members_of_values, stacks_of_values, targets_of_nodes,
};
pub use operated_rows::{
    bits_of_values, each_operator, each_operator_on_objects, equalities_of_kinds,
    equalities_of_values, long_texts, orders_of_values, products_of_values, stops_of_texts,
    sums_of_values,
};
pub use operator_rows::{conversions, equalities, numbers_and_texts, orders};
pub use page_rows::{events, scripts, stopped_runs};
pub use rows::{worked_functions, worked_logs, worked_objects, worked_pages, worked_scripts};
pub use statement_rows::{exceptions, jumps, loops, plain_statements, visits};
pub use written_rows::{written_calls, written_runs};
