//! The grammar of scripts (ES3 sections 11 to 14), and their parser.
//!
//! `specs/Grammar.antt` says which tokens are a script with which tree, `specs/Accepted.antt` which
//! scripts are accepted within limits, and `specs/Fault.antt` what may be told of a script that is
//! not. `parse` answers just these. `specs/Machine.antt` reads tokens from the left, within limits;
//! the laws of `laws` say that it reads just the scripts, and each rule of the parser is a piece of
//! its runs (`specs/Reads.antt`). The layers above may know the grammar, what is accepted and told,
//! the types of `form` and `error`, the laws, and the clauses of `parse`.
#![tactic(auto)]

mod build;
mod context;
mod cuts;
mod declarators;
mod descent;
mod elements;
mod ends;
mod error;
mod fits;
mod for_parts;
mod form;
mod fronts;
mod functions;
mod jumps;
mod kinds;
mod late;
mod laws;
mod link;
mod links;
mod lists;
mod literals;
mod loops;
mod names;
mod nodes;
mod opening;
mod operands;
mod operations;
mod operators;
mod parsing;
mod part;
mod rooms;
mod rules;
mod scan;
mod statement_kind;
mod statement_nodes;
mod statements;
mod stop;
mod targets;
mod tokens;
mod told;
mod tree_lists;
mod tries;

pub use error::ParseError;
pub use form::{Construct, Form, Limits};
pub use laws::{
    accepted_has_no_fault, accepted_or_a_fault, brackets_are_closed, else_is_of_the_nearest_if,
    functions_are_counted, have_tokens, in_is_in_parentheses, in_may_be_allowed, levels_go_down,
    limits_break_in_a_statement, none_is_inserted_where_the_next_fits, one_breaking_token,
    one_list_of_formals, one_tree, one_tree_of_a_token, scripts_are_read, scripts_do_not_break,
    spent_where_there_is_no_room, stuck_at_the_breaking_token, targets_rise, tokens_are_placed,
    tokens_of_texts_are_closed, what_is_read_begins_a_script, what_is_read_is_a_script,
};
pub use parsing::parse;
