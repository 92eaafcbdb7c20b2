//! Worked texts of the grammar and of the printer (ES3 sections 11 to 14).
//!
//! This layer runs nothing. Its rows compute texts in the definitions of `js_parser`: which tokens
//! they have, whether these are accepted and with which tree, what is told of them, and in the
//! definitions of `js_printer` what the tree is written as. Nothing stands on the rows.
#![tactic(auto)]

mod expression_rows;
mod limit_rows;
mod printed_rows;
mod rows;
mod statement_rows;

pub use expression_rows::{
    assignments, calls, formals, headers, literals, names, operators, prefixes, written_form,
};
pub use limit_rows::{
    bounds, counted_tokens, depths, in_decimal, limits, nestings, placed_tokens, told_by_tokens,
};
pub use printed_rows::{parentheses, spaces, tokens_written};
pub use rows::{accepted_texts, refused_texts, told_tokens, written_parts};
pub use statement_rows::{expression_statements, jumps, labels, semicolons, statements};
