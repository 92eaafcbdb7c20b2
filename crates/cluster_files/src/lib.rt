//! What is printed reads back.
//!
//! The layers above may know the laws of `laws`. No code runs here yet.
#![tactic(auto)]

mod laws;

pub use laws::{
    printed_text_has_few_brackets, printed_text_is_accepted, printed_text_is_its_tokens,
    printed_text_is_lexed, printed_text_is_parsed, printed_text_reads_back,
    printed_tokens_read_back, printed_tree_reads_back, printed_twice_is_printed_once,
    tokens_of_texts_are_read,
};
