//! The tokens of a script (ES3 section 7).
//!
//! `lex` cuts a text into white space, line terminators, comments and tokens, each the longest
//! piece that is allowed at its place, and answers the tokens or the first fault from the left. The
//! layers above may know of it the definitions of `specs/Tokens.antt`: which lists of tokens are
//! those of a text, and which fault is its first. The laws say that every text has exactly one
//! answer. `is_name` tells the names that are no words. How the text is read, and where reading
//! stands, stays here.
#![tactic(auto)]

mod characters;
mod front;
mod laws;
mod lexer;
mod mark;
mod name;
mod number;
mod position;
mod reading;
mod string;
mod token;
mod units;
mod word;

pub use laws::{
    every_text_is_lexed, faults_stand_where_no_piece_does, no_text_has_both, one_cut, one_fault,
    one_list_of_tokens, reading_finds_the_next_piece,
};
pub use lexer::lex;
pub use mark::Mark;
pub use name::is_name;
pub use token::{LexError, LexKind, Token, TokenKind};
pub use word::Word;

#[cfg(test)]
mod tests;
