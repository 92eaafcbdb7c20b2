//! Readers: bytes that are read from their front.
//!
//! A reader of `specs/Reader.antt` is a function that says what stands at the front of a text, and
//! what is left behind it. A `Cursor` holds what is left, and its calls do what readers say
//! (`specs/Gives.antt`); `Cursor::list` reads the items of a list, of which a `ListReader` reads
//! one. The layers above write their grammars as readers. They may know of a cursor only the bytes
//! that it still has, and of readers what the lemmas of `proofs/` say: that they read nothing but
//! what has the text, and that they read it again.
#![tactic(auto)]

mod cursor;
mod laws;
mod list;
mod numeral;
#[cfg(test)]
mod tests;

pub use cursor::{Cursor, Refusal};
pub use laws::decimals_read_back;
pub use list::{ListReader, or_none};
