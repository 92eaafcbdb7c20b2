//! The first grammar, of statements that call a function or write a text, function declarations,
//! stubs and entries, and its reader, on the readers of `text_reader`.
//!
//! The layers above may know this grammar as `specs/First.antt` defines it, and that a text is read
//! exactly where it is a text of that grammar: as `read_script` and `read_cluster` of
//! `specs/FirstReader.antt` read it, of which the lemmas of `proofs/FirstLaws.antt` say that they
//! find just what has the text.
#![tactic(auto)]

mod bytes;
mod parse;
mod read;
mod script;
#[cfg(test)]
mod tests;
mod tree;

pub use parse::{
    clusters_read_back, parse_first, read_first_cluster, read_first_script, scripts_read_back,
};
pub use script::{
    FirstBody, FirstEntries, FirstEntry, FirstFunction, FirstItem, FirstItems, FirstScript,
    FirstStatement, FirstStatements,
};
