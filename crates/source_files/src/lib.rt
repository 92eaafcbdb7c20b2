//! Source scripts, as a team writes them: the tree of a file's text, or why the file is refused.
//!
//! The layers above may know `read_source` and `source_of` with their clauses, which
//! `specs/Reading.antt` names, the types of `fault` and `room`, the definitions of
//! `specs/Sources.antt`, and the laws of `laws`.
#![tactic(auto)]

mod fault;
mod fault_text;
mod laws;
mod room;
mod source;

pub use fault::{ScriptFault, SourceError};
pub use laws::{one_tree, sources_are_not_refused, sources_or_refused};
pub use room::SourceRoom;
pub use source::{read_source, source_of};
