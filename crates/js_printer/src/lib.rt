//! How trees are printed: the tokens of a tree, and the text of these.
//!
//! The printer knows nothing of the parser. The layers above may know `specs/Printed.antt`, which
//! gives the tokens of a tree, and `specs/PrintedText.antt`, of which the functions that end in
//! `bytes` are the text of a script, a function, a body and an entry. `print_script`, `print_func`,
//! `print_body` and `print_entry` answer just these. How they are written, in one pass over the
//! tree into one buffer, stays here.
#![tactic(auto)]

mod edge;
mod expressions;
mod first;
mod functions;
mod operands;
mod printing;
mod signs;
mod statements;
mod writer;

pub use printing::{print_body, print_entry, print_func, print_script};
