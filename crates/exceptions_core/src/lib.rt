//! How statements end, and where that leads among the statements and calls that are open (ES3 8.9
//! and 12.7 to 12.14). The layer above may know the completions, frames and landings as they stand
//! here, the stack `Frames` with its `unwind`, the table of `specs/Table.antt`, the walk over the
//! open frames of `specs/Unwind.antt`, and the laws in `laws`; nothing stands on the rows.
#![tactic(auto)]

mod completion;
mod laws;
mod rows;
mod stack;
mod table;

pub use completion::{Completion, Frame, Landing};
pub use laws::{falls_to_the_bottom, lands_at_the_innermost};
pub use rows::{calls_and_statements, handlers, jumps, landings};
pub use stack::Frames;
