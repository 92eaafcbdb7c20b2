//! Play: the run of a site's files for a page, and its report.
//!
//! It stands on the store of `dl_ports`, the reader of scripts of `first_grammar` and the readers
//! of `text_reader`. A site is its manifest (`manifest`), its script (`site`) and its clusters
//! (`clusters`); a `Machine` runs the script over the `Table` of its functions up to the call of a
//! stub whose cluster is not here, and `play` reads that cluster's file and goes on. `report`
//! writes the lines. The layer above may know `play_first` and `play_page`, and of their result
//! what `specs/Played.antt`, `specs/Headline.antt` and `specs/Laziness.antt` say.
#![tactic(auto)]

mod clock;
mod clusters;
mod code;
pub mod laws;
mod machine;
mod manifest;
mod outcome;
mod play;
mod report;
pub mod rows;
mod site;
mod table;

pub use outcome::{End, FirstError, FirstFile, Outcome};
pub use play::{play_first, play_page};
