//! Scopes: names with values, and the search of a name from a scope outwards (ES3 10.1), as
//! definitions so far: nothing is run here yet. The layer above may know scopes and their chains as
//! `specs/Scopes.antt` has them, the search by name of `specs/Search.antt`, and the laws in `laws`;
//! nothing stands on the rows. What no scope has is sought in the global object, of which this
//! layer knows nothing.
#![tactic(auto)]

mod laws;
mod rows;

pub use laws::{chains_go_outwards, fixed_scopes_stay, parents_come_before, scopes_never_go};
pub use rows::{changed_values, entered_scopes, found_names, read_values};
