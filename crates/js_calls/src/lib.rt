//! What the entry of a function of a script binds, the object that `new` makes, and the list that
//! `apply` passes on (ES3 10.1, 11.2.2, 13.2, 15.3.4.3), as definitions so far: nothing is run here
//! yet. The layer above may know what code declares (`specs/Declared.antt`), function objects
//! (`specs/FunctionObjects.antt`), entries (`specs/Entry.antt`), what `new` and `apply` do
//! (`specs/Construct.antt`, `specs/Apply.antt`), and the laws in `laws`; nothing stands on the
//! rows. The code and the scope of a function are the machine's.
#![tactic(auto)]

mod laws;
mod rows;

pub use laws::{entries_hold_nothing, entries_keep_order};
pub use rows::{
    applied_lists, argument_objects, declared_names, entries, function_objects, new_objects,
    this_values,
};
