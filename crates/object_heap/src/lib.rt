//! Objects and their properties (ES3 8.6, 15.4.5), and the objects that are there at the start (ES3
//! 15). The layer above may know of a `Heap` the list of its objects, as `specs/Objects.antt` has
//! them, what its calls read (`specs/Get.antt`, `specs/Visited.antt`), what a write or another call
//! leaves (`specs/Put.antt`, `specs/Changes.antt`), the table of `specs/Start.antt`, and the laws
//! in `laws`; nothing stands on the rows. A value that an index of `arguments` shares is in a
//! scope: this layer tells the place alone. The code and the scope of a function are the machine's.
//! How objects are stored stays here.
#![tactic(auto)]

mod answer;
mod array_rows;
mod built_in;
mod chain;
mod entry;
mod heap;
mod laws;
mod names;
mod object;
mod properties;
mod rows;
mod start;
mod start_objects;
mod start_rows;
mod stored;
mod table;
#[cfg(test)]
mod tests;
mod visited;

pub use answer::{HeapError, Prop, Put};
pub use array_rows::{elements, indices, lengths};
pub use built_in::BuiltIn;
pub use heap::Heap;
pub use laws::{chains_go_up, nothing_holds, prototypes_come_before};
pub use names::{is_length, is_reserved};
pub use object::{Attrs, Class};
pub use rows::{definitions, deletions, reads, refused_writes, visited_names, writes};
pub use start_rows::{
    constructors, global_names, kinds_at_start, lengths_at_start, numbers_at_start,
    object_prototypes, other_prototypes,
};
pub use visited::Visit;
