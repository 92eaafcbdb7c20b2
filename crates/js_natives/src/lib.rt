//! The natives, which are the functions of the library (ES3 15), each as a program of asks, as
//! definitions so far: nothing is run here yet. The layer above may know the programs of
//! `specs/Program.antt`, the table of `specs/Natives.antt`, which gives the program of each native
//! and the native of each function of the start, and the laws in `laws`; nothing stands on the
//! rows. What a native asks for is answered there: steps, conversions, which may call functions,
//! reads and writes of properties, and listeners. `call` and `apply` enter a function, so they have
//! no program here.
#![tactic(auto)]

mod answer;
mod array_rows;
mod laws;
mod move_rows;
mod native;
mod number_rows;
mod object_rows;
mod other_rows;
mod string_rows;
mod table_rows;

pub use answer::{Answer, ErrorKind};
pub use array_rows::{
    array_texts, concatenated_arrays, joined_elements, new_arrays, popped_elements, pushed_elements,
};
pub use laws::{long_texts_stop, natives_avoid, steps_are_of_indices};
pub use move_rows::{
    reversed_elements, shifted_elements, sliced_arrays, spliced_elements, taken_out,
    unshifted_elements,
};
pub use native::Native;
pub use number_rows::{
    chosen_numbers, numbers_and_truths, single_numbers, texts_in_radices, values_of_primitives,
};
pub use object_rows::{
    function_texts, object_texts, objects_of_values, own_properties, prototypes_of_values,
    visible_properties,
};
pub use other_rows::{error_texts, listeners, new_errors, not_numbers, parsed_numbers};
pub use string_rows::{
    concatenated_texts, first_places, last_places, parts_of_texts, split_texts, text_values,
    texts_of_codes, texts_of_values, units_of_texts, what_is_not_asked,
};
pub use table_rows::{called_functions, constructed_functions};
