//! What programs mean (ES3 8 to 14), and the machine that runs them. The meaning of a node is a
//! program of asks, and a run answers them under a budget of steps. The layer above may know the
//! asks (`specs/Asks.antt`), the program of each node (`specs/Programs.antt`), the state
//! (`specs/State.antt`), runs (`specs/Run.antt`), pages, original and written (`specs/Page.antt`),
//! what is read of a run (`specs/Logs.antt`), the laws in `laws`, and how a run of the machine ends
//! (`specs/Halts.antt`). The machine runs the nodes of `specs/Built.antt`, and stops at any other
//! as not built yet. Worked runs stand in `machine_rows` and `machine_table`.
#![tactic(auto)]

mod assignments;
mod at_once;
mod begin;
mod calls;
mod clock;
mod conversions;
mod expressions;
mod flow;
mod for_in;
mod frame;
mod hosts;
mod laws;
mod literals;
mod loops;
mod machine;
mod members;
mod names;
mod operators;
mod run;
mod stacks;
mod statements;
mod task;
mod unary;
mod values;
mod variables;
mod visits;
mod world;
mod writes;

pub use laws::{
    calls_are_entered, lists_are_applied, long_texts_stop, nodes_have_parts, pages_grow,
    pages_rise, reached_states_keep, runs_grow, steps_rise,
};
pub use machine::Machine;
pub use task::Halt;
pub use world::{Host, Late};
