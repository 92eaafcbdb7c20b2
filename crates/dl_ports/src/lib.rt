//! What reaches outside a program: stores of files, sinks and sources of bytes, and doors where
//! connections arrive.
//!
//! Each is a trait over `Port`. A layer above is generic over them and may know of a port only its
//! meanings: what it tells of its contents, and its counts of faults. A port in memory tells
//! everything, and one over the system tells nothing. A call answers `Failed` exactly where the
//! port's count of faults rose, and each call says what a refusal leaves.
#![tactic(auto)]

mod door;
mod folder;
mod memory_door;
mod memory_link;
mod memory_sink;
mod memory_store;
mod plan;
mod port;
mod sink;
mod source;
mod stdout;
mod store;
mod tcp;

pub use door::Door;
pub use folder::FolderStore;
pub use memory_door::MemoryDoor;
pub use memory_link::MemoryLink;
pub use memory_sink::MemorySink;
pub use memory_store::MemoryStore;
pub use port::{Port, PortError};
pub use sink::{Sink, put_all};
pub use source::Source;
pub use stdout::StdoutSink;
pub use store::Store;
pub use tcp::{TcpDoor, TcpLink};

#[cfg(test)]
mod tests;
