use crate::code::{Code, Rest};
use crate::manifest::Manifest;
use sqlite_items::Items;

/// Where an entry stands: the places of its cluster in the manifest and of the entry in the
/// cluster.
#[derive(Clone, Copy)]
pub struct EntryPlace {
    pub cluster: usize,
    pub entry: usize,
}

/// What a call of a function runs.
#[derive(Drop)]
pub enum Body {
    Statements(Code),
    /// The stub of an entry.
    Stub(EntryPlace),
}

/// A function of the script, by its letter. A stub has the number of its entry.
#[derive(Drop)]
pub struct Function {
    pub number: u32,
    pub name: u8,
    pub body: Body,
}

pub type Functions = Items<Function>;

/// An entry of a cluster that is here.
#[derive(Drop)]
pub struct Entry {
    pub number: u32,
    pub code: Code,
}

/// The entries of a cluster, in the manifest's order.
pub type Entries = Items<Entry>;

/// The clusters of the manifest in its order; None is a cluster that is not here.
pub type Loaded = Items<Option<Entries>>;

/// The place of the function that counts, for each letter.
pub type FunctionsByLetter = Items<Option<usize>>;

/// The code of a site, as far as it is here.
#[derive(Drop)]
pub struct Table {
    pub manifest: Manifest,
    pub functions: Functions,
    pub names: FunctionsByLetter,
    pub loaded: Loaded,
}

/// What is still to run of a body, and how many functions' scopes enclose it. The scopes of this
/// grammar hold nothing, so their number serves the proofs alone.
#[derive(Drop)]
pub struct Continuation {
    pub rest: Rest,
    pub depth: u64,
}

/// A call under way, by where it goes on.
#[derive(Drop)]
pub enum Frame {
    Call(Continuation),
    /// The call of a stub, whose late function runs.
    Late(Continuation),
}
