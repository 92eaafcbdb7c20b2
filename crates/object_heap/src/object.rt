/// The kind of an object, its [[Class]] (ES3 8.6.2).
#[derive(Clone, Copy, Debug, PartialEq, Eq)]
pub enum Class {
    /// The standard's Object.
    Plain,
    Function,
    Array,
    /// Of an `arguments`. The standard has Object, and `toString` says that.
    Arguments,
    Error,
    Math,
}

/// The attributes of a property (ES3 8.6.1).
#[derive(Clone, Copy, Debug, PartialEq, Eq)]
pub struct Attrs {
    /// ReadOnly: a write has no effect.
    pub read_only: bool,
    /// DontEnum: no `for-in` visits it.
    pub hidden: bool,
    /// DontDelete: it cannot be deleted.
    pub fixed: bool,
}
