/// Which texts are read.
#[derive(Clone, Copy, Debug, PartialEq, Eq)]
pub enum Form {
    /// A script as a team writes it.
    Source,
    /// A script or an entry of a site, which may have `eval($dl_get(k))` and names `$dl_rk`.
    Written,
}

/// What is refused by a name of its own.
#[derive(Clone, Copy, Debug, PartialEq, Eq)]
pub enum Construct {
    /// The word `with`.
    With,
    /// The word `debugger`.
    Debugger,
    /// A slash where no operator fits.
    RegExp,
    /// A name or a string that begins with `$dl_`.
    DlName,
    /// The name `eval`.
    Eval,
    /// The name `Function`.
    FunctionName,
    /// The name `Infinity`.
    InfinityName,
    /// The name `arguments`.
    Arguments,
    /// The name `callee`.
    Callee,
    /// The name `caller`.
    Caller,
    /// The word `function`.
    FunctionPlace,
    /// A formal that repeats an earlier one.
    RepeatedFormal,
}

/// What a text may have at most.
#[derive(Clone, Copy, Debug, PartialEq, Eq)]
pub struct Limits {
    /// How deep its tree may be.
    pub depth: u32,
    /// How many functions may stand in one another.
    pub nesting: u32,
    /// How many brackets may be open at once.
    pub brackets: u32,
    /// How many functions it may have.
    pub functions: u32,
}
