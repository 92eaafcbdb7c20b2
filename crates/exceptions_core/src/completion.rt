use dl_text::{Names, Units};
use js_values::Value;

/// How a statement ends (ES3 8.9). The value of a normal completion is left out, since nothing
/// reads it.
#[derive(Drop)]
pub enum Completion {
    Normal,
    /// With its label, if it has one.
    Break(Option<Units>),
    /// With its label, if it has one.
    Continue(Option<Units>),
    Return(Value),
    Throw(Value),
}

/// A statement that is open, or a call.
#[derive(Drop)]
pub enum Frame {
    /// A loop, with the labels that stand before it (ES3 12.6, 12.12).
    Loop(Names),
    /// A `switch`, with the labels that stand before it (ES3 12.11, 12.12).
    Switch(Names),
    /// Another statement behind labels (ES3 12.12).
    Label(Names),
    /// The block of a `try` that has a `catch` (ES3 12.14).
    Catch,
    /// What stands before a `finally` (ES3 12.14).
    Finally,
    /// The body of a function (ES3 13.2.1).
    Call,
}

/// Where a completion leads.
#[derive(Drop)]
pub enum Landing {
    /// The next turn of the innermost loop.
    Next,
    /// What stands behind the statement that was left.
    Left,
    /// The `catch` of the statement that was left, with what was thrown.
    Catch(Value),
    /// The `finally` of the statement that was left, with the completion that waits for its end.
    Finally(Completion),
    /// What waits for the call that was left.
    Caller(Completion),
    /// No frame takes the completion.
    Bottom(Completion),
}
