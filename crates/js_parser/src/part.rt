//! The parts of an expression that a rule may ask for.

/// Which expression is to be read (ES3 section 11).
#[derive(Clone, Copy)]
pub enum Part {
    /// An Expression, with the operator `,`.
    Comma,
    /// An AssignmentExpression.
    Assignment,
    /// Operands with operators of at least this level between them.
    Operation(u8),
    /// A UnaryExpression.
    Unary,
    /// A LeftHandSideExpression, with calls, or without, as the callee of `new`.
    Operand(bool),
}
