//! The parts of `for` statements (ES3 12.6.3 and 12.6.4).

use js_tree::{Boxed, Expr, Stmt};

/// What stands behind the first part of a `for` header.
#[derive(Drop)]
pub struct ForRest {
    pub test: Option<Boxed<Expr>>,
    pub step: Option<Boxed<Expr>>,
    pub body: Boxed<Stmt>,
}

/// What stands behind the `in` of a `for` header.
#[derive(Drop)]
pub struct Iteration {
    pub object: Boxed<Expr>,
    pub body: Boxed<Stmt>,
}
